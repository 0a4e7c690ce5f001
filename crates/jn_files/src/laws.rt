//! What holds of tables and of the pages that they are kept on.
ghost use Rattle.std.specs.Prelude.{◌≡◌, ◌<◌, ◌^◌, ℕ, List, length};
ghost use Rattle.jn_records.specs.declared.head.Head.{Head};
ghost use Rattle.jn_records.specs.StablePages.{Counts, Pages, files_of_pages};
ghost use Rattle.jn_files.specs.Table.{AreHeads, files_of, layouts_of};
ghost use Rattle.jn_files.specs.Pages.{Says, leaves_in};

/// Pages that say heads and map pages hold the files of their layouts, with the blocks of their own data pages.
pub fn pages_hold_the_files_of_heads()
    ensures { (g : Counts) (pages : Pages) (rows : List (List ℕ)) (heads : List Head) → length heads ≡ g.heads → g.leaves < 2 ^ 16 → AreHeads g.leaves rows heads → Says g pages rows heads
        → files_of_pages g pages ≡ files_of (layouts_of rows heads) (leaves_in g pages) }
{}
