//! What one put of a page makes of layouts and of the files.
ghost use Rattle.std.specs.Prelude.{◌≡◌, ◌<◌, ℕ, true, List, slice_set};
ghost use Rattle.jn_base.specs.declared.names.BlockNo.{BlockNo};
ghost use Rattle.jn_base.specs.declared.names.FileNo.{FileNo};
ghost use Rattle.jn_order.specs.Files.{change, cut_from};
ghost use Rattle.jn_records.specs.declared.head.Head.{Head};
ghost use Rattle.jn_records.specs.Layouts.{Layout, at_cell, layout_by, layouts_by, layout_at, has_address, files_in, with_row, IsMapIn, IsNoMap, IsRowChanged, IsPartCut};
ghost use Rattle.jn_records.specs.MapPlaces.{is_in_range};
ghost use Rattle.jn_records.specs.NetLists.{among};

/// A layout has an address exactly where it stands at one of its cells.
pub fn a_layout_has_what_stands_at_a_cell()
    ensures at { (h : Layout) (n a q : ℕ) → q < n → at_cell h q ≡ a → has_address n a h ≡ true }
    ensures found { (h : Layout) (n a : ℕ) → has_address n a h ≡ true → (q : ℕ) × (q < n) × (at_cell h q ≡ a) }
{}

/// Each put of a page changes one layout, or none.
pub fn a_put_changes_one_layout()
    ensures head { (maps : ℕ → ℕ → ℕ) (heads : List Head) (place : ℕ) (h : Head) → layouts_by maps (slice_set heads place h) ≡ slice_set (layouts_by maps heads) place (layout_by maps h) }
    ensures map { (old new : ℕ → ℕ → ℕ) (heads : List Head) (d place j : ℕ) (entries : ℕ → ℕ) → IsRowChanged d entries old new → IsMapIn heads d place j
        → layouts_by new heads ≡ slice_set (layouts_by old heads) place (with_row j entries (layout_at (layouts_by old heads) place)) }
    ensures block { (old new : ℕ → ℕ → ℕ) (heads : List Head) (d : ℕ) (entries : ℕ → ℕ) → IsRowChanged d entries old new → IsNoMap heads d → layouts_by new heads ≡ layouts_by old heads }
{}

/// The first put of a cut that falls inside of a map page takes the blocks of that page from there on away.
pub fn a_layout_in_part_is_a_cut_in_part()
    ensures { (layouts : List Layout) (blocks : ℕ → List ℕ) (f : FileNo) (n : BlockNo) (j place : ℕ) (new : Layout) → IsPartCut layouts f n j place new
        → files_in (slice_set layouts place new) blocks ≡ change (among (λ (p : BlockNo). is_in_range j p.0) (cut_from f n)) (files_in layouts blocks) }
{}
