//! Where a server begins, and how it ends.
ghost use Rattle.std.specs.Prelude.{◌≡◌, ◌<◌, ◌^◌, ℕ, List};
ghost use Rattle.jn_base.specs.declared.names.ServerNo.{ServerNo};
ghost use Rattle.jn_records.specs.declared.head.Head.{Head};
ghost use Rattle.jn_records.specs.declared.record.Record.{Record};
ghost use Rattle.jn_records.specs.declared.record.Record.TheVariants.{Free};
ghost use Rattle.jn_records.specs.Pages.{root_page};
ghost use Rattle.jn_records.specs.Sound.{Image, IsSound};
ghost use Rattle.jn_records.specs.StablePages.{Counts, root_by, files_of_pages};
ghost use Rattle.jn_sets.specs.Pool.{record_in};
ghost use Rattle.jn_store.specs.Store.{StoreView, IsOnly, IsWholePage};
ghost use Rattle.jn_page_state.specs.Images.{CountsFit, IsStoreOf, IsFresh, IsImage};
ghost use Rattle.jn_page_state.specs.Standing.{IsStanding, standing_state};

/// From the pages of a sound image a recovery may begin. By each pick it finds the image's files, no work and no flag.
pub fn a_sound_image_is_found()
    ensures { (server : ServerNo) (m : Image) (v : StoreView) → IsSound server m → CountsFit server m.counts → IsStoreOf m v
        → (epoch : ℕ) → epoch < 2 ^ 32 → m.bytes 0 ≡ root_page (record (root_by m.server m.counts epoch) { version = m.version }) → IsFresh server m.counts epoch (files_of_pages m.counts m.bytes) v }
{}

/// Three things make the pages those of a sound image, with the files that are found. No record stands, each page is good in both its
/// halves, and the root is of the version that is written.
pub fn whole_pages_are_a_sound_image()
    ensures { (server : ServerNo) (g : Counts) (v : StoreView) (epoch : ℕ) (records : List Record) (heads : List Head) (rows : List (List ℕ)) → IsStanding server g v epoch records heads rows
        → IsOnly v 0 (root_page (root_by server g epoch)) → ((i : ℕ) → record_in records i ≡ Free) → ((i : ℕ) → i < v.count → IsWholePage v i) → IsImage server g (standing_state g v).files v }
{}
