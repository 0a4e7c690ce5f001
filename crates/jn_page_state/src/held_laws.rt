//! What is found while a server is up, and the steps of a store that change none of it.
ghost use Rattle.std.specs.Prelude.{◌≡◌, ℕ, true, Bool, List, Result};
ghost use Rattle.jn_base.specs.declared.device.Stopped.{Stopped};
ghost use Rattle.jn_base.specs.declared.names.ServerNo.{ServerNo};
ghost use Rattle.jn_records.specs.declared.head.Head.{Head};
ghost use Rattle.jn_records.specs.declared.record.Record.{Record};
ghost use Rattle.jn_records.specs.Layouts.{layouts_by, kept_entry};
ghost use Rattle.jn_records.specs.StablePages.{Counts};
ghost use Rattle.jn_rows.specs.Stable.{Pick};
ghost use Rattle.jn_store.specs.Store.{StoreView, StoreGot, StoreCleaned};
ghost use Rattle.jn_store.specs.Choices.{IsChoice, Agree};
ghost use Rattle.jn_page_state.specs.Contents.{layouts_in};
ghost use Rattle.jn_page_state.specs.Pages.{pages_by};
ghost use Rattle.jn_page_state.specs.Held.{IsHeld, MayStand, held_contents, epoch_after, records_after, heads_after, rows_after};
ghost use Rattle.jn_page_state.specs.Puts.{PagePut, IsPagePut, PutStep, contents_by, IsFrontClean, IsFewer};
ghost use Rattle.jn_page_state.specs.Recoverable.{MapsAreClean};

/// Where root, records, heads and their map pages have one candidate each, every pick says them.
pub fn each_pick_says_what_is_held()
    ensures contents { (server : ServerNo) (g : Counts) (v : StoreView) (epoch : ℕ) (records : List Record) (heads : List Head) (rows : List (List ℕ)) → IsHeld server g v epoch records heads rows
        → (c : Pick) → contents_by g v c ≡ held_contents g v epoch records heads c }
    ensures front { (server : ServerNo) (g : Counts) (v : StoreView) (epoch : ℕ) (records : List Record) (heads : List Head) (rows : List (List ℕ)) → IsHeld server g v epoch records heads rows → IsFrontClean g v }
    ensures maps { (server : ServerNo) (g : Counts) (v : StoreView) (epoch : ℕ) (records : List Record) (heads : List Head) (rows : List (List ℕ)) → IsHeld server g v epoch records heads rows → MapsAreClean g v }
    ensures layouts { (server : ServerNo) (g : Counts) (v : StoreView) (epoch : ℕ) (records : List Record) (heads : List Head) (rows : List (List ℕ)) → IsHeld server g v epoch records heads rows
        → (c : Pick) → layouts_in (held_contents g v epoch records heads c) ≡ layouts_by (kept_entry rows) heads }
{}

/// The pages that a pick reads are a choice of the store's candidates, and each choice is that of a pick.
pub fn a_pick_is_a_choice()
    ensures chosen { (v : StoreView) (c : Pick) → IsChoice v (pages_by v c) }
    ensures picked { (v : StoreView) (d : ℕ → List ℕ) → IsChoice v d → (c : Pick) × Agree v.count d (pages_by v c) }
{}

/// A put that is done leaves each of them known.
pub fn a_put_is_held()
    ensures { (server : ServerNo) (g : Counts) (v w : StoreView) (put : PagePut) (epoch : ℕ) (records : List Record) (heads : List Head) (rows : List (List ℕ)) → IsPagePut server g put → PutStep server g v put true w
        → MayStand g v heads rows put → IsHeld server g v epoch records heads rows → IsHeld server g w (epoch_after put epoch) (records_after put records) (heads_after put heads) (rows_after put rows) }
{}

/// A get and a cleanup, done or stopped, bring no candidate, and so does any run of them.
pub fn gets_and_cleanups_bring_no_candidate()
    ensures got { (v : StoreView) (i : ℕ) (answer : Result (List ℕ) Stopped) (w : StoreView) → StoreGot v i answer w → IsFewer v w }
    ensures cleaned { (v : StoreView) (i : ℕ) (answer : Result Bool Stopped) (w : StoreView) → StoreCleaned v i answer w → IsFewer v w }
    ensures none { (v : StoreView) → IsFewer v v }
    ensures then_more { (u v w : StoreView) → IsFewer u v → IsFewer v w → IsFewer u w }
{}
