//! What is found after a put, whichever halves are read then: a stop leaves the state before or after.
ghost use Rattle.std.specs.Prelude.{◌≡◌, ◌⊎◌, ◌<◌, ◌^◌, ℕ, true, Bool, List, length};
ghost use Rattle.jn_base.specs.declared.names.ServerNo.{ServerNo};
ghost use Rattle.jn_records.specs.declared.head.Head.{Head};
ghost use Rattle.jn_records.specs.declared.record.Record.{Record};
ghost use Rattle.jn_records.specs.Heads.{head_page, IsHead, FileFits, head_in};
ghost use Rattle.jn_records.specs.StablePages.{Counts, Pages, head_place};
ghost use Rattle.jn_rows.specs.Stable.{StableState, Change, Pick, Changed, Unchanged, IsUp, made_by};
ghost use Rattle.jn_sets.specs.Pool.{Says};
ghost use Rattle.jn_store.specs.Store.{StoreView, HasSamePages};
ghost use Rattle.jn_store.specs.Choices.{with_page};
ghost use Rattle.jn_page_state.specs.Contents.{state_in};
ghost use Rattle.jn_page_state.specs.Pages.{pool_on, heads_on, contents_of, state_of, found_on, IsOfFormat};
ghost use Rattle.jn_page_state.specs.Recoverable.{NamedAreClean, MapsAreClean, IsRecoverable};
ghost use Rattle.jn_page_state.specs.Puts.{PagePut, put_place, put_page, put_in, contents_by, IsPagePut, MayPut, IsReadable, Makes, KeepsClean, KeepsFound, IsPut, IsFrontClean, IsFewer};

/// The state on pages of the format is that of what they say.
pub fn the_state_is_what_the_pages_say()
    ensures { (server : ServerNo) (g : Counts) (pages : Pages) → IsOfFormat server g pages → state_of g pages ≡ state_in (contents_of g pages) }
{}

/// A pool whose pages say these records has them, and heads whose pages are theirs stand as they are.
pub fn pages_say_their_records_and_heads()
    ensures pool { (g : Counts) (pages : Pages) (records : List Record) → length records ≡ g.pool → Says pages records → pool_on g pages ≡ records }
    ensures heads { (g : Counts) (pages : Pages) (heads : List Head) → g.leaves < 2 ^ 16 → length heads ≡ g.heads
        → ((i : ℕ) → i < g.heads → IsHead g.leaves (head_in heads i) × FileFits (head_in heads i) × (pages (head_place g i) ≡ head_page (head_in heads i))) → heads_on g pages ≡ heads }
{}

/// A page that was put is read again, and no other page is read otherwise.
pub fn a_put_page_is_read_again()
    ensures contents { (server : ServerNo) (g : Counts) (pages : Pages) (put : PagePut) → IsOfFormat server g pages → IsPagePut server g put
        → contents_of g (with_page pages (put_place g put) (put_page server g put)) ≡ put_in put (contents_of g pages) }
    ensures format { (server : ServerNo) (g : Counts) (pages : Pages) (put : PagePut) → IsOfFormat server g pages → IsPagePut server g put → MayPut g pages put
        → IsOfFormat server g (with_page pages (put_place g put) (put_page server g put)) }
{}

/// A put that makes one change of the state makes it whole, or where it is stopped not at all, by each pick.
pub fn a_put_is_one_change()
    ensures changed { (server : ServerNo) (g : Counts) (v w : StoreView) (put : PagePut) (ok : Bool) (x : StableState) (step : Change) → IsPut server g v put ok w
        → ((c : Pick) → found_on g v c ≡ x) → Makes g v put (made_by step x) → Changed x step ok (found_on g w) }
    ensures unchanged { (server : ServerNo) (g : Counts) (v w : StoreView) (put : PagePut) (ok : Bool) (x : StableState) → IsPut server g v put ok w
        → ((c : Pick) → found_on g v c ≡ x) → Makes g v put x → Unchanged x (found_on g w) }
    ensures old_or_new { (server : ServerNo) (g : Counts) (v w : StoreView) (put : PagePut) (ok : Bool) (x y : StableState) → IsPut server g v put ok w
        → ((c : Pick) → found_on g v c ≡ x) → Makes g v put y → (c : Pick) → (found_on g w c ≡ x) ⊎ (found_on g w c ≡ y) }
    ensures done { (server : ServerNo) (g : Counts) (v w : StoreView) (put : PagePut) (ok : Bool) (y : StableState) → IsPut server g v put ok w
        → Makes g v put y → ok ≡ true → (c : Pick) → found_on g w c ≡ y }
    ensures readable { (server : ServerNo) (g : Counts) (v w : StoreView) (put : PagePut) (ok : Bool) → IsPut server g v put ok w → IsReadable server g w }
    ensures picked { (server : ServerNo) (g : Counts) (v w : StoreView) (put : PagePut) (ok : Bool) → IsPut server g v put ok w → (c : Pick) → (b : Pick) × ((found_on g w c ≡ found_on g v b) ⊎ (found_on g w c ≡ state_in (put_in put (contents_by g v b)))) }
    ensures picked_done { (server : ServerNo) (g : Counts) (v w : StoreView) (put : PagePut) → IsPut server g v put true w → (c : Pick) → found_on g w c ≡ state_in (put_in put (contents_by g v c)) }
{}

/// Where root, records and heads have one candidate each, and so each map page and each data page that is named for a block,
/// all picks find one state: what the other data pages hold doesn't matter, so they need no cleanup.
pub fn clean_pages_find_one_state()
    ensures { (server : ServerNo) (g : Counts) (v : StoreView) → IsReadable server g v → IsFrontClean g v → MapsAreClean g v → NamedAreClean g v → IsUp (found_on g v) }
{}

/// Done or stopped, a put leaves a store from which a recovery may begin.
pub fn a_put_leaves_a_recovery()
    ensures clean { (server : ServerNo) (g : Counts) (v w : StoreView) (put : PagePut) (ok : Bool) → IsPut server g v put ok w
        → NamedAreClean g v → KeepsClean g v put → NamedAreClean g w }
    ensures recoverable { (server : ServerNo) (g : Counts) (v w : StoreView) (put : PagePut) (ok : Bool) → IsPut server g v put ok w
        → IsRecoverable server g v → KeepsFound server g v put → KeepsClean g v put → IsRecoverable server g w }
{}

/// A get, a cleanup or a decay changes nothing that is found, and leaves a store from which a recovery may begin.
pub fn fewer_candidates_change_nothing()
    ensures unchanged { (g : Counts) (v w : StoreView) (x : StableState) → IsFewer v w → ((c : Pick) → found_on g v c ≡ x) → Unchanged x (found_on g w) }
    ensures picked { (g : Counts) (v w : StoreView) → IsFewer v w → (c : Pick) → (b : Pick) × (found_on g w c ≡ found_on g v b) }
    ensures recoverable { (server : ServerNo) (g : Counts) (v w : StoreView) → IsFewer v w → IsRecoverable server g v → IsRecoverable server g w }
{}

/// What befalls a store's device between its calls changes nothing that is found, and leaves a store from which a recovery may begin.
pub fn same_pages_are_found_again()
    ensures found { (g : Counts) (v w : StoreView) → HasSamePages v w → found_on g w ≡ found_on g v }
    ensures recoverable { (server : ServerNo) (g : Counts) (v w : StoreView) → HasSamePages v w → IsRecoverable server g v → IsRecoverable server g w }
{}
