//! What each put of a storage's calls makes of a store that stands, in which root, records, heads and map pages are known.
ghost use Rattle.std.specs.Prelude.{◌≡◌, ◌<◌, ◌≤◌, ℕ, suc, false, Bool, List, [], ◌∷◌};
ghost use Rattle.jn_base.specs.declared.names.LockUnit.{LockUnit};
ghost use Rattle.jn_base.specs.declared.names.ServerNo.{ServerNo};
ghost use Rattle.jn_base.specs.declared.names.Tid.{Tid};
ghost use Rattle.jn_base.specs.declared.names.WorkId.{WorkId};
ghost use Rattle.jn_records.specs.declared.flag.Flag.{Flag};
ghost use Rattle.jn_records.specs.declared.head.Head.{Head};
ghost use Rattle.jn_records.specs.declared.intention.Intention.{Intention};
ghost use Rattle.jn_records.specs.declared.intention.StoredIntention.{StoredIntention};
ghost use Rattle.jn_records.specs.declared.record.Record.{Record};
ghost use Rattle.jn_records.specs.declared.record.Record.TheVariants.{Free, Ready, Going, Flag as FlagRecord};
ghost use Rattle.jn_records.specs.declared.work.WorkHead.{WorkHead};
ghost use Rattle.jn_records.specs.Layouts.{Layout, layouts_by, kept_entry};
ghost use Rattle.jn_records.specs.StablePages.{Counts, data_place};
ghost use Rattle.jn_rows.specs.Stable.{StableState, Pick, Change, Changed, IsStopState, made_by, AddReady, MarkGoing, CarryOut, RemoveWork, AddFlag, DropFlag};
ghost use Rattle.jn_store.specs.Store.{StoreView, IsClean};
ghost use Rattle.jn_page_state.specs.Contents.{intended};
ghost use Rattle.jn_page_state.specs.Changes.{IsIdlePut, IsReadyPut, IsReadySlot, IsPreparedSlot, IsFlagPut, IsFlagSlot, IsHeadPut, IsPartPut};
ghost use Rattle.jn_page_state.specs.Held.{held_contents, MayStand, Lays};
ghost use Rattle.jn_page_state.specs.Pages.{block_on, pages_by};
ghost use Rattle.jn_page_state.specs.Puts.{PagePut, RootPut, RecordPut, BlockPut, MapPut};
ghost use Rattle.jn_page_state.specs.Recoverable.{Intends, HasAt, IsWholeWork, reads_page};
ghost use Rattle.jn_page_state.specs.Standing.{IsStanding, IsPutStep, MayChange, Makes, MakesNothing, MakesFirst, MakesEpoch};

/// While a work is prepared its data pages are filled and its intentions put, which changes nothing; and so does the
/// erasure of its intentions once it is over. Its ready record prepares it.
pub fn preparing_is_one_change()
    ensures filled { (server : ServerNo) (g : Counts) (v w : StoreView) (epoch : ℕ) (records : List Record) (heads : List Head) (rows : List (List ℕ)) (d : ℕ) (block : List ℕ) (ok : Bool) → IsStanding server g v epoch records heads rows
        → IsPutStep server g v (BlockPut d block) ok w → reads_page (layouts_by (kept_entry rows) heads) records d ≡ false → MakesNothing server g v epoch records heads rows (BlockPut d block) ok w }
    ensures idle { (server : ServerNo) (g : Counts) (v w : StoreView) (epoch : ℕ) (records : List Record) (heads : List Head) (rows : List (List ℕ)) (slot : ℕ) (new : Record) (ok : Bool) → IsStanding server g v epoch records heads rows
        → IsPutStep server g v (RecordPut slot new) ok w → IsIdlePut records slot new → MakesNothing server g v epoch records heads rows (RecordPut slot new) ok w }
    ensures ready { (server : ServerNo) (g : Counts) (v w : StoreView) (epoch : ℕ) (records : List Record) (heads : List Head) (rows : List (List ℕ)) (slot : ℕ) (head : WorkHead) (n : ℕ) (list : List Intention) (reads : List LockUnit) (ok : Bool)
        → IsStanding server g v epoch records heads rows → IsPutStep server g v (RecordPut slot (Ready head n reads)) ok w
        → ((c : Pick) → IsReadyPut records (block_on g (pages_by v c)) slot head n list) → ((c : Pick) → IsWholeWork g.leaves (held_contents g v epoch records heads c) head.work n)
        → ((i d : ℕ) (s : StoredIntention) → HasAt records head.work i s → s.address ≡ suc d → d < g.leaves → IsClean v (data_place g d))
        → MayChange server g v (AddReady head list reads) → Makes server g v epoch records heads rows (RecordPut slot (Ready head n reads)) (AddReady head list reads) ok w }
{}

/// A work goes on, has an intention carried out, and is removed, each by one put. An intention is carried out by the put of a
/// head, whose map pages are stored, or of a map page that a head names.
pub fn a_work_goes_on_by_single_changes()
    ensures going { (server : ServerNo) (g : Counts) (v w : StoreView) (epoch : ℕ) (records : List Record) (heads : List Head) (rows : List (List ℕ)) (slot : ℕ) (head : WorkHead) (n : ℕ) (reads : List LockUnit) (ok : Bool)
        → IsStanding server g v epoch records heads rows → IsPutStep server g v (RecordPut slot (Going head n reads)) ok w → IsReadySlot records slot head n reads
        → MayChange server g v (MarkGoing head.work) → Makes server g v epoch records heads rows (RecordPut slot (Going head n reads)) (MarkGoing head.work) ok w }
    ensures carried { (server : ServerNo) (g : Counts) (v w : StoreView) (epoch : ℕ) (records : List Record) (heads : List Head) (rows : List (List ℕ)) (slot place : ℕ) (put : PagePut) (new : Layout) (work : WorkId) (i : StoredIntention) (full : Intention) (ok : Bool)
        → IsStanding server g v epoch records heads rows → IsPutStep server g v put ok w → MayStand g v heads rows put → Lays heads rows put place new
        → IsHeadPut (layouts_by (kept_entry rows) heads) i place new → Intends records slot i
        → ((c : Pick) → intended (block_on g (pages_by v c)) i ≡ full) → MayChange server g v (CarryOut work full) → Makes server g v epoch records heads rows put (CarryOut work full) ok w }
    ensures removed { (server : ServerNo) (g : Counts) (v w : StoreView) (epoch : ℕ) (records : List Record) (heads : List Head) (rows : List (List ℕ)) (slot : ℕ) (work : WorkId) (ok : Bool)
        → IsStanding server g v epoch records heads rows → IsPutStep server g v (RecordPut slot Free) ok w → IsPreparedSlot records slot work
        → MayChange server g v (RemoveWork work) → Makes server g v epoch records heads rows (RecordPut slot Free) (RemoveWork work) ok w }
{}

/// An intention may take two puts: the fresh map page of a put stands before its head, and a cut that falls inside of a map page
/// is put there first. The second is then the one change, from what was there before the first.
pub fn an_intention_may_take_two_puts()
    ensures fresh { (server : ServerNo) (g : Counts) (v w : StoreView) (epoch : ℕ) (records : List Record) (heads : List Head) (rows : List (List ℕ)) (d : ℕ) (row : List ℕ) (step : Change) (ok : Bool)
        → IsStanding server g v epoch records heads rows → IsPutStep server g v (MapPut d row) ok w → reads_page (layouts_by (kept_entry rows) heads) records d ≡ false
        → MakesFirst server g v epoch records heads rows (MapPut d row) step ok w }
    ensures part { (server : ServerNo) (g : Counts) (v w : StoreView) (epoch : ℕ) (records : List Record) (heads : List Head) (rows : List (List ℕ)) (place j : ℕ) (put : PagePut) (new : Layout) (work : WorkId) (i : StoredIntention) (full : Intention) (ok : Bool)
        → IsStanding server g v epoch records heads rows → IsPutStep server g v put ok w → MayStand g v heads rows put → Lays heads rows put place new
        → IsPartPut (layouts_by (kept_entry rows) heads) i j place new
        → ((c : Pick) → intended (block_on g (pages_by v c)) i ≡ full) → MakesFirst server g v epoch records heads rows put (CarryOut work full) ok w }
    ensures again { (x y : StableState) (work : WorkId) (full : Intention) → IsStopState x (CarryOut work full ∷ []) y → made_by (CarryOut work full) y ≡ made_by (CarryOut work full) x }
    ensures goes_on { (x y : StableState) (work : WorkId) (full : Intention) (ok : Bool) (found : Pick → StableState) → IsStopState x (CarryOut work full ∷ []) y → Changed y (CarryOut work full) ok found → Changed x (CarryOut work full) ok found }
{}

/// A flag is put and dropped, each by one put.
pub fn a_flag_is_one_change()
    ensures put { (server : ServerNo) (g : Counts) (v w : StoreView) (epoch : ℕ) (records : List Record) (heads : List Head) (rows : List (List ℕ)) (slot : ℕ) (flag : Flag) (ok : Bool)
        → IsStanding server g v epoch records heads rows → IsPutStep server g v (RecordPut slot (FlagRecord flag)) ok w → IsFlagPut records slot flag
        → MayChange server g v (AddFlag flag) → Makes server g v epoch records heads rows (RecordPut slot (FlagRecord flag)) (AddFlag flag) ok w }
    ensures dropped { (server : ServerNo) (g : Counts) (v w : StoreView) (epoch : ℕ) (records : List Record) (heads : List Head) (rows : List (List ℕ)) (slot : ℕ) (t : Tid) (ok : Bool)
        → IsStanding server g v epoch records heads rows → IsPutStep server g v (RecordPut slot Free) ok w → IsFlagSlot records slot t
        → MayChange server g v (DropFlag t) → Makes server g v epoch records heads rows (RecordPut slot Free) (DropFlag t) ok w }
{}

/// A restart counts itself in the root by one put.
pub fn a_restart_counts_itself_by_one_put()
    ensures { (server : ServerNo) (g : Counts) (v w : StoreView) (epoch later : ℕ) (records : List Record) (heads : List Head) (rows : List (List ℕ)) (ok : Bool)
        → IsStanding server g v epoch records heads rows → IsPutStep server g v (RootPut later) ok w → epoch ≤ later → MakesEpoch server g v records heads rows later ok w }
{}
