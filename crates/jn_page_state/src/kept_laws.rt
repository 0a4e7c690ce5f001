//! What a recovery asks is kept by each put, and no put names for a block a data page that may have two candidates.
ghost use Rattle.std.specs.Prelude.{◌≡◌, ◌⊎◌, ℕ, suc, true, false, Bool, List, slice_set};
ghost use Rattle.jn_base.specs.declared.names.LockUnit.{LockUnit};
ghost use Rattle.jn_base.specs.declared.names.ServerNo.{ServerNo};
ghost use Rattle.jn_base.specs.declared.names.Tid.{Tid};
ghost use Rattle.jn_base.specs.declared.names.WorkId.{WorkId};
ghost use Rattle.jn_records.specs.declared.flag.Flag.{Flag};
ghost use Rattle.jn_records.specs.declared.intention.Intention.{Intention};
ghost use Rattle.jn_records.specs.declared.intention.StoredIntention.{StoredIntention};
ghost use Rattle.jn_records.specs.declared.record.Record.{Record};
ghost use Rattle.jn_records.specs.declared.record.Record.TheVariants.{Free, Ready, Going, Flag as FlagRecord};
ghost use Rattle.jn_records.specs.declared.work.WorkHead.{WorkHead};
ghost use Rattle.jn_records.specs.Heads.{has_page, head_in};
ghost use Rattle.jn_records.specs.Layouts.{Layout};
ghost use Rattle.jn_records.specs.StablePages.{Counts};
ghost use Rattle.jn_storage.specs.Orderly.{IsLoadable};
ghost use Rattle.jn_page_state.specs.Contents.{Contents, layouts_in, state_in};
ghost use Rattle.jn_page_state.specs.Changes.{with_record, with_block, with_epoch, IsIdlePut, IsReadyPut, IsReadySlot, IsPreparedSlot, IsFlagPut, IsFlagSlot, IsHeadPut, IsPartPut, LaysOut};
ghost use Rattle.jn_page_state.specs.Recoverable.{IsConsistent, Intends, HasAt, IsWholeWork, names_page, is_named, names_block, is_read};

/// The put of a record keeps what a recovery asks. A ready record asks that all intentions of its work stand, that the data
/// pages they name are its own, and that each put has its map page.
pub fn a_record_keeps_what_a_recovery_asks()
    ensures idle { (g : Counts) (c : Contents) (slot : ℕ) (new : Record) → IsIdlePut c.pool slot new → IsConsistent g c → IsConsistent g (with_record c slot new) }
    ensures ready { (g : Counts) (c : Contents) (slot : ℕ) (head : WorkHead) (n : ℕ) (list : List Intention) (reads : List LockUnit) → IsReadyPut c.pool c.blocks slot head n list → IsWholeWork g.leaves c head.work n
        → IsConsistent g c → IsConsistent g (with_record c slot (Ready head n reads)) }
    ensures going { (g : Counts) (c : Contents) (slot : ℕ) (head : WorkHead) (n : ℕ) (reads : List LockUnit) → IsReadySlot c.pool slot head n reads → IsConsistent g c → IsConsistent g (with_record c slot (Going head n reads)) }
    ensures removed { (g : Counts) (c : Contents) (slot : ℕ) (work : WorkId) → IsPreparedSlot c.pool slot work → IsConsistent g c → IsConsistent g (with_record c slot Free) }
    ensures flagged { (g : Counts) (c : Contents) (slot : ℕ) (flag : Flag) → IsFlagPut c.pool slot flag → IsConsistent g c → IsConsistent g (with_record c slot (FlagRecord flag)) }
    ensures dropped { (g : Counts) (c : Contents) (slot : ℕ) (t : Tid) → IsFlagSlot c.pool slot t → IsConsistent g c → IsConsistent g (with_record c slot Free) }
{}

/// So does a put that carries out an intention of a prepared work, whole or in part, where heads are such as have a page and
/// the state may be loaded. So do the put of a data page that isn't read, and that of a root.
pub fn other_pages_keep_what_a_recovery_asks()
    ensures head { (server : ServerNo) (g : Counts) (c later : Contents) (slot : ℕ) (i : StoredIntention) (place : ℕ) (new : Layout) → IsHeadPut (layouts_in c) i place new → LaysOut c place new later → Intends c.pool slot i
        → ((k : ℕ) → has_page (head_in c.heads k) ≡ true) → IsLoadable server g.heads (state_in c) → IsConsistent g c → IsConsistent g later }
    ensures part { (g : Counts) (c later : Contents) (i : StoredIntention) (j place : ℕ) (new : Layout) → IsPartPut (layouts_in c) i j place new → LaysOut c place new later
        → ((k : ℕ) → has_page (head_in c.heads k) ≡ true) → IsConsistent g c → IsConsistent g later }
    ensures block { (g : Counts) (c : Contents) (d : ℕ) (bytes : List ℕ) → is_read c d ≡ false → IsConsistent g c → IsConsistent g (with_block c d bytes) }
    ensures root { (g : Counts) (c : Contents) (epoch : ℕ) → IsConsistent g c → IsConsistent g (with_epoch c epoch) }
{}

/// A data page that is named after a put was named before, at whichever cells of heads and by whichever intentions. Only a
/// ready record makes new names: those of its work's intentions.
pub fn a_put_gives_no_new_names()
    ensures idle { (n : ℕ) (test : ℕ → StoredIntention → Bool) (c : Contents) (slot d : ℕ) (new : Record) → IsIdlePut c.pool slot new → names_page n test (layouts_in c) (slice_set c.pool slot new) d ≡ true → names_page n test (layouts_in c) c.pool d ≡ true }
    ensures ready { (n : ℕ) (test : ℕ → StoredIntention → Bool) (c : Contents) (slot d : ℕ) (head : WorkHead) (size : ℕ) (list : List Intention) (reads : List LockUnit) → IsReadyPut c.pool c.blocks slot head size list
        → names_page n test (layouts_in c) (slice_set c.pool slot (Ready head size reads)) d ≡ true → (names_page n test (layouts_in c) c.pool d ≡ true) ⊎ ((i : ℕ) × (s : StoredIntention) × HasAt c.pool head.work i s × (test (suc d) s ≡ true)) }
    ensures going { (n : ℕ) (test : ℕ → StoredIntention → Bool) (g : Counts) (c : Contents) (slot d : ℕ) (head : WorkHead) (size : ℕ) (reads : List LockUnit) → IsReadySlot c.pool slot head size reads → IsConsistent g c
        → names_page n test (layouts_in c) (slice_set c.pool slot (Going head size reads)) d ≡ true → names_page n test (layouts_in c) c.pool d ≡ true }
    ensures removed { (n : ℕ) (test : ℕ → StoredIntention → Bool) (c : Contents) (slot d : ℕ) (work : WorkId) → IsPreparedSlot c.pool slot work → names_page n test (layouts_in c) (slice_set c.pool slot Free) d ≡ true → names_page n test (layouts_in c) c.pool d ≡ true }
    ensures flagged { (n : ℕ) (test : ℕ → StoredIntention → Bool) (c : Contents) (slot d : ℕ) (flag : Flag) → IsFlagPut c.pool slot flag → names_page n test (layouts_in c) (slice_set c.pool slot (FlagRecord flag)) d ≡ true → names_page n test (layouts_in c) c.pool d ≡ true }
    ensures dropped { (n : ℕ) (test : ℕ → StoredIntention → Bool) (c : Contents) (slot d : ℕ) (t : Tid) → IsFlagSlot c.pool slot t → names_page n test (layouts_in c) (slice_set c.pool slot Free) d ≡ true → names_page n test (layouts_in c) c.pool d ≡ true }
    ensures head { (c later : Contents) (slot d : ℕ) (i : StoredIntention) (place : ℕ) (new : Layout) → IsHeadPut (layouts_in c) i place new → LaysOut c place new later → Intends c.pool slot i → is_named later d ≡ true → is_named c d ≡ true }
    ensures head_block { (c later : Contents) (slot d : ℕ) (i : StoredIntention) (place : ℕ) (new : Layout) → IsHeadPut (layouts_in c) i place new → LaysOut c place new later → Intends c.pool slot i → names_block later d ≡ true → names_block c d ≡ true }
    ensures part { (c later : Contents) (d : ℕ) (i : StoredIntention) (j place : ℕ) (new : Layout) → IsPartPut (layouts_in c) i j place new → LaysOut c place new later → is_named later d ≡ true → is_named c d ≡ true }
    ensures part_block { (c later : Contents) (d : ℕ) (i : StoredIntention) (j place : ℕ) (new : Layout) → IsPartPut (layouts_in c) i j place new → LaysOut c place new later → names_block later d ≡ true → names_block c d ≡ true }
{}
