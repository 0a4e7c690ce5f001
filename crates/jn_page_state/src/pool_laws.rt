//! What one put of a record's page changes.
ghost use Rattle.std.specs.Prelude.{◌≡◌, ◌<◌, ◌++◌, ◌∷◌, ℕ, List, [], length, slice_set};
ghost use Rattle.jn_base.specs.declared.names.LockUnit.{LockUnit};
ghost use Rattle.jn_base.specs.declared.names.Tid.{Tid};
ghost use Rattle.jn_base.specs.declared.names.WorkId.{WorkId};
ghost use Rattle.jn_records.specs.declared.flag.Flag.{Flag};
ghost use Rattle.jn_records.specs.declared.intention.Intention.{Intention};
ghost use Rattle.jn_records.specs.declared.intention.StoredIntention.{StoredIntention};
ghost use Rattle.jn_records.specs.declared.record.Record.{Record};
ghost use Rattle.jn_records.specs.declared.record.Record.TheVariants.{Free, Intention as IntentionRecord, Ready, Going, Flag as FlagRecord};
ghost use Rattle.jn_records.specs.declared.work.WorkHead.{WorkHead};
ghost use Rattle.jn_rows.specs.Stable.{made_by, AddReady, MarkGoing, RemoveWork, AddFlag, DropFlag};
ghost use Rattle.jn_sets.specs.Pool.{record_in};
ghost use Rattle.jn_page_state.specs.Recoverable.{HasFirst, HasNone};
ghost use Rattle.jn_page_state.specs.Contents.{Contents, state_in};
ghost use Rattle.jn_page_state.specs.Changes.{with_record, IsIdlePut, IsReadyPut, IsReadySlot, IsPreparedSlot, IsFlagPut, IsFlagSlot};

/// The intentions of a work change nothing while its ready record isn't there: neither where one is put nor where
/// one is erased.
pub fn an_intention_without_its_work_changes_nothing()
    ensures { (c : Contents) (slot : ℕ) (new : Record) → IsIdlePut c.pool slot new → state_in (with_record c slot new) ≡ state_in c }
{}

/// The ready record prepares its work, with all its intentions at once.
pub fn a_ready_record_prepares_its_work()
    ensures { (c : Contents) (slot : ℕ) (head : WorkHead) (n : ℕ) (list : List Intention) (reads : List LockUnit) → IsReadyPut c.pool c.blocks slot head n list
        → state_in (with_record c slot (Ready head n reads)) ≡ made_by (AddReady head list reads) (state_in c) }
{}

/// A going record in place of the ready one marks the work as going.
pub fn a_going_record_marks_its_work()
    ensures { (c : Contents) (slot : ℕ) (head : WorkHead) (n : ℕ) (reads : List LockUnit) → IsReadySlot c.pool slot head n reads
        → state_in (with_record c slot (Going head n reads)) ≡ made_by (MarkGoing head.work) (state_in c) }
{}

/// Without its ready or going record a work is no longer there.
pub fn a_freed_record_removes_its_work()
    ensures { (c : Contents) (slot : ℕ) (work : WorkId) → IsPreparedSlot c.pool slot work → state_in (with_record c slot Free) ≡ made_by (RemoveWork work) (state_in c) }
{}

/// A flag stands from its record's put on, until the record is freed.
pub fn a_flag_is_its_record()
    ensures put { (c : Contents) (slot : ℕ) (flag : Flag) → IsFlagPut c.pool slot flag → state_in (with_record c slot (FlagRecord flag)) ≡ made_by (AddFlag flag) (state_in c) }
    ensures freed { (c : Contents) (slot : ℕ) (t : Tid) → IsFlagSlot c.pool slot t → state_in (with_record c slot Free) ≡ made_by (DropFlag t) (state_in c) }
{}

/// The intentions of a work that is being prepared are put in order, each at a free slot.
pub fn an_intention_comes_behind_the_others()
    ensures first { (pool : List Record) (work : WorkId) → HasNone pool work → HasFirst pool work [] }
    ensures next { (pool : List Record) (slot : ℕ) (work : WorkId) (tid : Tid) (stored : List StoredIntention) (i : StoredIntention) → slot < length pool → record_in pool slot ≡ Free → HasFirst pool work stored
        → HasFirst (slice_set pool slot (IntentionRecord work tid (length stored) i)) work (stored ++ i ∷ []) }
{}
