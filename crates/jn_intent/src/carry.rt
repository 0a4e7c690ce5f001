//! Carrying out the intentions of a work that goes.
ghost use Rattle.std.specs.Prelude.{◌≡◌, ◌≤◌, ◌<◌, ◌^◌, is_ok, true, false, slice_get, slice_set, slice_index_or, length};
ghost use Rattle.jn_alloc.specs.Free.{free_count};
ghost use Rattle.jn_order.specs.Files.{created};
ghost use Rattle.jn_records.specs.declared.work.WorkState.{WorkState};
ghost use Rattle.jn_storage.specs.Storage.{IsServing};
ghost use Rattle.jn_storage.specs.Calls.{IsGoing, StepApplied};
ghost use Rattle.jn_files.specs.Table.{exists, fresh_head};
ghost use Rattle.jn_files.specs.Calls.{HasPagesOfTable, SetsHead};
ghost use Rattle.jn_intent.specs.Carrying.{MayCarry, Carries, with_fresh_promise, counted_on};

use crate::Intents;
use crate::works::index_of;
use jn_base::{FileNo, Stopped, WorkId};
use jn_files::FileTable;
use jn_records::{StoredIntention, What, WorkState};
use jn_storage::Storage;
use jn_store::StableStore;

impl<S: StableStore> Intents<S> {
    /// Carries out the next intention of a going work; false where none is left.
    pub(crate) fn carry_next(&mut self, work: WorkId) -> Result<bool, Stopped>
        requires serving { IsServing (⟦<Intents<S> as Storage>⟧.view self.old) }
        requires going { IsGoing (⟦<Intents<S> as Storage>⟧.view self.old) work }
        ensures applied { StepApplied (⟦<Intents<S> as Storage>⟧.view self.old) work result (⟦<Intents<S> as Storage>⟧.view self.new) }
    {
        let Some(i) = index_of(&self.works, work) else {
            unreachable!()
        };
        let Some(intention) = next_intention(&self.works[i]) else {
            return Ok(false);
        };
        carry_out(&mut self.table, &mut self.store, &intention)?;
        count_on(&mut self.works, i);
        Ok(true)
    }
}

/// The intention of a work that is to be carried out next.
fn next_intention(work: &WorkState) -> Option<StoredIntention>
    ensures { result ≡ slice_get work.now.list work.now.next }
{
    let list = work.list.as_slice();
    let next = work.next as usize;
    if next < list.len() {
        Some(list[next])
    } else {
        None
    }
}

/// One intention of a work is carried out.
fn count_on(works: &mut Vec<WorkState>, i: usize)
    requires below { i < length works.old.items }
    requires few { (s : WorkState) → slice_index_or works.old.items i s ≡ s → s.next < 255 }
    ensures { (s : WorkState) → slice_index_or works.old.items i s ≡ s → works.new.items ≡ slice_set works.old.items i (counted_on s) }
{
    works[i].next += 1;
}

/// Carries out an intention: its file's head is put, or a map page, or both, the map page first. Where a file is gone already
/// nothing is done.
fn carry_out<S: StableStore>(
    table: &mut FileTable,
    store: &mut S,
    intention: &StoredIntention,
) -> Result<(), Stopped>
    requires { MayCarry table.old (S.view store.old) intention.now }
    ensures { Carries table.old (S.view store.old) intention.now (is_ok result) table.new (S.view store.new) }
{
    let file = intention.file;
    match intention.what {
        What::Fresh => make_fresh(table, store, file),
        What::Gone => table.set_gone(store, file),
        What::Cut => table.set_cut(store, file, intention.block),
        What::Put => table.set_address(
            store,
            file,
            intention.block,
            intention.address - 1,
            intention.map,
        ),
    }
}

/// Makes a file empty. One that isn't there takes the head that was promised it.
fn make_fresh<S: StableStore>(
    table: &mut FileTable,
    store: &mut S,
    file: FileNo,
) -> Result<(), Stopped>
    requires fits { HasPagesOfTable table.old (S.view store.old) }
    requires promised { exists table.old.heads file ≡ false → 0 < table.old.free_heads.promised }
    requires free { table.old.free_heads.promised ≤ free_count table.old.free_heads }
    ensures { SetsHead (with_fresh_promise table.old file) (S.view store.old) file (fresh_head file) (created file) (is_ok result) table.new (S.view store.new) }
{
    free_promise(table, file);
    table.set_fresh(store, file)
}

/// Gives back the promise of a fresh file's head, where the file isn't there.
fn free_promise(table: &mut FileTable, file: FileNo)
    requires { exists table.old.heads file ≡ false → 0 < table.old.free_heads.promised }
    ensures { table.new ≡ with_fresh_promise table.old file }
{
    if !table.exists(file) {
        table.release_heads(1);
    }
}
