//! The prepared works of a storage.
ghost use Rattle.std.specs.Prelude.{◌≡◌, ◌<◌, ◌≤◌, ◌-◌, ◌^◌, is_ok, is_some, not, filter, length, slice_index_or, slice_set, IfSome, IfNone, map, true, false};
ghost use Rattle.jn_base.specs.Names as names;
ghost use Rattle.jn_records.specs.declared.work.WorkState.{WorkState};
ghost use Rattle.jn_storage.specs.Listing.{is_in};
ghost use Rattle.jn_storage.specs.Storage.{IsServing};
ghost use Rattle.jn_storage.specs.Calls.{state, WorkRemoved, name_of};
ghost use Rattle.jn_files.specs.Table.{IsTable};
ghost use Rattle.jn_files.specs.Calls.{with_promised_heads};
ghost use Rattle.jn_recovery.specs.Pages.{page_let_go, both_let_go, pages_let_go, IsHeldAt, MayLetGo, heads_needed};
ghost use Rattle.jn_intent.specs.Works.{MarksWork, going_on};

use crate::Intents;
use jn_base::{LockUnit, Stopped, WorkId};
use jn_files::FileTable;
use jn_records::{Intention, StoredIntention, WorkHead, WorkState};
use jn_recovery::heads_needed;
use jn_storage::{PrepareFault, Storage, WorkStore};
use jn_store::StableStore;
use std::alloc::Global;

impl<S: StableStore> WorkStore for Intents<S> {
    fn prepare(
        &mut self,
        alloc: Global,
        head: &WorkHead,
        list: &[Intention],
        reads: &[LockUnit],
    ) -> Result<(), PrepareFault> {
        self.prepare_work(alloc, head, list, reads)
    }

    fn mark_going(&mut self, work: WorkId) -> Result<(), Stopped> {
        let Some(slot) = self.sets.prepared_slot(work) else {
            unreachable!()
        };
        self.sets.set_going(&mut self.store, slot)?;
        mark(&mut self.works, work);
        Ok(())
    }

    fn apply_step(&mut self, work: WorkId) -> Result<bool, Stopped> {
        self.carry_next(work)
    }

    fn forget(&mut self, work: WorkId) -> Result<(), Stopped> {
        self.remove(work)
    }

    fn drop_ready(&mut self, work: WorkId) -> Result<(), Stopped> {
        self.remove(work)
    }

    fn erase_step(&mut self) -> Result<bool, Stopped> {
        self.sets.erase_one(&mut self.store)
    }

    fn works(&self) -> &[WorkState] {
        &self.works
    }
}

impl<S: StableStore> Intents<S> {
    /// Removes a prepared work: the records of its intentions are rubbish, and what it held or was promised is free.
    fn remove(&mut self, work: WorkId) -> Result<(), Stopped>
        requires serving { IsServing (⟦<Intents<S> as Storage>⟧.view self.old) }
        requires prepared { is_some ((state (⟦<Intents<S> as Storage>⟧.view self.old)).works work) ≡ true }
        ensures removed { WorkRemoved (⟦<Intents<S> as Storage>⟧.view self.old) work (is_ok result) (⟦<Intents<S> as Storage>⟧.view self.new) }
    {
        let Some(slot) = self.sets.prepared_slot(work) else {
            unreachable!()
        };
        let Some(i) = index_of(&self.works, work) else {
            unreachable!()
        };
        self.sets.remove(&mut self.store, slot)?;
        give_back(&mut self.table, self.works[i].list.as_slice());
        take_work(&mut self.works, work);
        Ok(())
    }
}

/// Gives back what a prepared work holds: the heads that it was promised, and its data pages.
fn give_back(table: &mut FileTable, list: &[StoredIntention])
    requires heads { heads_needed table.old.heads list.now ≤ table.old.free_heads.promised }
    requires few { length list.now < 2 ^ 32 }
    requires pages { MayLetGo list.now (with_promised_heads table.old (table.old.free_heads.promised - heads_needed table.old.heads list.now)) }
    ensures given { table.new ≡ pages_let_go list.now (with_promised_heads table.old (table.old.free_heads.promised - heads_needed table.old.heads list.now)) }
    ensures table { IsTable table.new }
{
    let needed = heads_needed(table, list);
    table.release_heads(needed);
    let_go(table, list);
    table.is_table();
}

fn let_go(table: &mut FileTable, list: &[StoredIntention])
    requires { MayLetGo list.now table.old }
    ensures { table.new ≡ pages_let_go list.now table.old }
{
    for intention in list {
        let_both_go(table, intention);
    }
}

/// Lets the data page and the map page of an intention go.
fn let_both_go(table: &mut FileTable, intention: &StoredIntention)
    requires address { IsHeldAt table.old intention.now.address }
    requires map { IsHeldAt (page_let_go table.old intention.now.address) intention.now.map }
    ensures { table.new ≡ both_let_go table.old intention.now }
{
    let_page_go(table, intention.address);
    let_page_go(table, intention.map);
}

fn let_page_go(table: &mut FileTable, address: u16)
    requires { IsHeldAt table.old address }
    ensures { table.new ≡ page_let_go table.old address }
{
    if address > 0 {
        table.let_go(address - 1);
    }
}

/// Takes away a work.
fn take_work(works: &mut Vec<WorkState>, work: WorkId)
    ensures { works.new.items ≡ filter (λ (s : WorkState). not (names.work_eq work (name_of s))) works.old.items }
{
    works.retain(|state| work != state.head.work);
}

/// Makes a work going.
fn mark(works: &mut Vec<WorkState>, work: WorkId)
    ensures { MarksWork works.old.items work works.new.items }
{
    let Some(i) = index_of(works, work) else {
        return;
    };
    set_going(works, i);
}

fn set_going(works: &mut Vec<WorkState>, i: usize)
    requires { i < length works.old.items }
    ensures { (s : WorkState) → slice_index_or works.old.items i s ≡ s → works.new.items ≡ slice_set works.old.items i (going_on s) }
{
    works[i].going = true;
}

/// The index of a work.
pub(crate) fn index_of(works: &[WorkState], work: WorkId) -> Option<usize>
    ensures found { IfSome result (λ i. (i < length works.now) × ((d : WorkState) → names.work_eq (slice_index_or works.now i d).head.work work ≡ true)) }
    ensures none { IfNone result (is_in names.work_eq work (map name_of works.now) ≡ false) }
{
    for (i, state) in works.iter().enumerate() {
        if state.head.work == work {
            return Some(i);
        }
    }
    None
}
