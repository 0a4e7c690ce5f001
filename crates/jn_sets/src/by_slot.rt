//! The records by slot, and the slots by number.
ghost use Rattle.std.specs.Prelude.{◌≡◌, ◌<◌, ◌+◌, ℕ, true, false, not, List, length, position, slice_get, slice_set, map, count_by, option_map, is_ok, IfOk, IsOk, ◌^◌, ◌≢◌, Err};
ghost use Rattle.std.specs.List.{list_any};
ghost use Rattle.jn_records.specs.declared.record.Record.TheVariants.{Free};
ghost use Rattle.jn_records.specs.Records.{has_page, record_page};
ghost use Rattle.jn_store.specs.Store.{IsCalm, IsServed, IsStop, StorePut, StoreRead};
ghost use Rattle.jn_base.specs.declared.fault.CallFault.TheVariants.{Stopped as LoadStopped};
ghost use Rattle.jn_sets.specs.Pool as pool;

use crate::fault::LoadFault;
use crate::find::{
    Wanted, intends_for, is_free, is_wanted, marked, number_of, number_wanted, prepares, recount,
};
use crate::numbers::record_fits;
use indexmap::IndexMap;
use jn_base::{Stopped, WorkId};
use jn_index::Index;
use jn_records::{Record, Root};
use jn_store::StableStore;
use std::alloc::{AllocError, Global};
use std::marker::Model;
use std::mem;

/// A record for each slot. The index has every slot, also the free ones.
#[derive(Drop)]
pub(crate) struct Slots {
    index: IndexMap<u16, Record>,
    /// Of each slot that has a record the number by which that is found.
    numbers: Index,
    /// How many slots hold no record.
    free: u32,
    /// How many hold a ready or going record.
    prepared: u32,
}

impl Model for Slots {
    ghost use Rattle.std.specs.Prelude.{List};
    ghost use Rattle.indexmap.specs.IndexMap.{values};
    ghost use Rattle.jn_records.specs.declared.record.Record.{Record};
    ghost use Rattle.jn_sets.specs.Sets.{AreInOrder};

    ghost Value = { List Record };

    ghost view = { λ s. values s.index };

    ghost invariant = { λ s. AreInOrder s.index.entries s.numbers s.free s.prepared };
}

impl Slots {
    pub(crate) fn load<S: StableStore>(
        alloc: Global,
        store: &mut S,
        root: &Root,
    ) -> Result<Self, LoadFault>
        requires counts { (S.view store.old).count ≡ 1 + root.now.pool + root.now.heads + root.now.leaves }
        requires readable { (slot : ℕ) → slot < root.now.pool → pool.IsReadable (S.view store.old) slot }
        ensures slots { IfOk result (λ slots. length slots ≡ root.now.pool) }
        ensures holds { IfOk result (λ slots. pool.HoldsRecords slots (S.view store.new)) }
        ensures read { StoreRead (S.view store.old) root.now.pool (S.view store.new) }
        ensures served { IsOk result → 0 < root.now.pool → IsServed (S.view store.old) (S.view store.new) }
        ensures stops { IsOk result → (S.view store.new).stops ≡ (S.view store.old).stops }
        ensures stop { result ≡ Err LoadStopped → IsStop (S.view store.old) (S.view store.new) }
        ensures calm { IsCalm (S.view store.old) → result ≢ Err LoadStopped }
    {
        let mut index = IndexMap::with_capacity(alloc, root.pool as usize)?;
        let mut numbers = Vec::with_capacity(alloc, root.pool as usize)?;
        let mut free = 0;
        let mut prepared = 0;
        for slot in 0..root.pool {
            let value = read_slot(alloc, store, slot)?;
            numbers.push(number_of(&value))?;
            free = recount(free, false, is_free(&value));
            prepared = recount(prepared, false, prepares(&value));
            index.insert(slot, value)?;
        }
        let by_number = Index::of(alloc, &numbers)?;
        Ok(Slots {
            index,
            numbers: by_number,
            free,
            prepared,
        })
    }

    /// How many slots there are.
    pub(crate) fn slots(&self) -> u16
        ensures { result ≡ length self.now }
    {
        self.index.len() as u16
    }

    /// How many slots hold no record.
    pub(crate) fn free(&self) -> u32
        ensures { result ≡ pool.free_count self.now }
    {
        self.free
    }

    /// The slot's record, `Free` where it holds none; `None` where there is no such slot.
    pub(crate) fn record(&self, slot: u16) -> Option<&Record>
        ensures { option_map (λ r. r.now) result ≡ slice_get self.now slot }
    {
        let (_, value) = self.index.get_index(slot as usize)?;
        Some(value)
    }

    /// The slots that hold a record, with it, ascending.
    pub(crate) fn members(&self, alloc: Global) -> Result<Vec<(u16, &Record)>, AllocError>
        ensures { IfOk result (λ list. map (λ m. (m.0, m.1.now)) list.items ≡ pool.members_of self.now) }
    {
        let mut list = Vec::new(alloc);
        for (slot, value) in self.index.iter() {
            if !is_free(value) {
                list.push((*slot, value))?;
            }
        }
        Ok(list)
    }

    /// The lowest slot with what is wanted, among those with its number.
    pub(crate) fn lowest(&self, wanted: Wanted) -> Option<u16>
        ensures { result ≡ position (pool.is_wanted wanted) self.now }
    {
        let number = number_wanted(wanted);
        let mut from = 0;
        while let Some(slot) = self.numbers.slot_from(number, from) {
            if is_wanted(wanted, &self.index[slot as usize]) {
                return Some(slot);
            }
            from = slot + 1;
        }
        None
    }

    pub(crate) fn is_rubbish(&self, value: &Record) -> bool
        ensures { result ≡ pool.is_rubbish self.now value.now }
    {
        match value {
            Record::Intention { work, .. } => !self.has_prepared(*work),
            _ => false,
        }
    }

    /// Whether the work has a ready or going record. Nothing is searched where no work has one.
    fn has_prepared(&self, work: WorkId) -> bool
        ensures { result ≡ list_any (pool.is_prepared work) self.now }
    {
        if self.prepared == 0 {
            return false;
        }
        self.lowest(Wanted::Prepared(work)).is_some()
    }

    /// How many intentions are rubbish.
    pub(crate) fn rubbish_count(&self) -> u32
        ensures count { result ≡ pool.rubbish_count self.now }
        ensures few { length self.now < 2 ^ 16 }
    {
        let mut count = 0;
        for (_, value) in self.index.iter() {
            if self.is_rubbish(value) {
                count += 1;
            }
        }
        count
    }

    /// How many intentions a record keeps from being rubbish, where it comes to these.
    pub(crate) fn kept_by(&self, value: &Record) -> u32
        ensures { result ≡ pool.kept_by self.now value.now }
    {
        match value {
            Record::Ready { head, .. } => self.left_of(head.work),
            Record::Going { head, .. } => self.left_of(head.work),
            _ => 0,
        }
    }

    /// How many intentions a work without a ready or going record has; none of one with such a record.
    fn left_of(&self, work: WorkId) -> u32
        ensures { result ≡ pool.left_of self.now work }
    {
        if self.has_prepared(work) {
            return 0;
        }
        self.intentions_of(work)
    }

    /// How many intentions a work has. No slot behind the last record is looked at.
    fn intentions_of(&self, work: WorkId) -> u32
        ensures { result ≡ count_by (pool.intends_for work) self.now }
    {
        let mut count = 0;
        let mut left = u32::from(self.slots()) - self.free;
        for (_, value) in self.index.iter() {
            if left == 0 {
                return count;
            }
            if intends_for(work, value) {
                count += 1;
            }
            if !is_free(value) {
                left -= 1;
            }
        }
        count
    }

    /// Takes a record out of its slot, which is free then.
    pub(crate) fn take(&mut self, slot: u16) -> Record
        requires slot { slot < length self.old }
        requires held { pool.is_free (pool.record_in self.old slot) ≡ false }
        ensures taken { result ≡ pool.record_in self.old slot }
        ensures left { self.new ≡ slice_set self.old slot Free }
    {
        self.numbers.set(slot, None);
        let old = mem::replace(&mut self.index[slot as usize], Record::Free);
        self.free += 1;
        self.prepared = recount(self.prepared, prepares(&old), false);
        old
    }

    /// Puts a record into a free slot.
    pub(crate) fn fill(&mut self, slot: u16, value: Record)
        requires slot { slot < length self.old }
        requires free { pool.record_in self.old slot ≡ Free }
        requires used { pool.is_free value ≡ false }
        requires page { has_page value ≡ true }
        ensures { self.new ≡ slice_set self.old slot value }
    {
        self.numbers.set(slot, number_of(&value));
        self.free -= 1;
        self.prepared = recount(self.prepared, false, prepares(&value));
        self.index[slot as usize] = value;
    }

    /// Makes the slot's ready or going record a going or a ready one, in its place. Its number stays.
    pub(crate) fn mark(&mut self, slot: u16, going: bool)
        requires slot { slot < length self.old }
        requires prepared { pool.prepares (pool.record_in self.old slot) ≡ true }
        ensures left { self.new ≡ slice_set self.old slot (pool.marked going (pool.record_in self.old slot)) }
        ensures page { has_page (pool.marked going (pool.record_in self.old slot)) ≡ true }
    {
        let old = mem::replace(&mut self.index[slot as usize], Record::Free);
        self.index[slot as usize] = marked(old, going);
    }
}

/// The slot's page, behind the root.
fn page_of(slot: u16) -> u32
    ensures { result ≡ pool.slot_page slot }
{
    u32::from(slot) + 1
}

/// The record of a slot whose page is clean and of the format.
fn read_slot<S: StableStore>(alloc: Global, store: &mut S, slot: u16) -> Result<Record, LoadFault>
    requires there { slot + 1 < (S.view store.old).count }
    requires readable { pool.IsReadable (S.view store.old) slot }
    ensures stored { IfOk result (λ value. pool.IsStored (S.view store.old) slot value) }
    ensures read { StoreRead (S.view store.old) 1 (S.view store.new) }
    ensures served { IsOk result → IsServed (S.view store.old) (S.view store.new) }
    ensures stop { result ≡ Err LoadStopped → IsStop (S.view store.old) (S.view store.new) }
    ensures calm { IsCalm (S.view store.old) → result ≢ Err LoadStopped }
{
    let page = store.get(page_of(slot))?;
    let Some(value) = Record::decode(alloc, &page)? else {
        unreachable!()
    };
    record_fits(&value);
    Ok(value)
}

/// Puts a record on the slot's page.
pub(crate) fn write_slot<S: StableStore>(
    store: &mut S,
    slot: u16,
    value: &Record,
) -> Result<(), Stopped>
    requires there { slot + 1 < (S.view store.old).count }
    requires page { has_page value.now ≡ true }
    ensures is_record { pool.IsRecord value.now }
    ensures put { StorePut (S.view store.old) (pool.slot_page slot) (record_page value.now) (is_ok result) (S.view store.new) }
{
    record_fits(value);
    store.put(page_of(slot), &value.encode())
}
