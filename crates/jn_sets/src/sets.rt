//! The set of records.
ghost use Rattle.std.specs.Prelude.{◌≡◌, ◌≢◌, ◌↔◌, ◌<◌, ◌+◌, ℕ, true, false, not, List, length, position, slice_get, slice_set, map, option_map, Option, Some, None, Ok, Err, is_ok, IfOk, IfSome, IfNone, IsOk, ◌^◌};
ghost use Rattle.std.specs.List.{list_any};
ghost use Rattle.jn_records.specs.declared.record.Record.TheVariants.{Free};
ghost use Rattle.jn_records.specs.Records.{has_page};
ghost use Rattle.jn_store.specs.Store.{IsCalm, IsServed, IsStop, StoreLater, StoreRead};
ghost use Rattle.jn_base.specs.declared.fault.CallFault.TheVariants.{Stopped as LoadStopped};
ghost use Rattle.jn_sets.specs.declared.fault.SetFault.TheVariants.{Full};
ghost use Rattle.jn_sets.specs.Pool as pool;
ghost use Rattle.jn_sets.specs.Sets.{Puts, AreCleanTo, AreUsedTo};

use crate::by_slot::{Slots, write_slot};
use crate::fault::{LoadFault, SetFault};
use crate::find::{
    Wanted, clean_with, clean_without, intends, is_free, recount, used_with, used_without,
};
use jn_base::{Stopped, Tid, WorkId};
use jn_records::{Record, Root};
use jn_store::StableStore;
use std::alloc::{AllocError, Global};
use std::marker::Model;

/// The records of a pool. Contracts see them as a list, by slot.
///
/// The store isn't kept: the calls that need it are passed it, and it is that from which the set was
/// loaded.
#[derive(Drop)]
pub struct Sets {
    slots: Slots,
    /// How many intentions are rubbish: their works have no ready or going record.
    rubbish: u32,
    /// No slot below it has such an intention.
    clean: u16,
    /// No slot below it is free.
    used: u16,
}

impl Model for Sets {
    ghost use Rattle.std.specs.Prelude.{List};
    ghost use Rattle.jn_records.specs.declared.record.Record.{Record};
    ghost use Rattle.jn_sets.specs.Sets.{IsWatched};

    ghost Value = { List Record };

    ghost view = { λ s. s.slots };

    ghost invariant = { λ s. IsWatched s.slots s.rubbish s.clean s.used };
}

impl Sets {
    /// The set that the store's pool holds. Each of its slots has to be clean and of the format.
    pub fn load<S: StableStore>(
        alloc: Global,
        store: &mut S,
        root: &Root,
    ) -> Result<Self, LoadFault>
        requires counts { (S.view store.old).count ≡ 1 + root.now.pool + root.now.heads + root.now.leaves }
        requires readable { (slot : ℕ) → slot < root.now.pool → pool.IsReadable (S.view store.old) slot }
        ensures slots { IfOk result (λ sets. length sets ≡ root.now.pool) }
        ensures holds { IfOk result (λ sets. pool.HoldsRecords sets (S.view store.new)) }
        ensures read { StoreRead (S.view store.old) root.now.pool (S.view store.new) }
        ensures served { IsOk result → 0 < root.now.pool → IsServed (S.view store.old) (S.view store.new) }
        ensures stops { IsOk result → (S.view store.new).stops ≡ (S.view store.old).stops }
        ensures stop { result ≡ Err LoadStopped → IsStop (S.view store.old) (S.view store.new) }
        ensures calm { IsCalm (S.view store.old) → result ≢ Err LoadStopped }
    {
        let slots = Slots::load(alloc, store, root)?;
        let rubbish = slots.rubbish_count();
        Ok(Sets {
            slots,
            rubbish,
            clean: 0,
            used: 0,
        })
    }

    /// How many slots there are.
    pub fn slots(&self) -> u16
        ensures { result ≡ length self.now }
    {
        self.slots.slots()
    }

    /// How many slots hold no record.
    pub fn free(&self) -> u32
        ensures { result ≡ pool.free_count self.now }
    {
        self.slots.free()
    }

    /// The slot's record, `Free` where it holds none; `None` where there is no such slot.
    pub fn record(&self, slot: u16) -> Option<&Record>
        ensures { option_map (λ r. r.now) result ≡ slice_get self.now slot }
    {
        self.slots.record(slot)
    }

    /// Whether there is such a slot, and it holds a record.
    pub fn holds(&self, slot: u16) -> bool
        ensures { result ≡ not (pool.is_free (pool.record_in self.now slot)) }
    {
        match self.record(slot) {
            Some(value) => !is_free(value),
            None => false,
        }
    }

    /// The slots that hold a record, with it, ascending.
    pub fn members(&self, alloc: Global) -> Result<Vec<(u16, &Record)>, AllocError>
        ensures { IfOk result (λ list. map (λ m. (m.0, m.1.now)) list.items ≡ pool.members_of self.now) }
    {
        self.slots.members(alloc)
    }

    /// The lowest slot with the ready or going record of the work.
    pub fn prepared_slot(&self, work: WorkId) -> Option<u16>
        ensures { result ≡ position (pool.is_prepared work) self.now }
    {
        self.slots.lowest(Wanted::Prepared(work))
    }

    /// The lowest slot with the work's intention of this place.
    pub fn intention_slot(&self, work: WorkId, order: u8) -> Option<u16>
        ensures { result ≡ position (pool.is_intention work order) self.now }
    {
        self.slots.lowest(Wanted::Intention(work, order))
    }

    /// The lowest slot with the transaction's commit flag.
    pub fn flag_slot(&self, tid: Tid) -> Option<u16>
        ensures { result ≡ position (pool.is_flag tid) self.now }
    {
        self.slots.lowest(Wanted::Flag(tid))
    }

    /// Inserts a record into the lowest free slot, and says which. `Full` comes exactly where none is free,
    /// and then nothing is done.
    pub fn insert<S: StableStore>(&mut self, store: &mut S, value: Record) -> Result<u16, SetFault>
        requires there { length self.old < (S.view store.old).count }
        requires used { pool.is_free value ≡ false }
        requires page { has_page value ≡ true }
        ensures full { (result ≡ Err Full) ↔ (pool.free_count self.old ≡ 0) }
        ensures unchanged { result ≡ Err Full → (self.new ≡ self.old) × (S.view store.new ≡ S.view store.old) }
        ensures lowest { IfOk result (λ slot. position pool.is_free self.old ≡ Some slot) }
        ensures puts { (slot : ℕ) → position pool.is_free self.old ≡ Some slot
            → Puts self.old (S.view store.old) slot value (is_ok result) self.new (S.view store.new) }
        ensures slots { length self.new ≡ length self.old }
        ensures later { StoreLater (S.view store.old) (S.view store.new) }
    {
        let Some(free) = self.next_free() else {
            return Err(SetFault::Full);
        };
        self.put(store, free, value)?;
        Ok(free)
    }

    /// Puts another record in place of the slot's.
    pub fn replace<S: StableStore>(
        &mut self,
        store: &mut S,
        slot: u16,
        value: Record,
    ) -> Result<(), Stopped>
        requires there { length self.old < (S.view store.old).count }
        requires held { pool.is_free (pool.record_in self.old slot) ≡ false }
        requires used { pool.is_free value ≡ false }
        requires page { has_page value ≡ true }
        ensures { Puts self.old (S.view store.old) slot value (is_ok result) self.new (S.view store.new) }
    {
        self.put(store, slot, value)
    }

    /// Removes the slot's record.
    pub fn remove<S: StableStore>(&mut self, store: &mut S, slot: u16) -> Result<(), Stopped>
        requires there { length self.old < (S.view store.old).count }
        requires held { pool.is_free (pool.record_in self.old slot) ≡ false }
        ensures { Puts self.old (S.view store.old) slot Free (is_ok result) self.new (S.view store.new) }
    {
        self.put(store, slot, Record::Free)
    }

    /// Makes the slot's ready record a going one.
    pub fn set_going<S: StableStore>(&mut self, store: &mut S, slot: u16) -> Result<(), Stopped>
        requires there { length self.old < (S.view store.old).count }
        requires ready { pool.is_ready (pool.record_in self.old slot) ≡ true }
        ensures { Puts self.old (S.view store.old) slot (pool.going_of (pool.record_in self.old slot)) (is_ok result) self.new (S.view store.new) }
    {
        self.slots.mark(slot, true);
        let Some(going) = self.slots.record(slot) else {
            unreachable!()
        };
        match write_slot(store, slot, going) {
            Ok(()) => Ok(()),
            Err(stopped) => {
                self.slots.mark(slot, false);
                Err(stopped)
            }
        }
    }

    /// Erases the intention of the lowest slot whose work has no ready or going record. False exactly
    /// where there is none, and then nothing is done.
    pub fn erase_one<S: StableStore>(&mut self, store: &mut S) -> Result<bool, Stopped>
        requires there { length self.old < (S.view store.old).count }
        ensures none { position (pool.is_rubbish self.old) self.old ≡ None
            → (result ≡ Ok false) × (self.new ≡ self.old) × (S.view store.new ≡ S.view store.old) }
        ensures erased { (slot : ℕ) → position (pool.is_rubbish self.old) self.old ≡ Some slot
            → IfOk result (λ erased. erased ≡ true) × Puts self.old (S.view store.old) slot Free (is_ok result) self.new (S.view store.new) }
        ensures slots { length self.new ≡ length self.old }
        ensures later { StoreLater (S.view store.old) (S.view store.new) }
    {
        let Some(rubbish) = self.next_rubbish() else {
            return Ok(false);
        };
        self.put(store, rubbish, Record::Free)?;
        Ok(true)
    }

    /// Whether some slot has an intention whose work has no ready or going record.
    pub fn has_rubbish(&self) -> bool
        ensures { result ≡ list_any (pool.is_rubbish self.now) self.now }
    {
        self.rubbish > 0
    }

    /// The lowest free slot. The slots below it aren't looked at again while they stay as they are.
    fn next_free(&mut self) -> Option<u16>
        ensures found { result ≡ position pool.is_free self.old }
        ensures within { IfSome result (λ slot. slot < length self.old) }
        ensures same { self.new ≡ self.old }
    {
        let slot = self.free_slot()?;
        self.used = slot;
        Some(slot)
    }

    fn free_slot(&self) -> Option<u16>
        ensures first { result ≡ position pool.is_free self.now }
        ensures within { IfSome result (λ slot. slot < length self.now) }
        ensures below { IfSome result (λ slot. AreUsedTo self.now slot) }
    {
        for slot in self.used..self.slots() {
            if !self.holds(slot) {
                return Some(slot);
            }
        }
        None
    }

    /// The lowest slot with an intention whose work has no ready or going record. The slots below it aren't looked
    /// at again while they stay as they are.
    fn next_rubbish(&mut self) -> Option<u16>
        ensures found { result ≡ position (pool.is_rubbish self.old) self.old }
        ensures within { IfSome result (λ slot. slot < length self.old) }
        ensures same { self.new ≡ self.old }
    {
        let slot = self.rubbish_slot()?;
        self.clean = slot;
        Some(slot)
    }

    fn rubbish_slot(&self) -> Option<u16>
        ensures first { result ≡ position (pool.is_rubbish self.now) self.now }
        ensures within { IfSome result (λ slot. slot < length self.now) }
        ensures below { IfSome result (λ slot. AreCleanTo self.now slot) }
    {
        if !self.has_rubbish() {
            return None;
        }
        for slot in self.clean..self.slots() {
            if self.is_rubbish_at(slot) {
                return Some(slot);
            }
        }
        None
    }

    fn is_rubbish_at(&self, slot: u16) -> bool
        ensures { result ≡ pool.is_rubbish self.now (pool.record_in self.now slot) }
    {
        match self.slots.record(slot) {
            Some(value) => self.slots.is_rubbish(value),
            None => false,
        }
    }

    /// Puts the slot's page, and then the index has its record.
    fn put<S: StableStore>(
        &mut self,
        store: &mut S,
        slot: u16,
        value: Record,
    ) -> Result<(), Stopped>
        requires there { length self.old < (S.view store.old).count }
        requires slot { slot < length self.old }
        requires page { has_page value ≡ true }
        ensures { Puts self.old (S.view store.old) slot value (is_ok result) self.new (S.view store.new) }
    {
        write_slot(store, slot, &value)?;
        self.clear(slot);
        self.fill(slot, value);
        Ok(())
    }

    /// Takes the slot's record out of memory, where it has one.
    fn clear(&mut self, slot: u16)
        requires { slot < length self.old }
        ensures { self.new ≡ slice_set self.old slot Free }
    {
        if !self.holds(slot) {
            return;
        }
        let old = self.slots.take(slot);
        let was = self.slots.is_rubbish(&old);
        self.rubbish = recount(self.rubbish + self.slots.kept_by(&old), was, false);
        self.clean = clean_without(self.clean, &old);
        self.used = used_without(self.used, slot);
    }

    /// Puts a record into a free slot in memory. A slot that stays free is left alone.
    fn fill(&mut self, slot: u16, value: Record)
        requires slot { slot < length self.old }
        requires free { pool.record_in self.old slot ≡ Free }
        requires page { has_page value ≡ true }
        ensures { self.new ≡ slice_set self.old slot value }
    {
        if is_free(&value) {
            return;
        }
        let is = self.slots.is_rubbish(&value);
        let kept = self.slots.kept_by(&value);
        let intended = intends(&value);
        self.slots.fill(slot, value);
        self.rubbish = recount(self.rubbish, false, is) - kept;
        self.clean = clean_with(self.clean, slot, intended);
        self.used = used_with(self.used, slot);
    }
}
