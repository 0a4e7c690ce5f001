//! What is held, and how it changes.

ghost use Rattle.std.specs.Prelude.{◌≡◌, ◌||◌, ◌&&◌, ◌+◌, ◌≤◌, ◌<◌, [], true, false, None, Some, IfOk, IfErr, OnOk, OnErr, length, if◌then◌else◌};
ghost use Rattle.jn_base.specs.declared.names.WorkId.{WorkId};
ghost use Rattle.jn_base.specs.declared.names.LockUnit.{LockUnit};
ghost use Rattle.jn_base.specs.Names.{unit_eq, work_eq};
ghost use Rattle.jn_locks.specs.declared.words.Mode.{Mode};
ghost use Rattle.jn_locks.specs.Locks as locks;
ghost use Rattle.jn_locks.specs.Asked as asked;
ghost use Rattle.jn_locks.specs.Holders.{is_among, without};
ghost use Rattle.jn_locks.specs.Loops as loops;
ghost use Rattle.jn_locks.specs.Tables as tables;
ghost use Rattle.jn_locks.specs.Tables.{IsSoundTable, table_of};

use crate::holders::modes_of;
use crate::modes::committed;
use crate::units::Units;
use crate::wants::unit_wants;
use crate::words::{Broken, LockFault, Want};
use crate::works::Works;
use jn_base::{LockUnit, WorkId};
use std::alloc::{AllocError, Global};

/// The holders of each unit and the units of each work.
#[derive(Drop)]
pub(crate) struct Held {
    pub(crate) units: Units,
    pub(crate) works: Works,
}

impl Held {
    pub(crate) fn new(alloc: Global) -> Held
        ensures holds { (V : WorkId) (u : LockUnit) (m : Mode) → (table_of result).holds V u m ≡ false }
        ensures standing { (V : WorkId) → (table_of result).standing V ≡ None }
        ensures sound_after { IsSoundTable result }
    {
        Held {
            units: Units::new(alloc),
            works: Works::new(alloc),
        }
    }

    /// Makes room for the work at each unit that it wants.
    fn make_room(&mut self, alloc: Global, wants: &[Want]) -> Result<(), AllocError>
        ensures at { (u : LockUnit) → tables.at self.new.units u ≡ tables.at self.old.units u }
        ensures works { self.new.works ≡ self.old.works }
        ensures room { OnOk result ((u : LockUnit) → asked.is_wanted_unit wants.now u ≡ true → tables.has_room_at self.new.units u ≡ true) }
    {
        for want in wants {
            self.units.make_room(alloc, want.unit)?;
        }
        Ok(())
    }

    /// One lock more for the work, for which there is room.
    fn add(&mut self, work: WorkId, want: Want)
        requires has_place { (is_among (tables.at self.old.units want.unit) work || tables.has_room_at self.old.units want.unit) ≡ true }
        requires has_room { 0 < tables.room_of self.old.works work }
        requires sound { IsSoundTable self.old }
        ensures holds { (V : WorkId) (u : LockUnit) (m : Mode) → (table_of self.new).holds V u m ≡ ((table_of self.old).holds V u m || (work_eq work V && (unit_eq want.unit u && locks.mode_eq want.mode m))) }
        ensures standing { (V : WorkId) → (table_of self.new).standing V ≡ (table_of self.old).standing V }
        ensures sound_after { IsSoundTable self.new }
        ensures here { is_among (tables.at self.new.units want.unit) work ≡ true }
        ensures still { (u : LockUnit) → (is_among (tables.at self.old.units u) work || tables.has_room_at self.old.units u) ≡ true → (is_among (tables.at self.new.units u) work || tables.has_room_at self.new.units u) ≡ true }
        ensures room { tables.room_of self.old.works work ≤ tables.room_of self.new.works work + 1 }
    {
        let (is_new, _modes) = self.units.add(want.unit, work, want.mode);
        if is_new {
            self.works.push_unit(work, want.unit);
        }
    }

    /// All locks that the work wants, for which there is room.
    fn add_all(&mut self, work: WorkId, wants: &[Want])
        requires has_place { (u : LockUnit) → asked.is_wanted_unit wants.now u ≡ true → (is_among (tables.at self.old.units u) work || tables.has_room_at self.old.units u) ≡ true }
        requires has_room { length wants.now ≤ tables.room_of self.old.works work }
        requires sound { IsSoundTable self.old }
        ensures holds { (V : WorkId) (u : LockUnit) (m : Mode) → (table_of self.new).holds V u m ≡ ((table_of self.old).holds V u m || (work_eq work V && locks.wanted wants.now u m)) }
        ensures standing { (V : WorkId) → (table_of self.new).standing V ≡ (table_of self.old).standing V }
        ensures sound_after { IsSoundTable self.new }
    {
        for want in wants {
            self.add(work, *want);
        }
    }

    /// Commit locks in place of those for intention-write, at units that the work holds.
    fn turn(&mut self, work: WorkId, wants: &[Want])
        requires has_place { (u : LockUnit) → asked.is_wanted_unit wants.now u ≡ true → is_among (tables.at self.old.units u) work ≡ true }
        requires sound { IsSoundTable self.old }
        ensures holds { (V : WorkId) (u : LockUnit) (m : Mode) → (table_of self.new).holds V u m ≡
            (if work_eq work V && asked.is_wanted_unit wants.now u then asked.committed ((table_of self.old).holds work) u m else (table_of self.old).holds V u m) }
        ensures works { self.new.works ≡ self.old.works }
        ensures sound_after { IsSoundTable self.new }
    {
        for want in wants {
            let modes = committed(modes_of(self.units.at(want.unit), work));
            self.units.put(want.unit, work, modes);
        }
    }

    /// Forgets a work.
    pub(crate) fn release(&mut self, work: WorkId)
        requires { IsSoundTable self.old }
        ensures released { asked.Releases (table_of self.old) work (table_of self.new) }
        ensures sound_after { IsSoundTable self.new }
    {
        if let Some(units) = self.works.remove(work) {
            drop_units(&mut self.units, work, &units);
        }
    }

    /// Forgets the broken works.
    fn break_all(&mut self, broken: &[Broken])
        requires { IsSoundTable self.old }
        ensures holds { (V : WorkId) (u : LockUnit) (m : Mode) → (table_of self.new).holds V u m ≡ (if asked.is_broken broken.now V then false else (table_of self.old).holds V u m) }
        ensures standing { (V : WorkId) → (table_of self.new).standing V ≡ (if asked.is_broken broken.now V then None else (table_of self.old).standing V) }
        ensures sound_after { IsSoundTable self.new }
    {
        for b in broken {
            self.release(b.work);
        }
    }

    /// Grants all wants or none, and gives the works that it broke.
    pub(crate) fn ask(
        &mut self,
        alloc: Global,
        work: WorkId,
        wants: &[Want],
    ) -> Result<Vec<Broken>, LockFault>
        requires { IsSoundTable self.old }
        ensures granted { IfOk result (λ v. asked.Asks (table_of self.old) work (locks.wanted wants.now) v.items (table_of self.new)) }
        ensures refused { IfErr result (asked.IsRefusal (table_of self.old) work (locks.wanted wants.now)) }
        ensures unchanged { OnErr result (table_of self.new ≡ table_of self.old) }
        ensures sound_after { IsSoundTable self.new }
    {
        let broken = self.clear(alloc, work, wants)?;
        self.make_room(alloc, wants)?;
        self.works.enter(alloc, work, wants.len())?;
        self.add_all(work, wants);
        self.break_all(&broken);
        Ok(broken)
    }

    /// Turns the work's locks for intention-write into commit locks, or changes nothing.
    pub(crate) fn commit(&mut self, alloc: Global, work: WorkId) -> Result<Vec<Broken>, LockFault>
        requires { IsSoundTable self.old }
        ensures granted { IfOk result (λ v. asked.Commits (table_of self.old) work (locks.commit_wants (table_of self.old) work) v.items (table_of self.new)) }
        ensures refused { IfErr result (asked.IsRefusal (table_of self.old) work (locks.commit_wants (table_of self.old) work)) }
        ensures unchanged { OnErr result (table_of self.new ≡ table_of self.old) }
        ensures sound_after { IsSoundTable self.new }
    {
        let wants = self.commit_wants(alloc, work)?;
        let broken = self.clear(alloc, work, &wants)?;
        self.works.enter(alloc, work, 0)?;
        self.turn(work, &wants);
        self.works.prepare(work);
        self.break_all(&broken);
        Ok(broken)
    }

    /// Holds for a prepared work what it writes and reads, or changes nothing.
    pub(crate) fn rebuild(
        &mut self,
        alloc: Global,
        work: WorkId,
        commits: &[LockUnit],
        reads: &[LockUnit],
    ) -> Result<(), AllocError>
        requires { IsSoundTable self.old }
        ensures rebuilt { OnOk result (asked.Rebuilds (table_of self.old) work (locks.rebuilt commits.now reads.now) (table_of self.new)) }
        ensures unchanged { OnErr result (table_of self.new ≡ table_of self.old) }
        ensures sound_after { IsSoundTable self.new }
    {
        let wants = unit_wants(alloc, commits, reads)?;
        self.make_room(alloc, &wants)?;
        self.works.enter(alloc, work, wants.len())?;
        self.add_all(work, &wants);
        self.works.prepare(work);
        Ok(())
    }
}

/// The work holds these units no more.
fn drop_units(units: &mut Units, work: WorkId, list: &[LockUnit])
    ensures { (u : LockUnit) → tables.at units.new u ≡ (if locks.is_unit list.now u then without work (tables.at units.old u) else tables.at units.old u) }
{
    for unit in list {
        units.drop_work(*unit, work);
    }
}
