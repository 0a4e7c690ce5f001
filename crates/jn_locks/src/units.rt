//! The holders of each unit, found by the unit.

ghost use Rattle.std.specs.Prelude.{◌≡◌, ◌||◌, [], true, false, not, IfOk, OnOk, if◌then◌else◌};
ghost use Rattle.jn_base.specs.declared.names.LockUnit.{LockUnit};
ghost use Rattle.jn_locks.specs.declared.words.Mode.{Mode as AnyMode};
ghost use Rattle.jn_locks.specs.Locks.{mode_eq};
ghost use Rattle.jn_base.specs.Names.{unit_eq};
ghost use Rattle.jn_locks.specs.Holders.{has, holds_in, is_among, without, with_holder};
ghost use Rattle.jn_locks.specs.Tables as tables;

use crate::holders::{drop_work, is_among, modes_of, put_modes};
use crate::modes::with_mode;
use crate::words::{Holder, Mode, Modes};
use jn_base::{LockUnit, WorkId};
use std::alloc::{AllocError, Global};
use std::collections::HashMap;

/// A file, and which of its blocks, if not the file itself.
type Place = (u32, Option<u16>);

/// Units that no work holds may have a list of no holders.
#[derive(Drop)]
pub(crate) struct Units {
    map: HashMap<Place, Vec<Holder>>,
}

fn place_of(unit: LockUnit) -> Place
    ensures { result ≡ tables.unit_place unit }
{
    match unit {
        LockUnit::File(f) => (f.0, None),
        LockUnit::Block(f, p) => (f.0, Some(p.0)),
    }
}

impl Units {
    pub(crate) fn new(alloc: Global) -> Units
        ensures { (u : LockUnit) → tables.at result u ≡ [] }
    {
        Units {
            map: HashMap::new(alloc),
        }
    }

    /// The holders of a unit.
    pub(crate) fn at(&self, unit: LockUnit) -> &[Holder]
        ensures { result.now ≡ tables.at self.now unit }
    {
        match self.map.get(&place_of(unit)) {
            Some(all) => all.as_slice(),
            None => &[],
        }
    }

    /// Makes room for one more holder of the unit.
    pub(crate) fn make_room(&mut self, alloc: Global, unit: LockUnit) -> Result<(), AllocError>
        ensures same { (u : LockUnit) → tables.at self.new u ≡ tables.at self.old u }
        ensures kept { (u : LockUnit) → tables.has_room_at self.old u ≡ true → tables.has_room_at self.new u ≡ true }
        ensures room { OnOk result (tables.has_room_at self.new unit ≡ true) }
    {
        let place = place_of(unit);
        if let Some(all) = self.map.get_mut(&place) {
            all.reserve(1)?;
            return Ok(());
        }
        let all = Vec::with_capacity(alloc, 1)?;
        self.map.insert(place, all)?;
        Ok(())
    }

    /// The work holds the unit in these modes alone. It held it, or there is room for one more.
    pub(crate) fn put(&mut self, unit: LockUnit, work: WorkId, modes: Modes)
        requires { (is_among (tables.at self.old unit) work || tables.has_room_at self.old unit) ≡ true }
        ensures at { (u : LockUnit) → tables.at self.new u ≡ (if unit_eq unit u then with_holder work modes (tables.at self.old unit) else tables.at self.old u) }
        ensures room { (u : LockUnit) → unit_eq unit u ≡ false → tables.has_room_at self.new u ≡ tables.has_room_at self.old u }
    {
        if let Some(all) = self.map.get_mut(&place_of(unit)) {
            put_modes(all, work, modes);
        }
    }

    /// The work holds the unit in one mode more: whether it held the unit in none, and its modes now. It held it, or
    /// there is room for one more.
    pub(crate) fn add(&mut self, unit: LockUnit, work: WorkId, mode: Mode) -> (bool, Modes)
        requires { (is_among (tables.at self.old unit) work || tables.has_room_at self.old unit) ≡ true }
        ensures is_new { result.0 ≡ not (is_among (tables.at self.old unit) work) }
        ensures modes { (m : AnyMode) → has result.1 m ≡ (holds_in (tables.at self.old unit) work m || mode_eq mode m) }
        ensures at { (u : LockUnit) → tables.at self.new u ≡ (if unit_eq unit u then with_holder work result.1 (tables.at self.old unit) else tables.at self.old u) }
        ensures room { (u : LockUnit) → unit_eq unit u ≡ false → tables.has_room_at self.new u ≡ tables.has_room_at self.old u }
    {
        let Some(all) = self.map.get_mut(&place_of(unit)) else {
            unreachable!()
        };
        let is_new = !is_among(all, work);
        let modes = with_mode(modes_of(all, work), mode);
        put_modes(all, work, modes);
        (is_new, modes)
    }

    /// The work holds the unit no more.
    pub(crate) fn drop_work(&mut self, unit: LockUnit, work: WorkId)
        ensures { (u : LockUnit) → tables.at self.new u ≡ (if unit_eq unit u then without work (tables.at self.old unit) else tables.at self.old u) }
    {
        let place = place_of(unit);
        match self.map.get_mut(&place) {
            Some(all) => {
                drop_work(all, work);
                if !all.is_empty() {
                    return;
                }
            }
            None => return,
        }
        self.map.remove(&place);
    }
}
