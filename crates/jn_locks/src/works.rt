//! How each work stands and the units that it holds, found by the work.

ghost use Rattle.std.specs.Prelude.{◌≡◌, ◌+◌, ◌≤◌, ◌<◌, ◌++◌, ◌∷◌, [], true, false, None, Some, IfOk, OnOk, OnErr, IfNone, IfSome, length, if◌then◌else◌};
ghost use Rattle.jn_base.specs.declared.names.WorkId.{WorkId};
ghost use Rattle.jn_base.specs.Names.{work_eq};
ghost use Rattle.jn_locks.specs.Locks as locks;
ghost use Rattle.jn_locks.specs.Locks.{or_active, made_vulnerable};
ghost use Rattle.jn_locks.specs.Tables as tables;

use crate::words::Standing;
use jn_base::{LockUnit, WorkId};
use std::alloc::{AllocError, Global};
use std::collections::HashMap;

/// A work's server, epoch and ticket.
type Name = (u8, u32, u32);

/// What a lock table knows of a work. It holds no unit but these.
#[derive(Drop)]
pub(crate) struct Work {
    standing: Standing,
    units: Vec<LockUnit>,
}

#[derive(Drop)]
pub(crate) struct Works {
    map: HashMap<Name, Work>,
}

fn name_of(work: WorkId) -> Name
    ensures { result ≡ tables.name_of work }
{
    (work.server.0, work.epoch, work.ticket)
}

fn once_vulnerable(standing: Standing) -> Standing
    ensures { result ≡ locks.once_vulnerable standing }
{
    match standing {
        Standing::Prepared => Standing::Prepared,
        _ => Standing::Vulnerable,
    }
}

impl Works {
    pub(crate) fn new(alloc: Global) -> Works
        ensures standing { (V : WorkId) → tables.standing_of result V ≡ None }
        ensures units { (V : WorkId) → tables.units_of result V ≡ [] }
    {
        Works {
            map: HashMap::new(alloc),
        }
    }

    pub(crate) fn standing(&self, work: WorkId) -> Option<Standing>
        ensures { result ≡ tables.standing_of self.now work }
    {
        match self.map.get(&name_of(work)) {
            Some(known) => Some(known.standing),
            None => None,
        }
    }

    /// The units that the work holds, perhaps with others.
    pub(crate) fn units(&self, work: WorkId) -> &[LockUnit]
        ensures { result.now ≡ tables.units_of self.now work }
    {
        match self.map.get(&name_of(work)) {
            Some(known) => known.units.as_slice(),
            None => &[],
        }
    }

    /// Knows the work, with room for so many more units, or changes nothing.
    pub(crate) fn enter(
        &mut self,
        alloc: Global,
        work: WorkId,
        room: usize,
    ) -> Result<(), AllocError>
        ensures standing { OnOk result ((V : WorkId) → tables.standing_of self.new V ≡ (if work_eq work V then Some (or_active (tables.standing_of self.old work)) else tables.standing_of self.old V)) }
        ensures unchanged { OnErr result ((V : WorkId) → tables.standing_of self.new V ≡ tables.standing_of self.old V) }
        ensures units { (V : WorkId) → tables.units_of self.new V ≡ tables.units_of self.old V }
        ensures room { OnOk result (room ≤ tables.room_of self.new work) }
    {
        let name = name_of(work);
        if let Some(known) = self.map.get_mut(&name) {
            known.units.reserve(room)?;
            return Ok(());
        }
        let units = Vec::with_capacity(alloc, room)?;
        self.map.insert(
            name,
            Work {
                standing: Standing::Active,
                units,
            },
        )?;
        Ok(())
    }

    /// The work holds one unit more, for which there is room.
    pub(crate) fn push_unit(&mut self, work: WorkId, unit: LockUnit)
        requires { 0 < tables.room_of self.old work }
        ensures units { (V : WorkId) → tables.units_of self.new V ≡ (if work_eq work V then tables.units_of self.old work ++ unit ∷ [] else tables.units_of self.old V) }
        ensures standing { (V : WorkId) → tables.standing_of self.new V ≡ tables.standing_of self.old V }
        ensures room { tables.room_of self.old work ≤ tables.room_of self.new work + 1 }
    {
        if let Some(known) = self.map.get_mut(&name_of(work)) {
            known.units.push_reserved(unit);
        }
    }

    /// A work that is known is prepared.
    pub(crate) fn prepare(&mut self, work: WorkId)
        ensures standing { (V : WorkId) → tables.standing_of self.new V ≡ (if work_eq work V then tables.prepared (tables.standing_of self.old work) else tables.standing_of self.old V) }
        ensures units { (V : WorkId) → tables.units_of self.new V ≡ tables.units_of self.old V }
    {
        if let Some(known) = self.map.get_mut(&name_of(work)) {
            known.standing = Standing::Prepared;
        }
    }

    /// A work that is known and isn't prepared is vulnerable.
    pub(crate) fn make_vulnerable(&mut self, work: WorkId)
        ensures standing { (V : WorkId) → tables.standing_of self.new V ≡ (if work_eq work V then made_vulnerable (tables.standing_of self.old work) else tables.standing_of self.old V) }
        ensures units { (V : WorkId) → tables.units_of self.new V ≡ tables.units_of self.old V }
    {
        if let Some(known) = self.map.get_mut(&name_of(work)) {
            known.standing = once_vulnerable(known.standing);
        }
    }

    /// Forgets the work, and gives its units if it was known.
    pub(crate) fn remove(&mut self, work: WorkId) -> Option<Vec<LockUnit>>
        ensures standing { (V : WorkId) → tables.standing_of self.new V ≡ (if work_eq work V then None else tables.standing_of self.old V) }
        ensures units { (V : WorkId) → tables.units_of self.new V ≡ (if work_eq work V then [] else tables.units_of self.old V) }
        ensures given { IfSome result (λ v. v.items ≡ tables.units_of self.old work) }
        ensures unknown { IfNone result (tables.units_of self.old work ≡ []) }
    {
        let Work { standing: _, units } = self.map.remove(&name_of(work))?;
        Some(units)
    }
}
