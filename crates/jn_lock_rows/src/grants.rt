//! What a work is granted, with the works that break.

ghost use Rattle.std.specs.Prelude.{◌≡◌, ◌++◌, ◌∷◌, [], true, IfOk, IfErr, OnOk, OnErr};
ghost use Rattle.jn_locks.specs.LockTables.{table};
ghost use Rattle.jn_base.specs.declared.names.Tid.{Tid};
ghost use Rattle.jn_rows.specs.declared.worker.ActiveWork.{ActiveWork};
ghost use Rattle.jn_rows.specs.declared.worker.Phase.TheVariants.{Active};
ghost use Rattle.jn_rows.specs.Worker as rows;
ghost use Rattle.jn_lock_rows.specs.Calls as calls;
ghost use Rattle.jn_lock_rows.specs.Matching.{LocksMatch, is_after};

use crate::breaks::break_works;
use crate::finding::{new_work, set_phase, store_work, work_at};
use crate::wants::operation_wants;
use jn_base::{LockUnit, Op, Tid, WorkId};
use jn_locks::{Granted, LockFault, LockTable};
use jn_rows::{ActiveWork, Phase, Work};
use std::alloc::{AllocError, Global};

/// Why nothing is granted.
#[derive(Clone, Copy, Debug, PartialEq, Eq, Drop)]
pub enum Refused {
    /// Another transaction holds the unit.
    Held(LockUnit, Tid),
    /// There is no memory.
    Memory,
}

impl From<AllocError> for Refused {
    ghost use Rattle.std.specs.Prelude.{◌≡◌};
    ghost use Rattle.jn_lock_rows.specs.declared.grants.Refused.TheVariants.{Memory};

    ghost from_gives = { λ _ e. e ≡ Memory };

    fn from(_e: AllocError) -> Refused {
        Refused::Memory
    }
}

/// The transaction of the work that stands in the way.
fn told_as(works: &[Work], fault: LockFault) -> Refused
    ensures { result ≡ calls.refused_by works.now fault }
{
    match fault {
        LockFault::Conflict(c) => match work_at(works, c.holder) {
            Some(work) => Refused::Held(c.unit, work.tid),
            // Never: each holder that a lock table names is among the works.
            None => Refused::Memory,
        },
        LockFault::Memory => Refused::Memory,
    }
}

/// Grants what an operation of the transaction's active work wants and breaks the works in the way, or changes nothing.
/// `next` is the work once that is granted.
pub fn grant_operation(
    alloc: Global,
    locks: &mut LockTable,
    works: &mut [Work],
    tid: Tid,
    name: WorkId,
    op: &Op,
    is_fit: bool,
    next: ActiveWork,
) -> Result<Granted, Refused>
    requires matches { LocksMatch works.old (table locks.old) }
    requires becomes { calls.Becomes works.old tid name op.now is_fit next }
    ensures granted { IfOk result (λ bs. calls.Grants works.old tid name (rows.wants_of op.now is_fit) (Active next) bs works.new) }
    ensures refused { IfErr result (calls.IsRefused works.old name (rows.wants_of op.now is_fit)) }
    ensures same { OnErr result (works.new ≡ works.old) }
    ensures matches { LocksMatch works.new (table locks.new) }
{
    let wants = operation_wants(op, is_fit);
    match locks.ask(alloc, name, wants.as_slice()) {
        Ok(granted) => {
            break_works(works, granted.broken(), tid);
            set_phase(works, name, Phase::Active(next));
            Ok(granted)
        }
        Err(fault) => Err(told_as(works, fault)),
    }
}

/// Turns the locks of the transaction's active work into those of a stored one and breaks the works in the way, or
/// changes nothing.
pub fn grant_storing(
    alloc: Global,
    locks: &mut LockTable,
    works: &mut [Work],
    tid: Tid,
    name: WorkId,
) -> Result<Granted, Refused>
    requires matches { LocksMatch works.old (table locks.old) }
    requires active { (a : ActiveWork) × calls.IsActive works.old tid name a }
    ensures granted { IfOk result (λ bs. (a : ActiveWork) → calls.IsActive works.old tid name a → calls.Grants works.old tid name (rows.commit_wants a.writes) (calls.stored (Active a)) bs works.new) }
    ensures refused { IfErr result (λ fault. (a : ActiveWork) → calls.IsActive works.old tid name a → calls.IsRefused works.old name (rows.commit_wants a.writes) fault) }
    ensures same { OnErr result (works.new ≡ works.old) }
    ensures matches { LocksMatch works.new (table locks.new) }
{
    match locks.to_commit(alloc, name) {
        Ok(granted) => {
            break_works(works, granted.broken(), tid);
            store_work(works, name);
            Ok(granted)
        }
        Err(fault) => Err(told_as(works, fault)),
    }
}

/// The unit, and the transaction that holds it, at which `grant_storing` would be refused.
pub fn test_storing(locks: &LockTable, works: &[Work], name: WorkId) -> Option<(LockUnit, Tid)>
    requires matches { LocksMatch works.now (table locks.now) }
    ensures { (T : Tid) (a : ActiveWork) → calls.IsActive works.now T name a → result ≡ rows.conflict name (rows.commit_wants a.writes) works.now }
{
    match locks.test_commit(name) {
        Ok(()) => None,
        Err(fault) => match told_as(works, fault) {
            Refused::Held(unit, tid) => Some((unit, tid)),
            // Never: the test wants no memory.
            Refused::Memory => None,
        },
    }
}

/// Adds a work, whose name comes after all others, and lets the lock table know it. Without memory nothing changes.
pub fn open_work(
    alloc: Global,
    locks: &mut LockTable,
    works: &mut Vec<Work>,
    tid: Tid,
    name: WorkId,
) -> Result<(), AllocError>
    requires matches { LocksMatch works.old.items (table locks.old) }
    requires last { is_after name works.old.items ≡ true }
    ensures opened { OnOk result (works.new.items ≡ works.old.items ++ rows.new_work name tid ∷ []) }
    ensures same { OnErr result (works.new.items ≡ works.old.items) }
    ensures matches { LocksMatch works.new.items (table locks.new) }
{
    works.reserve(1)?;
    match locks.ask(alloc, name, &[]) {
        Ok(_granted) => {
            works.push_reserved(new_work(alloc, tid, name));
            Ok(())
        }
        Err(_) => Err(AllocError),
    }
}
