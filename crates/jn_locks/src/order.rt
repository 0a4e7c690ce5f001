//! Which modes go together, and the orders of units and works.

ghost use Rattle.std.specs.Prelude.{◌≡◌};
ghost use Rattle.jn_base.specs.Names as names;
ghost use Rattle.jn_locks.specs.Locks as locks;

use crate::words::Mode;
use jn_base::{LockUnit, WorkId};

/// Whether two works may hold one unit in these modes.
pub(crate) fn together(a: Mode, b: Mode) -> bool
    ensures { result ≡ locks.together a b }
{
    match (a, b) {
        (Mode::Read, Mode::Read) => true,
        (Mode::Read, Mode::IntentionWrite) => true,
        (Mode::IntentionWrite, Mode::Read) => true,
        _ => false,
    }
}

pub(crate) fn mode_eq(a: Mode, b: Mode) -> bool
    ensures { result ≡ locks.mode_eq a b }
{
    match (a, b) {
        (Mode::Read, Mode::Read) => true,
        (Mode::IntentionWrite, Mode::IntentionWrite) => true,
        (Mode::Commit, Mode::Commit) => true,
        _ => false,
    }
}

pub(crate) fn unit_eq(a: LockUnit, b: LockUnit) -> bool
    ensures { result ≡ names.unit_eq a b }
{
    match (a, b) {
        (LockUnit::File(f), LockUnit::File(g)) => f.0 == g.0,
        (LockUnit::Block(f, p), LockUnit::Block(g, q)) => f.0 == g.0 && p.0 == q.0,
        _ => false,
    }
}

/// Whether a unit comes before another: by file, the file itself before its blocks.
#[tactic(auto, unfolding(crate::specs::Locks::unit_before))]
pub fn unit_before(a: LockUnit, b: LockUnit) -> bool
    ensures { result ≡ locks.unit_before a b }
{
    match (a, b) {
        (LockUnit::File(f), LockUnit::File(g)) => f.0 < g.0,
        (LockUnit::File(f), LockUnit::Block(g, _)) => f.0 <= g.0,
        (LockUnit::Block(f, _), LockUnit::File(g)) => f.0 < g.0,
        (LockUnit::Block(f, p), LockUnit::Block(g, q)) => f.0 < g.0 || (f.0 == g.0 && p.0 < q.0),
    }
}

pub(crate) fn work_eq(a: WorkId, b: WorkId) -> bool
    ensures { result ≡ names.work_eq a b }
{
    a.server.0 == b.server.0 && (a.epoch == b.epoch && a.ticket == b.ticket)
}

/// Whether a work's name comes before another's: by server, then epoch, then ticket.
#[tactic(auto, unfolding(crate::specs::Locks::work_before))]
pub fn work_before(a: WorkId, b: WorkId) -> bool
    ensures { result ≡ locks.work_before a b }
{
    a.server.0 < b.server.0
        || (a.server.0 == b.server.0
            && (a.epoch < b.epoch || (a.epoch == b.epoch && a.ticket < b.ticket)))
}
