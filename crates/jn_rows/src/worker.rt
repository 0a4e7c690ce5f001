//! What a worker remembers of its works.

use jn_base::{Answer, LockUnit, Tid, WorkId};
use jn_records::{ListOf, NetList};

/// A work at a server, from the moment when it is opened.
#[derive(Drop)]
pub struct Work {
    pub name: WorkId,
    pub tid: Tid,
    pub phase: Phase,
}

/// How far a work has come.
#[derive(Drop)]
pub enum Phase {
    Active(ActiveWork),
    /// It was broken at the unit, by the transaction.
    Broken(LockUnit, Tid),
    /// It is stored, as ready or going.
    Prepared(PreparedWork),
}

/// A work that takes operations. It holds its read units for reading and its write units for intention-write. Every
/// operation reads its file, so the read units have the files that it writes to, too.
#[derive(Drop)]
pub struct ActiveWork {
    pub list: NetList,
    /// Ascending.
    pub reads: ListOf<LockUnit>,
    /// Ascending.
    pub writes: ListOf<LockUnit>,
    /// The number of its last operation, 0 before the first.
    pub last: u32,
    /// What the last operation was answered.
    pub kept: Option<Answer>,
    /// Whether it gives way to other works.
    pub vulnerable: bool,
}

/// A prepared work holds its read units for reading and its write units for commit.
#[derive(Drop)]
pub struct PreparedWork {
    /// Ascending.
    pub reads: ListOf<LockUnit>,
    /// Ascending.
    pub writes: ListOf<LockUnit>,
}
