//! Modes, wants and what stands in their way.

use jn_base::{LockUnit, WorkId};
use std::alloc::AllocError;
use thiserror::Error;

/// How a unit is held.
#[derive(Clone, Copy, Debug, PartialEq, Eq)]
pub enum Mode {
    Read,
    IntentionWrite,
    Commit,
}

/// How a work stands that the table knows.
#[derive(Clone, Copy, Debug, PartialEq, Eq)]
pub enum Standing {
    Active,
    /// It gives way to others.
    Vulnerable,
    /// It is to be carried out or dropped, and never gives way.
    Prepared,
}

/// A lock that a work asks for.
#[derive(Clone, Copy, Debug, PartialEq, Eq)]
pub struct Want {
    pub unit: LockUnit,
    pub mode: Mode,
}

/// The modes in which a work holds a unit.
#[derive(Clone, Copy, Debug, PartialEq, Eq)]
pub(crate) struct Modes {
    pub(crate) read: bool,
    pub(crate) intention_write: bool,
    pub(crate) commit: bool,
}

/// A work that holds a unit.
#[derive(Clone, Copy, Debug, PartialEq, Eq)]
pub(crate) struct Holder {
    pub(crate) work: WorkId,
    pub(crate) modes: Modes,
}

/// The first wanted unit that another work holds in a mode that doesn't go with a wanted one, and the least such work.
#[derive(Clone, Copy, Debug, PartialEq, Eq)]
pub struct Conflict {
    pub unit: LockUnit,
    pub holder: WorkId,
}

/// A work that lost its locks, and the first unit at which it was collided with.
#[derive(Clone, Copy, Debug, PartialEq, Eq)]
pub struct Broken {
    pub work: WorkId,
    pub unit: LockUnit,
}

/// Why locks aren't granted.
#[derive(Clone, Copy, Debug, PartialEq, Eq, Drop, Error)]
pub enum LockFault {
    #[error("another work holds the unit: {0:?}")]
    Conflict(Conflict),
    /// There is no memory.
    #[error("there is no memory")]
    Memory,
}

impl From<AllocError> for LockFault {
    ghost use Rattle.std.specs.Prelude.{◌≡◌};
    ghost use Rattle.jn_locks.specs.declared.words.LockFault.TheVariants.{Memory};

    ghost from_gives = { λ _ e. e ≡ Memory };

    fn from(_e: AllocError) -> LockFault {
        LockFault::Memory
    }
}
