//! Why a work isn't prepared, a flag not promised, or a file not seen.

ghost use Rattle.std.specs.Prelude.{◌≡◌};

use jn_base::{CallFault, Short};
use std::alloc::AllocError;
use thiserror::Error;

/// Why a work isn't prepared. Only after `Stopped` may anything have changed.
#[derive(Clone, Copy, Debug, PartialEq, Eq, Drop, Error)]
pub enum PrepareFault {
    /// Too few slots for records are free and not promised.
    #[error("{free} records are free, {need} are needed", free = .0.free, need = .0.need)]
    Records(Short),
    /// Too few data pages are free.
    #[error("{free} data pages are free, {need} are needed", free = .0.free, need = .0.need)]
    Pages(Short),
    /// Too few heads are free and not promised.
    #[error("{free} heads are free, {need} are needed", free = .0.free, need = .0.need)]
    Heads(Short),
    /// The device has no power.
    #[error("the device has no power")]
    Stopped,
    /// There is no memory for it.
    #[error("there is no memory")]
    Memory,
}

/// Why no record is promised for a flag. Nothing has changed.
#[derive(Clone, Copy, Debug, PartialEq, Eq, Drop, Error)]
pub enum PromiseFault {
    /// No slot for a record is free and not promised.
    #[error("{free} records are free, {need} are needed", free = .0.free, need = .0.need)]
    Short(Short),
    /// There is no memory for the flag.
    #[error("there is no memory")]
    Memory,
}

/// Why a file isn't seen. `Memory` is for want of room for the bytes of the block.
pub type ViewFault = CallFault;

impl From<AllocError> for PrepareFault {
    ghost use Rattle.jn_storage.specs.declared.faults.PrepareFault.TheVariants.{Memory};

    ghost from_gives = { λ _ e. e ≡ Memory };

    fn from(_e: AllocError) -> PrepareFault {
        PrepareFault::Memory
    }
}

impl From<AllocError> for PromiseFault {
    ghost use Rattle.jn_storage.specs.declared.faults.PromiseFault.TheVariants.{Memory};

    ghost from_gives = { λ _ e. e ≡ Memory };

    fn from(_e: AllocError) -> PromiseFault {
        PromiseFault::Memory
    }
}
