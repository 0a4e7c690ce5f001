//! Why a call isn't done.
ghost use Rattle.std.specs.Prelude.{◌≡◌};
ghost use Rattle.jn_base.specs.declared.fault.CallFault.TheVariants.{Stopped as Stops, Memory};

use crate::device::Stopped;
use std::alloc::{AllocError, AllocFailed};
use thiserror::Error;

/// Why a call isn't done. What stands where it comes is said where the call is.
#[derive(Clone, Copy, Debug, PartialEq, Eq, Drop, Error)]
pub enum CallFault {
    /// The device has no power.
    #[error("the device has no power")]
    Stopped,
    /// There is no memory.
    #[error("there is no memory")]
    Memory,
}

impl From<Stopped> for CallFault {
    ghost from_gives = { λ _ e. e ≡ Stops };

    fn from(_e: Stopped) -> CallFault {
        CallFault::Stopped
    }
}

impl From<AllocError> for CallFault {
    ghost from_gives = { λ _ e. e ≡ Memory };

    fn from(_e: AllocError) -> CallFault {
        CallFault::Memory
    }
}

impl<T: Drop> From<AllocFailed<T>> for CallFault {
    ghost from_gives = { λ _ e. e ≡ Memory };

    fn from(_e: AllocFailed<T>) -> CallFault {
        CallFault::Memory
    }
}
