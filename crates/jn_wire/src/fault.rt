//! Why bytes aren't frames.

ghost use Rattle.std.specs.Prelude.{◌≡◌};

use std::alloc::{AllocError, AllocFailed};
use thiserror::Error;

/// The first bytes of a stream that aren't a frame.
#[derive(Clone, Copy, Debug, PartialEq, Eq, Drop)]
pub struct WireFault {
    /// The place of their first byte in the stream, counted from 0.
    pub at: u64,
    /// 1: the stream ends inside a frame. 2: too few bytes, or too many. 3: a party that there isn't or that doesn't
    /// send such a message, or another receiver. 4: a kind that no server takes. 5: a field out of range.
    pub number: u8,
}

/// Why a call on a stream isn't done.
#[derive(Clone, Copy, Debug, PartialEq, Eq, Drop, Error)]
pub enum WireError {
    /// The bytes aren't frames.
    #[error("fault at {} number {}", .0.at, .0.number)]
    Fault(WireFault),
    /// There is no memory.
    #[error("there is no memory")]
    Memory,
}

impl From<AllocError> for WireError {
    ghost use Rattle.jn_wire.specs.declared.fault.WireError.TheVariants.{Memory};

    ghost from_gives = { λ _ e. e ≡ Memory };

    fn from(_e: AllocError) -> WireError {
        WireError::Memory
    }
}

impl<T: Drop> From<AllocFailed<T>> for WireError {
    ghost use Rattle.jn_wire.specs.declared.fault.WireError.TheVariants.{Memory};

    ghost from_gives = { λ _ e. e ≡ Memory };

    fn from(_e: AllocFailed<T>) -> WireError {
        WireError::Memory
    }
}
