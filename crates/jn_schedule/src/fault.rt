//! Why a text is no schedule.
ghost use Rattle.std.specs.Prelude.{◌≡◌};
ghost use Rattle.jn_schedule.specs.Faults.{line_fault_number};
ghost use Rattle.jn_schedule.specs.declared.fault.ParseFault.TheVariants.{Memory};

use std::alloc::{AllocError, AllocFailed};
use thiserror::Error;

/// What is wrong with a line: the first that holds, in this order.
#[derive(Clone, Copy, Debug, PartialEq, Eq, Drop, Error)]
pub enum LineFault {
    /// The first word, the second after a client, or the fourth of an `arm`, isn't one that can stand there.
    #[error("a word that cannot stand there")]
    Keyword,
    /// There are too few words, or too many.
    #[error("too few words, or too many")]
    Count,
    /// A number or a name isn't spelled as one, or isn't in its range.
    #[error("a number or a name that is not one, or not in its range")]
    Value,
    /// The bytes of a block aren't spelled as pairs of digits.
    #[error("bytes that are not pairs of digits")]
    Bytes,
}

impl LineFault {
    /// The number by which the fault is reported, 1 to 4.
    pub fn number(self) -> u8
        ensures { result ≡ line_fault_number self }
    {
        match self {
            LineFault::Keyword => 1,
            LineFault::Count => 2,
            LineFault::Value => 3,
            LineFault::Bytes => 4,
        }
    }
}

/// Why a line was not read.
#[derive(Clone, Copy, Debug, PartialEq, Eq, Drop)]
pub(crate) enum ReadFault {
    Line(LineFault),
    Memory,
}

impl From<LineFault> for ReadFault {
    ghost use Rattle.jn_schedule.specs.declared.fault.ReadFault.TheVariants.{Line};

    ghost from_gives = { λ fault e. e ≡ Line fault };

    fn from(fault: LineFault) -> ReadFault {
        ReadFault::Line(fault)
    }
}

impl From<AllocError> for ReadFault {
    ghost use Rattle.jn_schedule.specs.declared.fault.ReadFault.TheVariants as reads;

    ghost from_gives = { λ _ e. e ≡ reads.Memory };

    fn from(_e: AllocError) -> ReadFault {
        ReadFault::Memory
    }
}

/// Why a text was not read.
#[derive(Clone, Copy, Debug, PartialEq, Eq, Drop, Error)]
pub enum ParseFault {
    /// The first line that is at fault, where lines count from 1, and the number of its fault.
    #[error("line {line} has fault {number}")]
    Syntax { line: usize, number: u8 },
    #[error("there is no memory")]
    Memory,
}

impl From<AllocError> for ParseFault {
    ghost from_gives = { λ _ e. e ≡ Memory };

    fn from(_e: AllocError) -> ParseFault {
        ParseFault::Memory
    }
}

impl<T: Drop> From<AllocFailed<T>> for ParseFault {
    ghost from_gives = { λ _ e. e ≡ Memory };

    fn from(_e: AllocFailed<T>) -> ParseFault {
        ParseFault::Memory
    }
}
