//! Why lines weren't reported.
ghost use Rattle.std.specs.Prelude.{◌≡◌};
ghost use Rattle.jn_writing.specs.declared.fault.ReportFault.TheVariants as reports;

use std::alloc::AllocError;
use thiserror::Error;

/// Why lines weren't reported.
#[derive(Clone, Copy, Debug, PartialEq, Eq, Drop, Error)]
pub enum ReportFault {
    /// The output failed.
    #[error("the output failed")]
    Write,
    /// There is no memory for their text.
    #[error("there is no memory")]
    Memory,
}

impl From<AllocError> for ReportFault {
    ghost from_gives = { λ _ e. e ≡ reports.Memory };

    fn from(_refused: AllocError) -> ReportFault {
        ReportFault::Memory
    }
}
