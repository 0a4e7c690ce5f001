//! Why a call of a set fails.
ghost use Rattle.std.specs.Prelude.{◌≡◌};
ghost use Rattle.jn_sets.specs.declared.fault.SetFault.TheVariants.{Stopped as SetStopped};

use jn_base::{CallFault, Stopped};
use thiserror::Error;

/// Why a set isn't loaded.
pub type LoadFault = CallFault;

/// Why a record isn't inserted.
#[derive(Clone, Copy, Debug, PartialEq, Eq, Drop, Error)]
pub enum SetFault {
    /// Each slot holds a record.
    #[error("each slot holds a record")]
    Full,
    #[error("the device has no power")]
    Stopped,
}

impl From<Stopped> for SetFault {
    ghost from_gives = { λ _ e. e ≡ SetStopped };

    fn from(_e: Stopped) -> SetFault {
        SetFault::Stopped
    }
}
