//! Why a run ends early.

use jn_base::ServerNo;
use jn_net::SendFault;
use std::alloc::{AllocError, AllocFailed};

/// Why a run ends early. The world is of no use any more.
#[derive(Clone, Copy, Debug, PartialEq, Eq, Drop)]
pub enum Ended {
    /// One message more would be sent than the network carries. The step that would send it leaves no line.
    Messages,
    /// The server has no epoch left, at the start or at the end. Its restart leaves no line.
    Epoch(ServerNo),
    /// There is no memory.
    Memory,
}

impl From<AllocError> for Ended {
    ghost use Rattle.jn_world.specs.declared.ended.Ended.TheVariants.{Memory};
    ghost use Rattle.std.specs.Prelude.{◌≡◌};

    ghost from_gives = { λ _ e. e ≡ Memory };

    fn from(_e: AllocError) -> Ended {
        Ended::Memory
    }
}

impl<T: Drop> From<AllocFailed<T>> for Ended {
    ghost use Rattle.jn_world.specs.declared.ended.Ended.TheVariants.{Memory};
    ghost use Rattle.std.specs.Prelude.{◌≡◌};

    ghost from_gives = { λ _ e. e ≡ Memory };

    fn from(_e: AllocFailed<T>) -> Ended {
        Ended::Memory
    }
}

impl From<SendFault> for Ended {
    ghost use Rattle.jn_world.specs.Faults.{ended_by};
    ghost use Rattle.std.specs.Prelude.{◌≡◌};

    ghost from_gives = { λ fault e. e ≡ ended_by fault };

    fn from(e: SendFault) -> Ended {
        match e {
            SendFault::Limit => Ended::Messages,
            SendFault::Memory => Ended::Memory,
        }
    }
}
