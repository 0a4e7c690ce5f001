//! Why a command isn't carried out.

use jn_report::Refusal;
use std::alloc::AllocError;
use thiserror::Error;

/// Why a command sends nothing. After either the client is as it was.
#[derive(Clone, Copy, Drop, Debug, Error)]
pub enum CommandFault {
    /// The first refusal that applies.
    #[error("the command is refused: {0:?}")]
    Refused(Refusal),
    /// There is no memory.
    #[error("there is no memory")]
    Memory,
}

impl From<AllocError> for CommandFault {
    ghost use Rattle.std.specs.Prelude.{◌≡◌};
    ghost use Rattle.jn_client.specs.declared.words.CommandFault.TheVariants.{Memory};

    ghost from_gives = { λ _ e. e ≡ Memory };

    fn from(_e: AllocError) -> CommandFault {
        CommandFault::Memory
    }
}
