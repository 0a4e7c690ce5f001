//! Why a stream, or frames of it, weren't served.
ghost use Rattle.std.specs.Prelude.{◌≡◌};
ghost use Rattle.jn_serving.specs.declared.fault.AnswerFault.TheVariants as answers;

use std::alloc::AllocError;

/// Why a stream wasn't served to its end.
#[derive(Clone, Copy, Debug, PartialEq, Eq, Drop)]
pub enum StreamFault {
    /// The source failed.
    Read,
    /// The sink failed.
    Write,
    /// There are more bytes than a stream may have.
    TooLong,
    /// Bytes of the stream are no frame, or it ends inside one.
    NoFrame,
    /// There is no memory.
    Memory,
}

/// Why frames weren't served, or what the server sent by them wasn't written.
#[derive(Clone, Copy, Debug, PartialEq, Eq, Drop)]
pub enum AnswerFault {
    /// The sink failed.
    Write,
    /// There is no memory.
    Memory,
}

impl From<AllocError> for AnswerFault {
    ghost from_gives = { λ _ e. e ≡ answers.Memory };

    fn from(_refused: AllocError) -> AnswerFault {
        AnswerFault::Memory
    }
}
