//! The bytes that come in.

ghost use Rattle.std.specs.Prelude.{◌≡◌};
ghost use Rattle.jn_writing.specs.Outside.{source_state};
ghost use Rattle.jn_run.specs.Reading.{ReadsAll};
ghost use Rattle.jn_run.specs.declared.reading.ReadFault.TheVariants as reads;

use jn_host::{Failed, Source};
use jn_serving::MOST_BYTES;
use std::alloc::{AllocError, Global};

/// How many bytes are asked of the source at a time.
const PIECE: usize = 4096;

/// Why a schedule wasn't read.
#[derive(Clone, Copy, Drop)]
pub enum ReadFault {
    Failed,
    TooLong,
    Memory,
}

impl From<Failed> for ReadFault {
    ghost from_gives = { λ _ e. e ≡ reads.Failed };

    fn from(_failed: Failed) -> ReadFault {
        ReadFault::Failed
    }
}

impl From<AllocError> for ReadFault {
    ghost from_gives = { λ _ e. e ≡ reads.Memory };

    fn from(_refused: AllocError) -> ReadFault {
        ReadFault::Memory
    }
}

/// Reads the source to its end, or to one byte more than the longest schedule.
pub fn read_all<S: Source>(alloc: Global, source: &mut S) -> Result<Vec<u8>, ReadFault>
    ensures read { ReadsAll (source_state S.left S.faults source.old) result (source_state S.left S.faults source.new) }
{
    let mut bytes = Vec::new(alloc);
    let mut piece = [0; PIECE];
    while bytes.len() <= MOST_BYTES {
        let room = PIECE.min(MOST_BYTES + 1 - bytes.len());
        let count = source.read(&mut piece[..room])?;
        if count == 0 {
            return Ok(bytes);
        }
        bytes.extend_from_slice(&piece[..count])?;
    }
    Err(ReadFault::TooLong)
}
