//! The whole input.

use jn_host::{KeepFailure, Source};
use std::alloc::Global;

/// The longest input, in bytes.
const MOST_BYTES: usize = 4_194_304;

/// How many bytes are asked of the source at a time.
const PIECE: usize = 65_536;

/// Reads the source to its end, or as many bytes as an input may have.
pub(crate) fn read_all<S: Source>(alloc: Global, source: &mut S) -> Result<Vec<u8>, KeepFailure> {
    let mut bytes = Vec::new(alloc);
    let mut piece = [0; PIECE];
    while bytes.len() < MOST_BYTES {
        let room = PIECE.min(MOST_BYTES - bytes.len());
        let count = source.read(&mut piece[..room])?;
        if count == 0 {
            break;
        }
        bytes.extend_from_slice(&piece[..count])?;
    }
    Ok(bytes)
}
