//! The bytes of blocks.

ghost use Rattle.std.specs.Prelude.{◌≡◌, ◌≤◌, ◌+◌, length, IfSome};
ghost use Rattle.jn_base.specs.Limits.{most_file_bytes};
ghost use Rattle.jn_bytes.specs.ByteFiles.{length_block, length_in};
ghost use Rattle.jn_bytes.specs.Turns.{filled};

use byteorder::{BigEndian, ByteOrder};
use jn_base::{Block, MOST_FILE_BYTES};

/// Block 0 of a file with so many bytes.
#[tactic(auto, unfolding(crate::specs::ByteFiles::length_block))]
pub fn length_block(length: u32) -> Block
    ensures { result ≡ length_block length }
{
    let mut block = [0; 448];
    block[..4].copy_from_slice(b"JBYT");
    BigEndian::write_u32(&mut block[4..8], length);
    block
}

/// How many bytes a file has by its block 0, if that is of the format.
#[tactic(auto, unfolding(crate::specs::ByteFiles::length_in, jn_order::specs::Files::zeros))]
pub fn length_in(block: &Block) -> Option<u32>
    ensures length { result ≡ length_in block.now }
    ensures most { IfSome result (λ n. n ≤ most_file_bytes) }
{
    if *block == [0; 448] {
        return Some(0);
    }
    let length = BigEndian::read_u32(&block[4..]);
    if *block == length_block(length) && length <= MOST_FILE_BYTES {
        Some(length)
    } else {
        None
    }
}

/// The block with bytes put into it from a place on.
pub fn filled(from: usize, bytes: &[u8], old: &Block) -> Block
    requires { from + length bytes.now ≤ 448 }
    ensures { result ≡ filled from bytes.now old.now }
{
    let mut block = *old;
    block[from..from + bytes.len()].copy_from_slice(bytes);
    block
}
