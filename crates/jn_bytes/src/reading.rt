//! The turns of a read.

ghost use Rattle.std.specs.Prelude.{◌≡◌, ◌≤◌, ◌<◌, ◌+◌, ◌-◌, ◌++◌, drop, take, IfOk, OnErr};
ghost use Rattle.jn_base.specs.Limits.{block_size, most_file_bytes, most_blocks};
ghost use Rattle.jn_bytes.specs.Turns.{read_from, read_of};

use crate::gathered::Gathered;
use crate::next::Next;
use crate::stage::{Stage, Turn};
use jn_base::{Block, BlockNo, FileNo, Op};
use std::alloc::{AllocError, Global};
use std::mem::replace;

/// The turn of a read of a file with so many bytes. There is room for all that are wanted at once.
pub fn read_of(
    alloc: Global,
    file: FileNo,
    offset: u32,
    count: u16,
    had: u32,
) -> Result<Turn, AllocError>
    requires { had ≤ most_file_bytes }
    ensures { IfOk result (λ turn. turn ≡ read_of file offset count had) }
{
    let wanted = u32::from(count).min(had.saturating_sub(offset));
    if wanted == 0 {
        return Ok(Turn::Over(Next::Done(Gathered::new(alloc))));
    }
    let bytes = Gathered::from_vec(Vec::with_capacity(alloc, wanted as usize)?);
    let (block, from) = ((offset / 448 + 1) as u16, (offset % 448) as u16);
    Ok(read_from(file, block, from, wanted as u16, bytes))
}

/// The turn where so many bytes are still wanted, from a place of a block on.
fn read_from(file: FileNo, block: u16, from: u16, left: u16, bytes: Gathered) -> Turn
    ensures { result ≡ read_from file block from left bytes }
{
    if left == 0 {
        return Turn::Over(Next::Done(bytes));
    }
    let op = Op::Read(file, BlockNo(block));
    Turn::Sends(op, Stage::Block(block, from, left, bytes))
}

/// The turn once a block is read. Without memory the bytes are as they were.
pub fn read_on(
    alloc: Global,
    file: FileNo,
    block: u16,
    from: u16,
    left: u16,
    bytes: &mut Gathered,
    read: &Block,
) -> Result<Turn, AllocError>
    requires { (from < block_size) × (block < most_blocks) }
    ensures ok { IfOk result (λ turn. turn ≡ read_from file (block + 1) 0 (left - (448 - from)) (bytes.old ++ take left (drop from read.now))) }
    ensures err { OnErr result (bytes.new ≡ bytes.old) }
{
    let start = from as usize;
    let taken = (left as usize).min(448 - start);
    bytes.append(&read[start..start + taken])?;
    let all = replace(bytes, Gathered::new(alloc));
    Ok(read_from(file, block + 1, 0, left - taken as u16, all))
}
