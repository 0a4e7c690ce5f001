//! The turns of a write.

ghost use Rattle.std.specs.Prelude.{◌≡◌, ◌≤◌, ◌<◌, ◌+◌, ◌-◌, ◌++◌, length, IfOk, OnOk};
ghost use Rattle.jn_base.specs.Limits.{block_size, most_file_bytes};
ghost use Rattle.jn_bytes.specs.Turns as turns;

use crate::block::{filled, length_block};
use crate::next::{ByteRefusal, Next};
use crate::ops::Ops;
use crate::stage::{Stage, Turn};
use jn_base::{Block, BlockContent, BlockNo, FileNo, Op};
use std::alloc::{AllocError, Global};

/// The turn of a write to a file with so many bytes. A block that is covered whole isn't read.
pub fn write_of(
    alloc: Global,
    file: FileNo,
    offset: u32,
    bytes: &[u8],
    had: u32,
) -> Result<Turn, AllocError>
    requires { (length bytes.now ≤ block_size) × (offset + length bytes.now ≤ most_file_bytes) }
    ensures { IfOk result (λ turn. turn ≡ turns.write_of file offset bytes.now had) }
{
    if had < offset {
        return Ok(Turn::Over(Next::Refused(ByteRefusal::PastEnd(had))));
    }
    if bytes.is_empty() {
        return Ok(Turn::Over(Next::Did));
    }
    let first = first_part(offset, bytes);
    if first.len() == 448 {
        let content = BlockContent::new(alloc, first)?;
        return with_first(alloc, file, offset, bytes, had, content);
    }
    let op = Op::Read(file, BlockNo(block_at(offset)));
    Ok(Turn::Sends(op, Stage::First(had)))
}

/// The turn once the first block is read.
pub fn first_read(
    alloc: Global,
    file: FileNo,
    offset: u32,
    bytes: &[u8],
    had: u32,
    read: &Block,
) -> Result<Turn, AllocError>
    requires { (1 ≤ length bytes.now) × (length bytes.now ≤ block_size) × (offset + length bytes.now ≤ most_file_bytes) }
    ensures { IfOk result (λ turn. turn ≡ turns.with_first file offset bytes.now had (turns.filled (turns.place_in_block offset) (turns.first_part offset bytes.now) read.now)) }
{
    let first = filled(place_in_block(offset), first_part(offset, bytes), read);
    let content = BlockContent::from_block(alloc, &first)?;
    with_first(alloc, file, offset, bytes, had, content)
}

/// The turn once it is known what is to be in the first block.
fn with_first(
    alloc: Global,
    file: FileNo,
    offset: u32,
    bytes: &[u8],
    had: u32,
    first: BlockContent,
) -> Result<Turn, AllocError>
    requires { (1 ≤ length bytes.now) × (length bytes.now ≤ block_size) × (offset + length bytes.now ≤ most_file_bytes) }
    ensures { IfOk result (λ turn. turn ≡ turns.with_first file offset bytes.now had first) }
{
    if second_part(offset, bytes).is_empty() {
        let mut ops = Ops::new(alloc);
        ops.push(Op::Write(file, BlockNo(block_at(offset)), first))?;
        push_grown(alloc, &mut ops, file, had, offset + bytes.len() as u32)?;
        return Ok(write_all(ops));
    }
    let op = Op::Read(file, BlockNo(block_at(offset) + 1));
    Ok(Turn::Sends(op, Stage::Second(had, first)))
}

/// The turn once the second block is read.
pub fn second_read(
    alloc: Global,
    file: FileNo,
    offset: u32,
    bytes: &[u8],
    had: u32,
    first: &BlockContent,
    read: &Block,
) -> Result<Turn, AllocError>
    requires { (1 ≤ length bytes.now) × (length bytes.now ≤ block_size) × (offset + length bytes.now ≤ most_file_bytes) }
    ensures { IfOk result (λ turn. turn ≡ turns.with_second file offset bytes.now had first.now (turns.filled 0 (turns.second_part offset bytes.now) read.now)) }
{
    let second = filled(0, second_part(offset, bytes), read);
    let content = BlockContent::from_block(alloc, &second)?;
    let mut ops = Ops::new(alloc);
    ops.push(Op::Write(file, BlockNo(block_at(offset)), first.copy()?))?;
    ops.push(Op::Write(file, BlockNo(block_at(offset) + 1), content))?;
    push_grown(alloc, &mut ops, file, had, offset + bytes.len() as u32)?;
    Ok(write_all(ops))
}

/// Adds the write of block 0, where the file has more bytes at the end than it had.
fn push_grown(
    alloc: Global,
    ops: &mut Ops,
    file: FileNo,
    had: u32,
    end: u32,
) -> Result<(), AllocError>
    ensures { OnOk result (ops.new ≡ ops.old ++ turns.grown file had end) }
{
    if had < end {
        let block = BlockContent::from_block(alloc, &length_block(end))?;
        ops.push(Op::Write(file, BlockNo(0), block))?;
    }
    Ok(())
}

/// The turn where these writes are left.
pub fn write_all(mut ops: Ops) -> Turn
    ensures { result ≡ turns.write_all ops }
{
    match ops.take_first() {
        None => Turn::Over(Next::Did),
        Some(op) => Turn::Sends(op, Stage::Write(ops)),
    }
}

/// The block of a byte.
fn block_at(offset: u32) -> u16
    requires { offset ≤ most_file_bytes }
    ensures { result ≡ turns.block_at offset }
{
    (offset / 448 + 1) as u16
}

/// The place of a byte in its block.
fn place_in_block(offset: u32) -> usize
    ensures { result ≡ turns.place_in_block offset }
{
    offset as usize % 448
}

/// How many bytes there is room for in the block of the first one.
fn room(offset: u32) -> usize
    ensures { result ≡ 448 - turns.place_in_block offset }
{
    448 - place_in_block(offset)
}

/// The bytes that go into the first block.
fn first_part(offset: u32, bytes: &[u8]) -> &[u8]
    ensures { result.now ≡ turns.first_part offset bytes.now }
{
    &bytes[..room(offset).min(bytes.len())]
}

/// The bytes that go into the second one.
fn second_part(offset: u32, bytes: &[u8]) -> &[u8]
    ensures { result.now ≡ turns.second_part offset bytes.now }
{
    &bytes[room(offset).min(bytes.len())..]
}
