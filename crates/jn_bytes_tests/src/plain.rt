//! A file with its blocks, and the same bytes in memory.

ghost use Rattle.std.specs.Prelude.{◌≤◌, ◌+◌, length};

use jn_base::{Answer, BlockContent, BlockNo, ByteString, FileNo, Op, ServerNo};
use jn_bytes::{ByteCall, Next};
use jn_replay::{Files, do_op};
use std::alloc::{AllocError, Global};

pub const SERVER: ServerNo = ServerNo(0);

pub const FILE: FileNo = FileNo(7);

/// An operation that a call asked, with its block.
#[derive(Clone, Copy, Debug, PartialEq, Eq)]
pub enum Step {
    Reads(u32),
    Writes(u32),
    Other,
}

/// How a call ended, and what it asked.
#[derive(Drop)]
pub struct Ended {
    pub next: Next,
    pub steps: Vec<Step>,
}

fn step_of(op: &Op) -> Step {
    match op {
        Op::Read(_, block) => Step::Reads(u32::from(block.0)),
        Op::Write(_, block, _) => Step::Writes(u32::from(block.0)),
        _ => Step::Other,
    }
}

/// Does a call on the files, operation by operation. None takes more than 12.
pub fn finish(alloc: Global, files: &mut Files, call: &mut ByteCall) -> Result<Ended, AllocError> {
    let mut steps = Vec::new(alloc);
    let mut next = call.next(alloc, None)?;
    for _ in 0..12 {
        let answer = match &next {
            Next::Send(op) => {
                steps.push(step_of(op))?;
                do_op(alloc, files, SERVER, op)?
            }
            _ => break,
        };
        next = call.next(alloc, Some(&answer))?;
    }
    Ok(Ended { next, steps })
}

/// A write of these bytes.
pub fn write_call(alloc: Global, offset: u32, bytes: &[u8]) -> Result<ByteCall, AllocError>
    requires few { length bytes.now ≤ 448 }
    requires within { offset + length bytes.now ≤ 1128512 }
{
    let string = ByteString::new(alloc, Vec::from_slice(alloc, bytes)?)?;
    Ok(ByteCall::write(FILE, offset, string))
}

/// Does it on the files.
pub fn write(
    alloc: Global,
    files: &mut Files,
    offset: u32,
    bytes: &[u8],
) -> Result<Ended, AllocError>
    requires few { length bytes.now ≤ 448 }
    requires within { offset + length bytes.now ≤ 1128512 }
{
    let mut call = write_call(alloc, offset, bytes)?;
    finish(alloc, files, &mut call)
}

/// Writes the first bytes of a block, and zeros behind them.
pub fn put(alloc: Global, files: &mut Files, block: u16, begin: &[u8]) -> Result<(), AllocError> {
    if begin.len() <= 448 {
        let content = BlockContent::new(alloc, begin)?;
        do_op(
            alloc,
            files,
            SERVER,
            &Op::Write(FILE, BlockNo(block), content),
        )?;
    }
    Ok(())
}

/// The bytes of a block, and none where the file isn't there.
pub fn block_of(alloc: Global, files: &mut Files, block: u16) -> Result<Vec<u8>, AllocError> {
    let answer = do_op(alloc, files, SERVER, &Op::Read(FILE, BlockNo(block)))?;
    match answer {
        Answer::Read(content) => Vec::from_slice(alloc, &content.to_block()),
        _ => Ok(Vec::new(alloc)),
    }
}

/// Block 0 of a file with so many bytes, by hand: J, B, Y, T, and the number with its highest byte first.
pub fn header(length: u32) -> [u8; 8] {
    [
        74,
        66,
        89,
        84,
        (length >> 24) as u8,
        (length >> 16 & 255) as u8,
        (length >> 8 & 255) as u8,
        (length & 255) as u8,
    ]
}

/// A file with these bytes, laid out by hand.
pub fn file_of(alloc: Global, bytes: &[u8]) -> Result<Files, AllocError> {
    let mut files = Files::new(alloc);
    do_op(alloc, &mut files, SERVER, &Op::Create(FILE))?;
    put(alloc, &mut files, 0, &header(size_of(bytes)))?;
    let mut block = 0_u16;
    for part in bytes.chunks(448) {
        block = block.wrapping_add(1);
        put(alloc, &mut files, block, part)?;
    }
    Ok(files)
}

/// How many bytes there are.
pub fn size_of(bytes: &[u8]) -> u32 {
    u32::try_from(bytes.len()).unwrap_or(u32::MAX)
}

/// So many bytes, none of them zero, that begin with this one.
pub fn pattern(alloc: Global, begin: u32, count: u32) -> Result<Vec<u8>, AllocError> {
    let mut bytes = Vec::new(alloc);
    for i in 0..count {
        let n = (u64::from(i) + u64::from(begin)) % 251 + 1;
        bytes.push(n as u8)?;
    }
    Ok(bytes)
}

/// Of bytes in memory those that a read gives.
pub fn read_of(bytes: &[u8], offset: u32, count: u16) -> &[u8] {
    let start = (offset as usize).min(bytes.len());
    let end = (offset as usize + count as usize).min(bytes.len());
    if start <= end {
        &bytes[start..end]
    } else {
        &[]
    }
}

/// Bytes in memory with others from a place on.
pub fn written(
    alloc: Global,
    bytes: &[u8],
    offset: u32,
    others: &[u8],
) -> Result<Vec<u8>, AllocError> {
    let mut all = Vec::from_slice(alloc, bytes)?;
    let mut place = offset as usize;
    for byte in others {
        if place < all.len() {
            all[place] = *byte;
        } else {
            all.push(*byte)?;
        }
        place = place.wrapping_add(1);
    }
    Ok(all)
}

/// The steps of a read, by the rule: block 0, and each block with a byte that is wanted.
pub fn read_steps(
    alloc: Global,
    length: u32,
    offset: u32,
    count: u16,
) -> Result<Vec<Step>, AllocError> {
    let mut steps = Vec::new(alloc);
    steps.push(Step::Reads(0))?;
    for block in 1..13_u64 {
        let (start, end) = ((block - 1) * 448, block * 448);
        let wanted_end = (u64::from(offset) + u64::from(count)).min(u64::from(length));
        if start.max(u64::from(offset)) < end.min(wanted_end) {
            steps.push(Step::Reads(block as u32))?;
        }
    }
    Ok(steps)
}

/// The steps of a write, by the rule: block 0, each block that it covers in part; each block that it touches, and block
/// 0 if there are more bytes then.
pub fn write_steps(
    alloc: Global,
    length: u32,
    offset: u32,
    count: u32,
) -> Result<Vec<Step>, AllocError> {
    let mut steps = Vec::new(alloc);
    steps.push(Step::Reads(0))?;
    let (first, last) = (u64::from(offset), u64::from(offset) + u64::from(count));
    for block in 1..13_u64 {
        let (start, end) = ((block - 1) * 448, block * 448);
        let covered = first <= start && end <= last;
        if start.max(first) < end.min(last) && !covered {
            steps.push(Step::Reads(block as u32))?;
        }
    }
    for block in 1..13_u64 {
        let (start, end) = ((block - 1) * 448, block * 448);
        if start.max(first) < end.min(last) {
            steps.push(Step::Writes(block as u32))?;
        }
    }
    if last > u64::from(length) {
        steps.push(Step::Writes(0))?;
    }
    Ok(steps)
}
