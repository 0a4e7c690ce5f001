//! Reads and writes around the size of a block, over files of five lengths, beside bytes in memory.

use crate::plain::{
    FILE, block_of, file_of, finish, header, pattern, read_of, read_steps, size_of, write,
    write_steps, written,
};
use jn_bytes::{ByteCall, ByteRefusal, Next};
use std::alloc::{AllocError, Global};
use std::test::Fail;

const LENGTHS: [u32; 5] = [0, 1, 448, 449, 5000];

/// Whether a read of a file with so many bytes gives what memory has, and asks for its blocks alone.
fn reads_right(alloc: Global, length: u32, offset: u32, count: u16) -> Result<bool, AllocError> {
    let bytes = pattern(alloc, 0, length)?;
    let mut files = file_of(alloc, &bytes)?;
    let end = finish(alloc, &mut files, &mut ByteCall::read(FILE, offset, count))?;
    let steps = read_steps(alloc, length, offset, count)?;
    Ok(match &end.next {
        Next::Done(given) => {
            given.as_slice() == read_of(&bytes, offset, count) && end.steps == steps
        }
        _ => false,
    })
}

#[test]
fn a_read_gives_what_memory_has(rt: HostRuntime) -> Result<(), Fail> {
    let alloc = rt.alloc();
    for length in LENGTHS {
        for offset in [0, 1, 447, 448] {
            for count in [1, 447, 448, 449, 896, 4479, 4480] {
                let right = reads_right(alloc, length, offset, count)?;
                assert!(rt; right, "length {length} offset {offset} count {count}");
            }
        }
    }
    Ok(())
}

/// Whether a file has these bytes, by its blocks up to block 12.
fn has(alloc: Global, files: &mut jn_replay::Files, bytes: &[u8]) -> Result<bool, AllocError> {
    let head = block_of(alloc, files, 0)?;
    let mut same = head.starts_with(&header(size_of(bytes)));
    let mut block = 0_u16;
    for part in bytes.chunks(448) {
        block = block.wrapping_add(1);
        let stored = block_of(alloc, files, block)?;
        same = same && stored.starts_with(part);
    }
    Ok(same)
}

/// Whether a write to a file with so many bytes leaves what memory has then, and asks for its blocks alone.
fn writes_right(alloc: Global, length: u32, offset: u32, count: u32) -> Result<bool, AllocError> {
    let bytes = pattern(alloc, 0, length)?;
    let others = pattern(alloc, 100, count)?;
    let mut files = file_of(alloc, &bytes)?;
    if others.len() > 448 || offset > 1000 {
        return Ok(false);
    }
    let end = write(alloc, &mut files, offset, &others)?;
    match &end.next {
        Next::Did => {
            let now = written(alloc, &bytes, offset, &others)?;
            let steps = write_steps(alloc, length, offset, count)?;
            Ok(offset <= length && end.steps == steps && has(alloc, &mut files, &now)?)
        }
        Next::Refused(ByteRefusal::PastEnd(n)) => {
            Ok(
                offset > length
                    && *n == length
                    && end.steps.len() == 1
                    && has(alloc, &mut files, &bytes)?,
            )
        }
        _ => Ok(false),
    }
}

#[test]
fn a_write_leaves_what_memory_has(rt: HostRuntime) -> Result<(), Fail> {
    let alloc = rt.alloc();
    for length in LENGTHS {
        for offset in [0, 1, 446, 447, 448] {
            for count in [0, 1, 2, 447, 448] {
                let right = writes_right(alloc, length, offset, count)?;
                assert!(rt; right, "length {length} offset {offset} count {count}");
            }
        }
    }
    Ok(())
}
