//! Rows worked by hand: a small file, one that is as long as a file can be, and blocks 0 that are none.

use crate::plain::{FILE, SERVER, Step, block_of, finish, header, put, write, write_call};
use jn_base::{Answer, MOST_FILE_BYTES, Op};
use jn_bytes::{ByteCall, ByteRefusal, Next};
use jn_replay::{Files, do_op};
use std::alloc::{AllocError, Global};
use std::test::Fail;

/// An empty file.
fn created(alloc: Global) -> Result<Files, AllocError> {
    let mut files = Files::new(alloc);
    do_op(alloc, &mut files, SERVER, &Op::Create(FILE))?;
    Ok(files)
}

fn gives(next: &Next, bytes: &[u8]) -> bool {
    matches!(next, Next::Done(given) if given.as_slice() == bytes)
}

#[test]
fn small_writes_are_read_again(rt: HostRuntime) -> Result<(), Fail> {
    let alloc = rt.alloc();
    let mut files = created(alloc)?;
    let end = write(alloc, &mut files, 0, &[0x61, 0x62, 0])?;
    assert!(rt; matches!(end.next, Next::Did));
    let end = write(alloc, &mut files, 1, &[0x63])?;
    assert!(rt; matches!(end.next, Next::Did));
    let end = finish(alloc, &mut files, &mut ByteCall::read(FILE, 1, 9))?;
    assert!(rt; gives(&end.next, &[0x63, 0]));
    let end = write(alloc, &mut files, 4, &[0x64])?;
    assert!(rt; matches!(end.next, Next::Refused(ByteRefusal::PastEnd(3))));
    let head = block_of(alloc, &mut files, 0)?;
    assert!(rt; head.starts_with(&[0x4a, 0x42, 0x59, 0x54, 0, 0, 0, 3, 0]));
    let first = block_of(alloc, &mut files, 1)?;
    assert!(rt; first.starts_with(&[0x61, 0x63, 0, 0]));
    Ok(())
}

#[test]
fn a_block_that_is_covered_whole_is_not_read(rt: HostRuntime) -> Result<(), Fail> {
    let alloc = rt.alloc();
    let mut files = created(alloc)?;
    let end = write(alloc, &mut files, 0, &[1; 448])?;
    assert!(rt; matches!(end.next, Next::Did));
    assert_eq!(rt;
        end.steps.as_slice(),
        [Step::Reads(0), Step::Writes(1), Step::Writes(0)].as_slice()
    );
    let end = write(alloc, &mut files, 447, &[0x61, 0x62])?;
    assert!(rt; matches!(end.next, Next::Did));
    let end = finish(alloc, &mut files, &mut ByteCall::read(FILE, 447, 9))?;
    assert!(rt; gives(&end.next, &[0x61, 0x62]));
    Ok(())
}

#[test]
fn the_last_byte_of_a_file_is_reached(rt: HostRuntime) -> Result<(), Fail> {
    let alloc = rt.alloc();
    assert_eq!(rt; MOST_FILE_BYTES, 1_128_512);
    let mut files = created(alloc)?;
    put(alloc, &mut files, 0, &header(1_128_511))?;
    let end = write(alloc, &mut files, 1_128_511, &[5])?;
    assert!(rt; matches!(end.next, Next::Did));
    let steps = [
        Step::Reads(0),
        Step::Reads(2519),
        Step::Writes(2519),
        Step::Writes(0),
    ];
    assert_eq!(rt; end.steps.as_slice(), steps.as_slice());
    let end = finish(
        alloc,
        &mut files,
        &mut ByteCall::read(FILE, 1_128_510, 65_535),
    )?;
    assert!(rt; gives(&end.next, &[0, 5]));
    let end = write(alloc, &mut files, 1_128_512, &[])?;
    assert!(rt; matches!(end.next, Next::Did));
    let end = finish(
        alloc,
        &mut files,
        &mut ByteCall::read(FILE, u32::MAX, 65_535),
    )?;
    assert!(rt; gives(&end.next, &[]));
    Ok(())
}

/// Whether a read of a file whose block 0 begins so is refused as none of bytes.
fn is_none_of_bytes(alloc: Global, begin: &[u8]) -> Result<bool, AllocError> {
    let mut files = created(alloc)?;
    put(alloc, &mut files, 0, begin)?;
    let end = finish(alloc, &mut files, &mut ByteCall::read(FILE, 0, 1))?;
    Ok(matches!(end.next, Next::Refused(ByteRefusal::NotBytes)))
}

#[test]
fn block_0_is_of_the_format_or_it_is_not(rt: HostRuntime) -> Result<(), Fail> {
    let alloc = rt.alloc();
    for (begin, refused) in [
        ([0, 0, 0, 0, 0, 0, 0, 0, 0], false),
        ([74, 66, 89, 84, 0, 0, 0, 0, 0], false),
        ([74, 66, 89, 84, 0, 17, 56, 64, 0], false),
        ([74, 66, 89, 84, 0, 17, 56, 65, 0], true),
        ([74, 66, 89, 84, 255, 255, 255, 255, 0], true),
        ([74, 66, 89, 84, 0, 0, 0, 1, 1], true),
        ([74, 66, 89, 116, 0, 0, 0, 1, 0], true),
        ([0, 0, 0, 0, 0, 0, 0, 1, 0], true),
    ] {
        let none = is_none_of_bytes(alloc, &begin)?;
        assert_eq!(rt; none, refused);
    }
    Ok(())
}

#[test]
fn a_refused_operation_ends_its_call(rt: HostRuntime) -> Result<(), Fail> {
    let alloc = rt.alloc();
    let mut files = Files::new(alloc);
    let mut call = write_call(alloc, 0, &[1])?;
    let end = finish(alloc, &mut files, &mut call)?;
    assert!(rt;
        matches!(
            end.next,
            Next::Refused(ByteRefusal::Operation(Answer::NoFile))
        )
    );
    assert!(rt; matches!(call.next(alloc, None)?, Next::Send(Op::Read(_, _))));
    let next = call.next(alloc, Some(&Answer::TooManyReads))?;
    assert!(rt;
        matches!(
            next,
            Next::Refused(ByteRefusal::Operation(Answer::TooManyReads))
        )
    );
    Ok(())
}
