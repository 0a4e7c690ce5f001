//! One server on a stream, with source, sink and keeper in memory, so that what each has is told: how it ends by what it is given, and what it writes. The
//! bytes are those of the pages on frames, written by hand.

use crate::{Call, Failing, Images, ending_of, first_images};
use jn_run::Status;
use std::alloc::{AllocError, Global};
use std::test::Fail;

/// The images of servers with few pages, each in its epoch 2.
const FIRST: &[&str] = &[
    "juniper",
    "run",
    "--servers",
    "2",
    "--pool",
    "4",
    "--heads",
    "2",
    "--data",
    "4",
    "--out",
    "a",
];

const WORDS: &[&str] = &["juniper", "node", "0", "--in", "a", "--out", "b"];

/// Client 1 asks for a transaction, ends it, which has no work, and gives thanks for its outcome: 12, 22 and 17 bytes.
const STREAM: &[u8] = b"\x00\x0a\x01\x01\x02\x00\x01\x01\x00\x00\x00\x01\
\x00\x14\x01\x01\x02\x00\x04\x01\x00\x00\x00\x02\x00\x00\x00\x00\x03\x00\x00\x00\x00\x00\
\x00\x0f\x01\x01\x02\x00\x06\x01\x00\x00\x00\x00\x03\x00\x00\x00\x00";

/// It is told that the transaction has begun, by its name, and that it is committed: 22 and 18 bytes.
const ANSWERS: &[u8] =
    b"\x00\x14\x02\x00\x01\x01\x07\x01\x00\x00\x00\x01\x00\x00\x00\x00\x00\x03\x00\x00\x00\x00\
\x00\x10\x02\x00\x01\x01\x0a\x01\x00\x00\x00\x00\x03\x00\x00\x00\x00\x00";

const MISSING: &[u8] = b"refused: image 0 missing\n";

/// How much of the stream a node is given, and which call of its outside fails; how it is to end, and how much of the answers it is to write.
#[derive(Clone, Copy)]
struct Case {
    given: usize,
    failing: Failing,
    status: Status,
    written: usize,
}

/// The stream has at most 51 bytes, which are read at once, and then its end is read. Each answer is written at once. Two images are laid down before, so
/// the third save is the node's.
fn case_of(number: u8) -> Case {
    let (given, failing, status, written) = match number {
        0 => (51, Failing::Nothing, Status::Done, 40),
        1 => (34, Failing::Nothing, Status::Unsettled, 40),
        2 => (50, Failing::Nothing, Status::Frame, 40),
        3 => (51, Failing::Read(1), Status::Read, 0),
        4 => (51, Failing::Read(2), Status::Read, 40),
        5 => (51, Failing::Write(2), Status::Write, 22),
        6 => (51, Failing::Load(1), Status::Keep, 0),
        _ => (51, Failing::Save(3), Status::Keep, 40),
    };
    Case {
        given,
        failing,
        status,
        written,
    }
}

fn front(bytes: &[u8], count: usize) -> &[u8] {
    &bytes[..count.min(bytes.len())]
}

/// Whether a node ends so, and has written exactly that.
fn ends_so(alloc: Global, case: Case, images: &Images) -> Result<bool, AllocError> {
    let call = Call {
        words: WORDS,
        schedule: front(STREAM, case.given),
        failing: case.failing,
    };
    let (status, taken) = ending_of(alloc, &call, Some(images))?;
    Ok(status == case.status && taken.as_slice() == front(ANSWERS, case.written))
}

/// The first case that ends otherwise.
fn first_wrong(alloc: Global, images: &Images) -> Result<Option<u8>, AllocError> {
    for number in 0..8_u8 {
        if !ends_so(alloc, case_of(number), images)? {
            return Ok(Some(number));
        }
    }
    Ok(None)
}

#[test]
fn a_node_ends_by_what_it_is_given(rt: HostRuntime) -> Result<(), Fail> {
    let alloc = rt.alloc();
    let first = Call {
        words: FIRST,
        schedule: b"",
        failing: Failing::Nothing,
    };
    let images = first_images(alloc, &first)?;
    assert_eq!(rt; first_wrong(alloc, &images)?, None);
    Ok(())
}

// Nothing is read before the image is found, so no read fails.
#[test]
fn a_node_without_an_image_is_refused(rt: HostRuntime) -> Result<(), Fail> {
    let alloc = rt.alloc();
    let call = Call {
        words: WORDS,
        schedule: STREAM,
        failing: Failing::Read(1),
    };
    let (status, taken) = ending_of(alloc, &call, None)?;
    assert_eq!(rt; status, Status::Image);
    assert!(rt; taken.as_slice() == MISSING);
    Ok(())
}
