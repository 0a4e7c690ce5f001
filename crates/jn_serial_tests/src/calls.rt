//! What clients may call, copied, and the lines that will answer calls, as they are spelled.

use jn_base::{ByteCommand, ByteString, Call, ClientNo, FileNo, NameCommand};
use jn_report::{Line, Refusal, Text, When, push_line};
use std::alloc::{AllocError, Global};
use std::test::Fail;

const C1: ClientNo = ClientNo(1);

const LAST: FileNo = FileNo(u32::MAX);

fn string(alloc: Global, bytes: &[u8]) -> Result<ByteString, AllocError> {
    ByteString::new(alloc, Vec::from_slice(alloc, bytes)?)
}

/// A call of each kind, by a number from 0.
fn call(alloc: Global, number: usize) -> Result<Call, AllocError> {
    Ok(match number {
        0 => Call::OfBytes(ByteCommand::ReadBytes(LAST, 1_128_512, 4480)),
        1 => Call::OfBytes(ByteCommand::WriteBytes(LAST, 9, string(alloc, &[0, 1])?)),
        2 => Call::OfNames(NameCommand::Bind(LAST, string(alloc, b"a.b")?, FileNo(0))),
        3 => Call::OfNames(NameCommand::Unbind(LAST, string(alloc, b"a.b")?)),
        4 => Call::OfNames(NameCommand::Find(LAST, string(alloc, b"a.b")?)),
        _ => Call::OfNames(NameCommand::Names(LAST)),
    })
}

/// Whether it is the call of this number.
fn is_call(call: &Call, number: usize) -> bool {
    match call {
        Call::OfBytes(ByteCommand::ReadBytes(f, offset, count)) => {
            number == 0 && *f == LAST && *offset == 1_128_512 && *count == 4480
        }
        Call::OfBytes(ByteCommand::WriteBytes(f, offset, bytes)) => {
            number == 1 && *f == LAST && *offset == 9 && bytes.as_slice() == [0, 1].as_slice()
        }
        Call::OfNames(NameCommand::Bind(d, name, f)) => {
            number == 2 && *d == LAST && name.as_slice() == b"a.b".as_slice() && f.0 == 0
        }
        Call::OfNames(NameCommand::Unbind(d, name)) => {
            number == 3 && *d == LAST && name.as_slice() == b"a.b".as_slice()
        }
        Call::OfNames(NameCommand::Find(d, name)) => {
            number == 4 && *d == LAST && name.as_slice() == b"a.b".as_slice()
        }
        Call::OfNames(NameCommand::Names(d)) => number == 5 && *d == LAST,
    }
}

#[test]
fn calls_are_copied(rt: HostRuntime) -> Result<(), Fail> {
    let alloc = rt.alloc();
    for number in 0..6 {
        let copy = call(alloc, number)?.copy()?;
        assert!(rt; is_call(&copy, number), "call {number}");
    }
    Ok(())
}

/// What answers a call, by a number from 0.
fn answer(alloc: Global, number: usize) -> Result<Text, AllocError> {
    Ok(match number {
        0 => Text::Bytes(C1, 7, string(alloc, &[0, 0x6a, 0xff, 0])?),
        1 => Text::Bytes(C1, 7, string(alloc, &[])?),
        2 => Text::Found(C1, 7, LAST),
        3 => Text::Name(C1, 7, string(alloc, b"a.z_0-9")?, FileNo(0)),
        4 => Text::Refused(C1, 7, Refusal::Spoiled),
        5 => Text::Refused(C1, 7, Refusal::NotBytes),
        6 => Text::Refused(C1, 7, Refusal::TooFar),
        7 => Text::Refused(C1, 7, Refusal::PastEnd(1_128_512)),
        8 => Text::Refused(C1, 7, Refusal::BucketFull),
        9 => Text::Refused(C1, 7, Refusal::NoName),
        _ => Text::Refused(C1, 7, Refusal::NotDirectory),
    })
}

/// The lines that say so, at event 8.
const SPELLED: [&[u8]; 11] = [
    b"8: c1 bytes 7 006aff00\n",
    b"8: c1 bytes 7 -\n",
    b"8: c1 found 7 4294967295\n",
    b"8: c1 name 7 a.z_0-9 0\n",
    b"8: c1 refused 7 7\n",
    b"8: c1 refused 7 51\n",
    b"8: c1 refused 7 52\n",
    b"8: c1 refused 7 53 1128512\n",
    b"8: c1 refused 7 54\n",
    b"8: c1 refused 7 55\n",
    b"8: c1 refused 7 56\n",
];

#[test]
fn answers_to_calls_are_spelled(rt: HostRuntime) -> Result<(), Fail> {
    let alloc = rt.alloc();
    for number in 0..11 {
        let line = Line {
            when: When::Event(8),
            text: answer(alloc, number)?,
        };
        let mut text = Vec::new(alloc);
        push_line(&mut text, &line.copy()?)?;
        assert!(rt; text.as_slice() == SPELLED[number], "answer {number}");
    }
    Ok(())
}
