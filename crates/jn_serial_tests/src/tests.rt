//! Operations and a report by hand.

use jn_base::{Answer, BlockContent, BlockNo, ClientNo, Command, FileNo, Op, ServerNo, Tid};
use jn_replay::{Files, do_op};
use jn_report::{Line, Refusal, Text, When};
use jn_schedule::Event;
use jn_serial::{agrees, history, operations_of, replay, told};
use std::alloc::{AllocError, Global};
use std::test::Fail;

const FIRST: ServerNo = ServerNo(0);

const SEVEN: FileNo = FileNo(7);

const CLIENT: ClientNo = ClientNo(1);

const BEGUN: Tid = Tid {
    server: FIRST,
    epoch: 1,
    ticket: 0,
};

/// An operation, of a write the first byte alone.
#[derive(Clone, Copy)]
enum ShortOp {
    Create(FileNo),
    Remove(FileNo),
    Cut(FileNo, u16),
    Read(FileNo, u16),
    Write(FileNo, u16, u8),
}

impl ShortOp {
    fn whole(self, alloc: Global) -> Result<Op, AllocError> {
        Ok(match self {
            ShortOp::Create(f) => Op::Create(f),
            ShortOp::Remove(f) => Op::Remove(f),
            ShortOp::Cut(f, n) => Op::Cut(f, BlockNo(n)),
            ShortOp::Read(f, p) => Op::Read(f, BlockNo(p)),
            ShortOp::Write(f, p, byte) => {
                Op::Write(f, BlockNo(p), BlockContent::new(alloc, &[byte])?)
            }
        })
    }
}

/// An answer in short: its kind, with the first byte that was read.
fn short(answer: &Answer) -> (char, u8) {
    match answer {
        Answer::Did => ('d', 0),
        Answer::Read(content) => ('r', content.to_block()[0]),
        Answer::NoFile => ('n', 0),
        Answer::Exists => ('e', 0),
        _ => ('?', 0),
    }
}

#[test]
fn operations_in_a_row(rt: HostRuntime) -> Result<(), Fail> {
    let alloc = rt.alloc();
    let mut files = Files::new(alloc);
    let other = FileNo(8);
    for (op, want) in [
        (ShortOp::Write(SEVEN, 0, 1), ('n', 0)),
        (ShortOp::Create(SEVEN), ('d', 0)),
        (ShortOp::Create(SEVEN), ('e', 0)),
        (ShortOp::Write(other, 0, 1), ('n', 0)),
        (ShortOp::Read(SEVEN, 0), ('r', 0)),
        (ShortOp::Write(SEVEN, 0, 1), ('d', 0)),
        (ShortOp::Write(SEVEN, 2, 2), ('d', 0)),
        (ShortOp::Write(SEVEN, 0, 3), ('d', 0)),
        (ShortOp::Read(SEVEN, 0), ('r', 3)),
        (ShortOp::Cut(SEVEN, 2), ('d', 0)),
        (ShortOp::Read(SEVEN, 2), ('r', 0)),
        (ShortOp::Read(SEVEN, 0), ('r', 3)),
        (ShortOp::Cut(other, 0), ('n', 0)),
        (ShortOp::Remove(SEVEN), ('d', 0)),
        (ShortOp::Read(SEVEN, 0), ('n', 0)),
        (ShortOp::Remove(SEVEN), ('n', 0)),
        (ShortOp::Create(SEVEN), ('d', 0)),
        (ShortOp::Read(SEVEN, 0), ('r', 0)),
    ] {
        let answer = do_op(alloc, &mut files, FIRST, &op.whole(alloc)?)?;
        assert!(rt; short(&answer) == want);
    }
    let elsewhere = do_op(alloc, &mut files, ServerNo(1), &Op::Remove(SEVEN))?;
    assert!(rt; short(&elsewhere) == ('n', 0));
    Ok(())
}

fn schedule(alloc: Global) -> Result<[Event; 10], AllocError> {
    let content = BlockContent::new(alloc, &[0x68, 0x69])?;
    let write = Op::Write(SEVEN, BlockNo(0), content);
    Ok([
        Event::Command(CLIENT, Command::Begin(FIRST)),
        Event::Settle,
        Event::Command(CLIENT, Command::Open(FIRST)),
        Event::Settle,
        Event::Command(CLIENT, Command::Do(FIRST, Op::Create(SEVEN))),
        Event::Settle,
        Event::Command(CLIENT, Command::Do(FIRST, write)),
        Event::Settle,
        Event::Command(CLIENT, Command::End),
        Event::Settle,
    ])
}

/// The report, with this answer to the write and so many lines that name the commit.
fn report(alloc: Global, write: Text, commits: u8) -> Result<Vec<Line>, AllocError> {
    let mut lines = Vec::new(alloc);
    for (event, text) in [
        (2, Text::Begun(CLIENT, 1, BEGUN)),
        (4, Text::Opened(CLIENT, 3, FIRST)),
        (6, Text::Did(CLIENT, 5)),
        (8, write),
    ] {
        lines.push(Line {
            when: When::Event(event),
            text,
        })?;
    }
    for _ in 0..commits {
        lines.push(Line {
            when: When::Event(10),
            text: Text::Commit(BEGUN),
        })?;
    }
    lines.push(Line {
        when: When::Event(10),
        text: Text::Committed(CLIENT, 9, BEGUN),
    })?;
    Ok(lines)
}

/// What `agrees` and `told` say of that report, on no files.
fn verdicts(alloc: Global, write: Text, commits: u8) -> Result<(bool, bool), AllocError> {
    let files = Files::new(alloc);
    let lines = report(alloc, write, commits)?;
    let agrees_with = agrees(alloc, &files, &schedule(alloc)?, &lines)?;
    Ok((agrees_with, told(alloc, &lines)?))
}

#[test]
fn reports(rt: HostRuntime) -> Result<(), Fail> {
    for (write, commits, want) in [
        (Text::Did(CLIENT, 7), 1, (true, true)),
        (Text::Refused(CLIENT, 7, Refusal::NoFile), 1, (false, true)),
        (Text::Did(CLIENT, 7), 0, (true, false)),
        (Text::Did(CLIENT, 7), 2, (false, false)),
    ] {
        let said = verdicts(rt.alloc(), write, commits)?;
        assert!(rt; said == want);
    }
    Ok(())
}

/// The files after the transactions that the report names, and how many operations its own did.
fn replayed(alloc: Global) -> Result<(Files, usize), AllocError> {
    let events = schedule(alloc)?;
    let lines = report(alloc, Text::Did(CLIENT, 7), 1)?;
    let named = history(alloc, &lines)?;
    let ops = operations_of(alloc, &events, &lines, BEGUN)?;
    let after = replay(alloc, &Files::new(alloc), &events, &lines, &named)?;
    Ok((after, ops.len()))
}

#[test]
fn a_report_replayed(rt: HostRuntime) -> Result<(), Fail> {
    let (mut after, ops) = replayed(rt.alloc())?;
    assert_eq!(rt; ops, 2);
    let read = Op::Read(SEVEN, BlockNo(0));
    let answer = do_op(rt.alloc(), &mut after, FIRST, &read)?;
    assert!(rt; short(&answer) == ('r', 0x68));
    Ok(())
}
