//! Whole reports by hand, and forged ones.

use jn_base::{
    BlockContent, BlockNo, ByteCommand, ByteString, Call, Cause, ClientNo, Command, FaultKind,
    FileNo, LockUnit, NameCommand, Op, Resource, ServerNo, Tid,
};
use jn_causing::caused;
use jn_following::follows;
use jn_replay::Files;
use jn_report::{Line, Refusal, Text, When};
use jn_schedule::Event;
use jn_serial::{agrees, told};
use jn_showing::shown;
use std::alloc::{AllocError, Global};
use std::test::Fail;

const S0: ServerNo = ServerNo(0);

const S1: ServerNo = ServerNo(1);

const C1: ClientNo = ClientNo(1);

const C2: ClientNo = ClientNo(2);

const SEVEN: FileNo = FileNo(7);

const PAGE: LockUnit = LockUnit::Block(SEVEN, BlockNo(0));

/// The transaction of server 0, epoch 1, with this ticket.
fn tid(ticket: u32) -> Tid {
    Tid {
        server: S0,
        epoch: 1,
        ticket,
    }
}

/// A block that begins with these two bytes.
fn block(alloc: Global, first: u8, second: u8) -> Result<BlockContent, AllocError> {
    BlockContent::new(alloc, &[first, second])
}

/// What the definitions say of a report.
#[derive(Clone, Copy, PartialEq, Eq)]
struct Verdict {
    told: bool,
    caused: bool,
    follows: bool,
    shown: bool,
    agrees: bool,
}

const RIGHT: Verdict = Verdict {
    told: true,
    caused: true,
    follows: true,
    shown: true,
    agrees: true,
};

const NOT_TOLD: Verdict = Verdict {
    told: false,
    ..RIGHT
};

const NOT_CAUSED: Verdict = Verdict {
    caused: false,
    ..RIGHT
};

const NOT_FOLLOWING: Verdict = Verdict {
    follows: false,
    ..RIGHT
};

const NOT_SHOWN: Verdict = Verdict {
    shown: false,
    ..RIGHT
};

const NOT_AGREED: Verdict = Verdict {
    agrees: false,
    ..RIGHT
};

/// What they say of a report over no files.
fn judged(alloc: Global, events: &[Event], lines: &[Line]) -> Result<Verdict, AllocError> {
    let none = Files::new(alloc);
    Ok(Verdict {
        told: told(alloc, lines)?,
        caused: caused(events, lines),
        follows: follows(alloc, events, lines)?,
        shown: shown(alloc, &none, events, lines)?,
        agrees: agrees(alloc, &none, events, lines)?,
    })
}

/// What is forged in a report.
#[derive(Drop)]
enum Forgery {
    Nothing,
    /// The line at this place has another text.
    Text(usize, Text),
    /// One more line stands before the one at this place.
    Inserted(usize, Line),
}

/// The report with what is forged in it.
fn forged(alloc: Global, lines: &[Line], forgery: &Forgery) -> Result<Vec<Line>, AllocError> {
    let mut forged = joined(alloc, &[lines])?;
    match forgery {
        Forgery::Text(at, text) if *at < forged.len() => forged[*at].text = text.copy()?,
        Forgery::Inserted(at, line) if *at < forged.len() => forged.insert(*at, line.copy()?)?,
        _ => {}
    }
    Ok(forged)
}

/// The first forgery of which they say something else than is expected.
fn first_misjudged(
    alloc: Global,
    events: &[Event],
    lines: &[Line],
    expected: &[(Forgery, Verdict)],
) -> Result<Option<usize>, AllocError> {
    for (i, (forgery, verdict)) in expected.iter().enumerate() {
        let lines = forged(alloc, lines, forgery)?;
        if judged(alloc, events, &lines)? != *verdict {
            return Ok(Some(i));
        }
    }
    Ok(None)
}

/// A line at an event.
fn at(event: u32, text: Text) -> Line {
    Line {
        when: When::Event(event),
        text,
    }
}

fn at_end(text: Text) -> Line {
    Line {
        when: When::End,
        text,
    }
}

fn told_to(client: ClientNo, command: Command) -> Event {
    Event::Command(client, command)
}

/// A transaction that creates file 7 and writes its first block.
fn written(alloc: Global, content: BlockContent) -> Result<Vec<Event>, AllocError> {
    let listed = vec![in alloc;
        told_to(C1, Command::Begin(S0)),
        Event::Settle,
        told_to(C1, Command::Open(S0)),
        Event::Settle,
        told_to(C1, Command::Do(S0, Op::Create(SEVEN))),
        Event::Settle,
        told_to(C1, Command::Do(S0, Op::Write(SEVEN, BlockNo(0), content))),
        Event::Settle,
        told_to(C1, Command::End),
        Event::Settle,
    ]?;
    Ok(listed)
}

/// The lines of that transaction.
fn written_lines() -> [Line; 7] {
    [
        at(0, Text::Up(S0, 1)),
        at(2, Text::Begun(C1, 1, tid(0))),
        at(4, Text::Opened(C1, 3, S0)),
        at(6, Text::Did(C1, 5)),
        at(8, Text::Did(C1, 7)),
        at(10, Text::Commit(tid(0))),
        at(10, Text::Committed(C1, 9, tid(0))),
    ]
}

/// The lines of the end, where the file's block is this one.
fn end_lines(content: BlockContent, commits: u32) -> [Line; 5] {
    [
        at_end(Text::Down(S0)),
        at_end(Text::Up(S0, 2)),
        at_end(Text::File(S0, SEVEN)),
        at_end(Text::Page(S0, SEVEN, BlockNo(0), content)),
        at_end(Text::Commits(commits)),
    ]
}

fn joined(alloc: Global, parts: &[&[Line]]) -> Result<Vec<Line>, AllocError> {
    let mut lines = Vec::new(alloc);
    for part in parts {
        push_copies(&mut lines, part)?;
    }
    Ok(lines)
}

fn push_copies(lines: &mut Vec<Line>, part: &[Line]) -> Result<(), AllocError> {
    for line in part {
        lines.push(line.copy()?)?;
    }
    Ok(())
}

#[test]
fn a_commit(rt: HostRuntime) -> Result<(), Fail> {
    let alloc = rt.alloc();
    let content = block(alloc, 0x68, 0x69)?;
    let events = written(alloc, content.copy()?)?;
    let lines = joined(alloc, &[&written_lines(), &end_lines(content, 1)])?;
    let other = Text::Page(S0, SEVEN, BlockNo(0), block(alloc, 0x68, 0x68)?);
    let locked = Text::Locked(S0, PAGE, tid(0));
    let refused = Text::Refused(C1, 7, Refusal::NoFile);
    let expected = [
        (Forgery::Nothing, RIGHT),
        (Forgery::Text(10, other), NOT_SHOWN),
        (Forgery::Text(10, Text::Commits(1)), NOT_SHOWN),
        (Forgery::Text(10, locked), NOT_SHOWN),
        (Forgery::Text(4, refused), NOT_AGREED),
        (Forgery::Inserted(5, at(8, Text::Did(C1, 7))), NOT_FOLLOWING),
    ];
    assert_eq!(rt; first_misjudged(alloc, &events, &lines, &expected)?, None);
    Ok(())
}

/// A commit, a second writer of the block, a reader that is made vulnerable, and the writer's end.
fn broken_events(alloc: Global) -> Result<Vec<Event>, AllocError> {
    let mut events = written(alloc, block(alloc, 0x61, 0)?)?;
    let write = Op::Write(SEVEN, BlockNo(0), block(alloc, 0x62, 0)?);
    let more = vec![in alloc;
        told_to(C1, Command::Begin(S0)),
        Event::Settle,
        told_to(C1, Command::Open(S0)),
        Event::Settle,
        told_to(C1, Command::Do(S0, write)),
        Event::Settle,
        told_to(C2, Command::Begin(S0)),
        Event::Settle,
        told_to(C2, Command::Open(S0)),
        Event::Settle,
        told_to(C2, Command::Do(S0, Op::Read(SEVEN, BlockNo(0)))),
        Event::Settle,
        told_to(C1, Command::End),
        Event::Settle,
        Event::Timeout(S0, tid(4)),
        Event::Again(C1),
        Event::Settle,
        told_to(C2, Command::End),
        Event::Settle,
    ]?;
    for event in more {
        events.push(event)?;
    }
    Ok(events)
}

/// The lines of that, where the second transaction reads this.
fn broken_lines(read: BlockContent) -> [Line; 12] {
    [
        at(12, Text::Begun(C1, 11, tid(2))),
        at(14, Text::Opened(C1, 13, S0)),
        at(16, Text::Did(C1, 15)),
        at(18, Text::Begun(C2, 17, tid(4))),
        at(20, Text::Opened(C2, 19, S0)),
        at(22, Text::Read(C2, 21, read)),
        at(24, Text::Waiting(C1, 23, S0, PAGE, tid(4))),
        at(24, Text::Waiting(C1, 23, S0, PAGE, tid(4))),
        at(27, Text::Broke(S0, tid(4), PAGE, tid(2))),
        at(27, Text::Commit(tid(2))),
        at(27, Text::Committed(C1, 23, tid(2))),
        at(
            29,
            Text::Aborted(C2, 28, tid(4), Cause::Broken(S0, PAGE, tid(2))),
        ),
    ]
}

#[test]
fn a_broken_transaction(rt: HostRuntime) -> Result<(), Fail> {
    let alloc = rt.alloc();
    let events = broken_events(alloc)?;
    let broken = broken_lines(block(alloc, 0x61, 0)?);
    let end = end_lines(block(alloc, 0x62, 0)?, 2);
    let lines = joined(alloc, &[&written_lines(), &broken, &end])?;
    let elsewhere = Cause::Broken(S0, LockUnit::File(SEVEN), tid(2));
    let elsewhere = Text::Aborted(C2, 28, tid(4), elsewhere);
    let requested = Text::Aborted(C2, 28, tid(4), Cause::Requested);
    let expected = [
        (Forgery::Nothing, RIGHT),
        (
            Forgery::Inserted(14, at(24, Text::Commit(tid(4)))),
            NOT_TOLD,
        ),
        (Forgery::Text(18, elsewhere), NOT_CAUSED),
        (Forgery::Text(18, requested), NOT_CAUSED),
    ];
    assert_eq!(rt; first_misjudged(alloc, &events, &lines, &expected)?, None);
    Ok(())
}

/// A server that stops while the transaction ends.
fn lost_events(kind: FaultKind) -> [Event; 11] {
    [
        told_to(C1, Command::Begin(S0)),
        Event::Settle,
        told_to(C1, Command::Open(S0)),
        Event::Settle,
        told_to(C1, Command::Do(S0, Op::Create(SEVEN))),
        Event::Settle,
        Event::Arm(S0, 5, kind),
        told_to(C1, Command::End),
        Event::Settle,
        Event::Restart(S0),
        Event::Settle,
    ]
}

fn lost_lines() -> [Line; 12] {
    [
        at(0, Text::Up(S0, 1)),
        at(2, Text::Begun(C1, 1, tid(0))),
        at(4, Text::Opened(C1, 3, S0)),
        at(6, Text::Did(C1, 5)),
        at(9, Text::Stopped(S0)),
        at(9, Text::Lost(10)),
        at(10, Text::Up(S0, 2)),
        at(11, Text::Aborted(C1, 8, tid(0), Cause::Lost(S0))),
        at(11, Text::Ignored(13)),
        at_end(Text::Down(S0)),
        at_end(Text::Up(S0, 3)),
        at_end(Text::Commits(0)),
    ]
}

#[test]
fn a_lost_transaction(rt: HostRuntime) -> Result<(), Fail> {
    let alloc = rt.alloc();
    let lines = lost_lines();
    let events = lost_events(FaultKind::StopTorn);
    let expected = [
        (Forgery::Nothing, RIGHT),
        (Forgery::Inserted(5, at(9, Text::Stopped(S0))), NOT_CAUSED),
        (Forgery::Text(4, Text::Ignored(9)), NOT_CAUSED),
    ];
    assert_eq!(rt; first_misjudged(alloc, &events, &lines, &expected)?, None);
    let events = lost_events(FaultKind::Soft);
    assert!(rt; judged(alloc, &events, &lines)? == NOT_CAUSED);
    Ok(())
}

fn full_events() -> [Event; 8] {
    [
        told_to(C1, Command::Begin(S1)),
        Event::Settle,
        told_to(C1, Command::Open(S0)),
        Event::Settle,
        told_to(C1, Command::Do(S0, Op::Create(SEVEN))),
        Event::Settle,
        told_to(C1, Command::End),
        Event::Settle,
    ]
}

/// The report of a transaction that finds no room, with this line for its abort.
fn full_lines(aborted: Text) -> [Line; 11] {
    let begun = Tid {
        server: S1,
        epoch: 1,
        ticket: 0,
    };
    [
        at(0, Text::Up(S0, 1)),
        at(0, Text::Up(S1, 1)),
        at(2, Text::Begun(C1, 1, begun)),
        at(4, Text::Opened(C1, 3, S0)),
        at(6, Text::Did(C1, 5)),
        at(8, aborted),
        at_end(Text::Down(S0)),
        at_end(Text::Down(S1)),
        at_end(Text::Up(S0, 2)),
        at_end(Text::Up(S1, 2)),
        at_end(Text::Commits(0)),
    ]
}

#[test]
fn a_transaction_without_room(rt: HostRuntime) -> Result<(), Fail> {
    let alloc = rt.alloc();
    let begun = Tid {
        server: S1,
        epoch: 1,
        ticket: 0,
    };
    let full = Text::Aborted(C1, 7, begun, Cause::Full(S0, Resource::Records, 1, 2));
    let enough = Text::Aborted(C1, 7, begun, Cause::Full(S0, Resource::Records, 2, 2));
    let replaced = Text::Aborted(C1, 5, begun, Cause::Full(S0, Resource::Records, 1, 2));
    let expected = [
        (Forgery::Nothing, RIGHT),
        (Forgery::Text(5, enough), NOT_CAUSED),
        (Forgery::Text(5, replaced), NOT_FOLLOWING),
    ];
    let misjudged = first_misjudged(alloc, &full_events(), &full_lines(full), &expected)?;
    assert_eq!(rt; misjudged, None);
    Ok(())
}

/// A client begins, and is told to do one thing more.
fn begun_then(command: Command) -> [Event; 4] {
    [
        told_to(C1, Command::Begin(S0)),
        Event::Settle,
        told_to(C1, command),
        Event::Settle,
    ]
}

#[test]
fn an_abort_that_was_asked_for(rt: HostRuntime) -> Result<(), Fail> {
    let alloc = rt.alloc();
    let lines = [
        at(0, Text::Up(S0, 1)),
        at(2, Text::Begun(C1, 1, tid(0))),
        at(4, Text::Aborted(C1, 3, tid(0), Cause::Requested)),
    ];
    let events = begun_then(Command::Abort);
    assert!(rt; judged(alloc, &events, &lines)? == RIGHT);
    let events = begun_then(Command::End);
    assert!(rt; judged(alloc, &events, &lines)? == NOT_CAUSED);
    Ok(())
}

#[test]
fn shows(rt: HostRuntime) -> Result<(), Fail> {
    let alloc = rt.alloc();
    let content = block(alloc, 0x68, 0x69)?;
    let mut events = written(alloc, content.copy()?)?;
    events.push(Event::Show(S0))?;
    let shown = [
        at(11, Text::File(S0, SEVEN)),
        at(11, Text::Page(S0, SEVEN, BlockNo(0), content.copy()?)),
    ];
    let lines = joined(alloc, &[&written_lines(), &shown, &end_lines(content, 1)])?;
    let locked = Text::Locked(S0, PAGE, tid(0));
    let expected = [
        (Forgery::Nothing, RIGHT),
        (Forgery::Text(8, locked), RIGHT),
        (Forgery::Text(7, Text::File(S1, SEVEN)), NOT_SHOWN),
        (Forgery::Text(8, Text::Ignored(0)), NOT_SHOWN),
    ];
    assert_eq!(rt; first_misjudged(alloc, &events, &lines, &expected)?, None);
    Ok(())
}

fn string(alloc: Global, bytes: &[u8]) -> Result<ByteString, AllocError> {
    ByteString::new(alloc, Vec::from_slice(alloc, bytes)?)
}

/// A transaction that creates file 7 and makes two calls.
fn called(alloc: Global, first: Call, second: Call) -> Result<Vec<Event>, AllocError> {
    let listed = vec![in alloc;
        told_to(C1, Command::Begin(S0)),
        Event::Settle,
        told_to(C1, Command::Open(S0)),
        Event::Settle,
        told_to(C1, Command::Do(S0, Op::Create(SEVEN))),
        Event::Settle,
        Event::Call(C1, S0, first),
        Event::Settle,
        Event::Call(C1, S0, second),
        Event::Settle,
        told_to(C1, Command::End),
        Event::Settle,
    ]?;
    Ok(listed)
}

/// The lines of that transaction, where the second call is answered so.
fn called_lines(answer: Text) -> [Line; 7] {
    [
        at(2, Text::Begun(C1, 1, tid(0))),
        at(4, Text::Opened(C1, 3, S0)),
        at(6, Text::Did(C1, 5)),
        at(8, Text::Did(C1, 7)),
        at(10, answer),
        at(12, Text::Commit(tid(0))),
        at(12, Text::Committed(C1, 11, tid(0))),
    ]
}

/// The lines of the end, where the file has bytes: its length, and the bytes.
fn byte_lines(length: BlockContent, bytes: BlockContent) -> [Line; 5] {
    [
        at_end(Text::Down(S0)),
        at_end(Text::File(S0, SEVEN)),
        at_end(Text::Page(S0, SEVEN, BlockNo(0), length)),
        at_end(Text::Page(S0, SEVEN, BlockNo(1), bytes)),
        at_end(Text::Commits(1)),
    ]
}

/// Three bytes are written, and ten are asked for.
#[test]
fn bytes_in_a_commit(rt: HostRuntime) -> Result<(), Fail> {
    let alloc = rt.alloc();
    let write = Call::OfBytes(ByteCommand::WriteBytes(SEVEN, 0, string(alloc, &[0x61, 0x62, 0])?));
    let events = called(
        alloc,
        write,
        Call::OfBytes(ByteCommand::ReadBytes(SEVEN, 0, 10)),
    )?;
    let right = Text::Bytes(C1, 9, string(alloc, &[0x61, 0x62, 0])?);
    let length = BlockContent::new(alloc, &[0x4a, 0x42, 0x59, 0x54, 0, 0, 0, 3])?;
    let end = byte_lines(length, block(alloc, 0x61, 0x62)?);
    let lines = joined(alloc, &[&called_lines(right.copy()?), &end])?;
    let changed = Text::Bytes(C1, 9, string(alloc, &[0x61, 0x63, 0])?);
    let short = Text::Bytes(C1, 9, string(alloc, &[0x61, 0x62])?);
    let elsewhere = Text::Bytes(C1, 7, string(alloc, &[0x61, 0x62, 0])?);
    let page = Text::Page(S0, SEVEN, BlockNo(1), block(alloc, 0x61, 0x63)?);
    let expected = [
        (Forgery::Nothing, RIGHT),
        (Forgery::Text(4, changed), NOT_AGREED),
        (Forgery::Text(4, short), NOT_AGREED),
        (
            Forgery::Text(4, Text::Refused(C1, 9, Refusal::NotBytes)),
            NOT_AGREED,
        ),
        (Forgery::Text(4, elsewhere), NOT_FOLLOWING),
        (
            Forgery::Text(4, Text::Refused(C1, 9, Refusal::TooManyWrites)),
            NOT_FOLLOWING,
        ),
        (Forgery::Inserted(5, at(10, right)), NOT_FOLLOWING),
        (Forgery::Text(10, page), NOT_SHOWN),
    ];
    assert_eq!(rt; first_misjudged(alloc, &events, &lines, &expected)?, None);
    Ok(())
}

/// Whether the order of commits lists a name, which was bound before.
fn lists_names(alloc: Global, name: &[u8], listed: Text) -> Result<bool, AllocError> {
    let bind = NameCommand::Bind(SEVEN, string(alloc, name)?, FileNo(9));
    let events = called(
        alloc,
        Call::OfNames(bind),
        Call::OfNames(NameCommand::Names(SEVEN)),
    )?;
    let inserted = Forgery::Inserted(4, at(10, listed));
    let lines = forged(alloc, &called_lines(Text::Did(C1, 9)), &inserted)?;
    let none = Files::new(alloc);
    agrees(alloc, &none, &events, &lines)
}

#[test]
fn names_in_a_commit(rt: HostRuntime) -> Result<(), Fail> {
    let alloc = rt.alloc();
    let listed = Text::Name(C1, 9, string(alloc, b"a.b")?, FileNo(9));
    assert!(rt; lists_names(alloc, b"a.b", listed)?);
    let other = Text::Name(C1, 9, string(alloc, b"a.c")?, FileNo(9));
    assert!(rt; !lists_names(alloc, b"a.b", other)?);
    // A call whose name is none counts for nothing, and a line whose name is none lists nothing.
    let none = Text::Name(C1, 9, string(alloc, b"A")?, FileNo(9));
    assert!(rt; lists_names(alloc, b"A", none)?);
    Ok(())
}
