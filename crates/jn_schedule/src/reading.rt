//! The event that the words of a line spell.
ghost use Rattle.std.specs.Prelude.{◌≡◌};
ghost use Rattle.jn_schedule.specs.Reading as reads;
ghost use Rattle.jn_schedule.specs.Reading.{texts};

use crate::Event;
use crate::fault::{LineFault, ReadFault};
use crate::word::{
    block_no_of, bytes_of, client_of, file_of, name_of, page_of, server_of, value_of,
};
use jn_base::{BlockNo, ClientNo, Command, FaultKind, FileNo, Op, ServerNo, Tid};
use std::alloc::Global;

/// How many messages a schedule can name.
const LAST_MESSAGE: u32 = 999_999;

/// The farthest call of a device for which a fault waits.
const LAST_CALL: u32 = 1_000_000;

/// The word behind a client's name, but `again`.
#[derive(Clone, Copy)]
enum Verb {
    Begin,
    Open,
    Create,
    Remove,
    Cut,
    Read,
    Write,
    End,
    Abort,
}

/// The first word of an event of no client, but `arm`.
#[derive(Clone, Copy)]
enum Opening {
    Deliver,
    Settle,
    Step,
    Nudge,
    Timeout,
    Scrub,
    Decay,
    Revive,
    Crash,
    Restart,
    Show,
}

/// The word of a fault that is armed: the fault, or one that a page follows.
#[derive(Clone, Copy)]
enum Kind {
    Alone(FaultKind),
    Decay,
    Revive,
}

/// The event that the words of a line spell, or what is wrong with them.
#[tactic(auto, unfolding(crate::specs::Reading::event_of, crate::specs::Reading::by_client))]
pub fn event_of(alloc: Global, words: &[&[u8]]) -> Result<Event, ReadFault>
    ensures { reads.TellsRead result (reads.event_of (texts words.now)) }
{
    let [first, args @ ..] = words else {
        return Err(ReadFault::Line(LineFault::Count));
    };
    if let Some(client) = client_of(first) {
        return client_event(alloc, client, args);
    }
    Ok(no_client_event(first, args)?)
}

#[tactic(auto, unfolding(crate::specs::Reading::no_client_event))]
fn no_client_event(first: &[u8], args: &[&[u8]]) -> Result<Event, LineFault>
    ensures { result ≡ reads.no_client_event first.now (texts args.now) }
{
    if first == b"arm".as_slice() {
        return arm_of(args);
    }
    let opening = opening_of(first).ok_or(LineFault::Keyword)?;
    other_event(opening, args)
}

#[tactic(auto, unfolding(crate::specs::Reading::client_event))]
fn client_event(alloc: Global, client: ClientNo, words: &[&[u8]]) -> Result<Event, ReadFault>
    ensures { reads.TellsRead result (reads.client_event client (texts words.now)) }
{
    let [first, args @ ..] = words else {
        return Err(ReadFault::Line(LineFault::Count));
    };
    if *first == b"again".as_slice() {
        nothing(args)?;
        return Ok(Event::Again(client));
    }
    let verb = verb_of(first).ok_or(LineFault::Keyword)?;
    let command = command_of(alloc, verb, args)?;
    Ok(Event::Command(client, command))
}

#[tactic(auto, unfolding(crate::specs::Reading::verb_of))]
fn verb_of(word: &[u8]) -> Option<Verb>
    ensures { result ≡ reads.verb_of word.now }
{
    if word == b"begin".as_slice() {
        return Some(Verb::Begin);
    }
    if word == b"open".as_slice() {
        return Some(Verb::Open);
    }
    if word == b"create".as_slice() {
        return Some(Verb::Create);
    }
    if word == b"remove".as_slice() {
        return Some(Verb::Remove);
    }
    if word == b"cut".as_slice() {
        return Some(Verb::Cut);
    }
    if word == b"read".as_slice() {
        return Some(Verb::Read);
    }
    if word == b"write".as_slice() {
        return Some(Verb::Write);
    }
    if word == b"end".as_slice() {
        return Some(Verb::End);
    }
    if word == b"abort".as_slice() {
        return Some(Verb::Abort);
    }
    None
}

#[tactic(auto, unfolding(crate::specs::Reading::command_of))]
fn command_of(alloc: Global, verb: Verb, args: &[&[u8]]) -> Result<Command, ReadFault>
    ensures { reads.TellsRead result (reads.command_of verb (texts args.now)) }
{
    match verb {
        Verb::Begin => Ok(Command::Begin(server_alone(args)?)),
        Verb::Open => Ok(Command::Open(server_alone(args)?)),
        Verb::Create => {
            let (server, file) = server_file(args)?;
            Ok(Command::Do(server, Op::Create(file)))
        }
        Verb::Remove => {
            let (server, file) = server_file(args)?;
            Ok(Command::Do(server, Op::Remove(file)))
        }
        Verb::Cut => {
            let (server, file, block) = server_file_block(args)?;
            Ok(Command::Do(server, Op::Cut(file, block)))
        }
        Verb::Read => {
            let (server, file, block) = server_file_block(args)?;
            Ok(Command::Do(server, Op::Read(file, block)))
        }
        Verb::Write => written(alloc, args),
        Verb::End => {
            nothing(args)?;
            Ok(Command::End)
        }
        Verb::Abort => {
            nothing(args)?;
            Ok(Command::Abort)
        }
    }
}

/// A fault waits: its server, the call, and its kind.
#[tactic(auto, unfolding(crate::specs::Reading::arm_of))]
fn arm_of(words: &[&[u8]]) -> Result<Event, LineFault>
    ensures { result ≡ reads.arm_of (texts words.now) }
{
    let [server, call, kind, args @ ..] = words else {
        return Err(LineFault::Count);
    };
    let kind = kind_of(kind).ok_or(LineFault::Keyword)?;
    has_count(kind, args)?;
    let server = server_of(server)?;
    let call = value_of(call, 1, LAST_CALL)?;
    let fault = fault_kind_of(kind, args)?;
    Ok(Event::Arm(server, call, fault))
}

#[tactic(auto, unfolding(crate::specs::Reading::kind_of))]
fn kind_of(word: &[u8]) -> Option<Kind>
    ensures { result ≡ reads.kind_of word.now }
{
    if word == b"soft".as_slice() {
        return Some(Kind::Alone(FaultKind::Soft));
    }
    if word == b"null".as_slice() {
        return Some(Kind::Alone(FaultKind::Null));
    }
    if word == b"bad".as_slice() {
        return Some(Kind::Alone(FaultKind::Bad));
    }
    if word == b"stop-before".as_slice() {
        return Some(Kind::Alone(FaultKind::StopBefore));
    }
    if word == b"stop-torn".as_slice() {
        return Some(Kind::Alone(FaultKind::StopTorn));
    }
    if word == b"stop-after".as_slice() {
        return Some(Kind::Alone(FaultKind::StopAfter));
    }
    if word == b"decay".as_slice() {
        return Some(Kind::Decay);
    }
    if word == b"revive".as_slice() {
        return Some(Kind::Revive);
    }
    None
}

/// Whether as many words follow the fault's word as it asks for.
#[tactic(auto, unfolding(crate::specs::Reading::has_count))]
fn has_count(kind: Kind, args: &[&[u8]]) -> Result<(), LineFault>
    ensures { result ≡ reads.has_count kind (texts args.now) }
{
    match kind {
        Kind::Alone(_) => nothing(args),
        Kind::Decay | Kind::Revive => one(args),
    }
}

#[tactic(auto, unfolding(crate::specs::Reading::fault_kind_of))]
fn fault_kind_of(kind: Kind, args: &[&[u8]]) -> Result<FaultKind, LineFault>
    ensures { result ≡ reads.fault_kind_of kind (texts args.now) }
{
    match kind {
        Kind::Alone(fault) => {
            nothing(args)?;
            Ok(fault)
        }
        Kind::Decay => Ok(FaultKind::Decay(page_alone(args)?)),
        Kind::Revive => Ok(FaultKind::Revive(page_alone(args)?)),
    }
}

#[tactic(auto, unfolding(crate::specs::Reading::opening_of))]
fn opening_of(word: &[u8]) -> Option<Opening>
    ensures { result ≡ reads.opening_of word.now }
{
    if word == b"deliver".as_slice() {
        return Some(Opening::Deliver);
    }
    if word == b"settle".as_slice() {
        return Some(Opening::Settle);
    }
    if word == b"step".as_slice() {
        return Some(Opening::Step);
    }
    if word == b"nudge".as_slice() {
        return Some(Opening::Nudge);
    }
    if word == b"timeout".as_slice() {
        return Some(Opening::Timeout);
    }
    if word == b"scrub".as_slice() {
        return Some(Opening::Scrub);
    }
    if word == b"decay".as_slice() {
        return Some(Opening::Decay);
    }
    if word == b"revive".as_slice() {
        return Some(Opening::Revive);
    }
    if word == b"crash".as_slice() {
        return Some(Opening::Crash);
    }
    if word == b"restart".as_slice() {
        return Some(Opening::Restart);
    }
    if word == b"show".as_slice() {
        return Some(Opening::Show);
    }
    None
}

#[tactic(auto, unfolding(crate::specs::Reading::other_event))]
fn other_event(opening: Opening, args: &[&[u8]]) -> Result<Event, LineFault>
    ensures { result ≡ reads.other_event opening (texts args.now) }
{
    match opening {
        Opening::Deliver => Ok(Event::Deliver(message_alone(args)?)),
        Opening::Settle => {
            nothing(args)?;
            Ok(Event::Settle)
        }
        Opening::Step => Ok(Event::Step(server_alone(args)?)),
        Opening::Nudge => Ok(Event::Nudge(server_alone(args)?)),
        Opening::Timeout => {
            let (server, name) = server_name(args)?;
            Ok(Event::Timeout(server, name))
        }
        Opening::Scrub => Ok(Event::Scrub(server_alone(args)?)),
        Opening::Decay => {
            let (server, page) = server_page(args)?;
            Ok(Event::Decay(server, page))
        }
        Opening::Revive => {
            let (server, page) = server_page(args)?;
            Ok(Event::Revive(server, page))
        }
        Opening::Crash => Ok(Event::Crash(server_alone(args)?)),
        Opening::Restart => Ok(Event::Restart(server_alone(args)?)),
        Opening::Show => Ok(Event::Show(server_alone(args)?)),
    }
}

#[tactic(auto, unfolding(crate::specs::Reading::nothing))]
fn nothing(args: &[&[u8]]) -> Result<(), LineFault>
    ensures { result ≡ reads.nothing (texts args.now) }
{
    match args {
        [] => Ok(()),
        _ => Err(LineFault::Count),
    }
}

#[tactic(auto, unfolding(crate::specs::Reading::one))]
fn one(args: &[&[u8]]) -> Result<(), LineFault>
    ensures { result ≡ reads.one (texts args.now) }
{
    match args {
        [_] => Ok(()),
        _ => Err(LineFault::Count),
    }
}

#[tactic(auto, unfolding(crate::specs::Reading::server_alone))]
fn server_alone(args: &[&[u8]]) -> Result<ServerNo, LineFault>
    ensures { result ≡ reads.server_alone (texts args.now) }
{
    match args {
        [server] => server_of(server),
        _ => Err(LineFault::Count),
    }
}

#[tactic(auto, unfolding(crate::specs::Reading::page_alone))]
fn page_alone(args: &[&[u8]]) -> Result<u32, LineFault>
    ensures { result ≡ reads.page_alone (texts args.now) }
{
    match args {
        [page] => page_of(page),
        _ => Err(LineFault::Count),
    }
}

#[tactic(auto, unfolding(crate::specs::Reading::message_alone))]
fn message_alone(args: &[&[u8]]) -> Result<u32, LineFault>
    ensures { result ≡ reads.message_alone (texts args.now) }
{
    match args {
        [message] => value_of(message, 0, LAST_MESSAGE),
        _ => Err(LineFault::Count),
    }
}

#[tactic(auto, unfolding(crate::specs::Reading::server_file))]
fn server_file(args: &[&[u8]]) -> Result<(ServerNo, FileNo), LineFault>
    ensures { result ≡ reads.server_file (texts args.now) }
{
    let [server, file] = args else {
        return Err(LineFault::Count);
    };
    Ok((server_of(server)?, file_of(file)?))
}

#[tactic(auto, unfolding(crate::specs::Reading::server_file_block))]
fn server_file_block(args: &[&[u8]]) -> Result<(ServerNo, FileNo, BlockNo), LineFault>
    ensures { result ≡ reads.server_file_block (texts args.now) }
{
    let [server, file, block] = args else {
        return Err(LineFault::Count);
    };
    Ok((server_of(server)?, file_of(file)?, block_no_of(block)?))
}

#[tactic(auto, unfolding(crate::specs::Reading::written, crate::specs::Reading::write_of))]
fn written(alloc: Global, args: &[&[u8]]) -> Result<Command, ReadFault>
    ensures { reads.TellsRead result (reads.written (texts args.now)) }
{
    let [server, file, block, bytes] = args else {
        return Err(ReadFault::Line(LineFault::Count));
    };
    let server = server_of(server)?;
    let file = file_of(file)?;
    let block = block_no_of(block)?;
    let content = bytes_of(alloc, bytes)?;
    Ok(Command::Do(server, Op::Write(file, block, content)))
}

#[tactic(auto, unfolding(crate::specs::Reading::server_name))]
fn server_name(args: &[&[u8]]) -> Result<(ServerNo, Tid), LineFault>
    ensures { result ≡ reads.server_name (texts args.now) }
{
    let [server, name] = args else {
        return Err(LineFault::Count);
    };
    Ok((server_of(server)?, name_of(name)?))
}

#[tactic(auto, unfolding(crate::specs::Reading::server_page))]
fn server_page(args: &[&[u8]]) -> Result<(ServerNo, u32), LineFault>
    ensures { result ≡ reads.server_page (texts args.now) }
{
    let [server, page] = args else {
        return Err(LineFault::Count);
    };
    Ok((server_of(server)?, page_of(page)?))
}
