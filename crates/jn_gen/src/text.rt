//! Schedules as text.
ghost use Rattle.std.specs.Prelude.{◌≡◌, ◌∷◌, ◌++◌, [], codes, OnOk, IfOk};
ghost use Rattle.std.specs.List.{AllByRecursion};
ghost use Rattle.jn_schedule.specs.Grammar as grammar;
ghost use Rattle.jn_schedule.specs.Grammar.{IsByte, IsSchedule, command_parts, kind_parts, op_parts, parts_of, server_part};
ghost use Rattle.jn_schedule.specs.Ranges.{EventInRange};
ghost use Rattle.jn_gen.specs.Spell.{IsOfBytes, parts_line};
ghost use Rattle.jn_gen.specs.Texts.{text_of};

use crate::word::Word::{Block, Client, Keyword, Number, Server, Transaction};
use crate::word::push_line;
use jn_base::{BlockNo, ClientNo, Command, FaultKind, FileNo, Op, ServerNo};
use jn_schedule::Event;
use std::alloc::{AllocError, Global};

/// The text of events: a line for each. Where their words are in range it is a schedule of these events.
pub fn text_of(alloc: Global, events: &[Event]) -> Result<Vec<u8>, AllocError>
    ensures text { IfOk result (λ v. v.items ≡ text_of events.now) }
    ensures parses { AllByRecursion EventInRange events.now → IfOk result (λ v. IsSchedule v.items events.now) }
{
    let mut out = Vec::new(alloc);
    for event in events {
        push_event(&mut out, event)?;
    }
    Ok(out)
}

/// Appends the line of an event.
fn push_event(out: &mut Vec<u8>, event: &Event) -> Result<(), AllocError>
    ensures text { OnOk result (out.new.items ≡ out.old.items ++ parts_line (parts_of event.now)) }
    ensures bytes { AllByRecursion IsOfBytes (parts_of event.now) }
{
    match event {
        Event::Command(client, command) => push_command(out, *client, command),
        // The one number of its line is out of its range, so no schedule has the line.
        Event::Call(_, _, _) => push_line(out, &[Number(0)]),
        Event::Again(client) => push_line(out, &[Client(*client), Keyword("again")]),
        Event::Deliver(message) => push_line(out, &[Keyword("deliver"), Number(*message)]),
        Event::Settle => push_line(out, &[Keyword("settle")]),
        Event::Step(server) => push_line(out, &[Keyword("step"), Server(*server)]),
        Event::Nudge(server) => push_line(out, &[Keyword("nudge"), Server(*server)]),
        Event::Timeout(server, tid) => {
            let words = [Keyword("timeout"), Server(*server), Transaction(*tid)];
            push_line(out, &words)
        }
        Event::Scrub(server) => push_line(out, &[Keyword("scrub"), Server(*server)]),
        Event::Decay(server, page) => {
            push_line(out, &[Keyword("decay"), Server(*server), Number(*page)])
        }
        Event::Revive(server, page) => {
            push_line(out, &[Keyword("revive"), Server(*server), Number(*page)])
        }
        Event::Arm(server, call, kind) => push_arm(out, *server, *call, *kind),
        Event::Crash(server) => push_line(out, &[Keyword("crash"), Server(*server)]),
        Event::Restart(server) => push_line(out, &[Keyword("restart"), Server(*server)]),
        Event::Show(server) => push_line(out, &[Keyword("show"), Server(*server)]),
    }
}

/// Appends the line of a client's command.
fn push_command(out: &mut Vec<u8>, client: ClientNo, command: &Command) -> Result<(), AllocError>
    ensures text { OnOk result (out.new.items ≡ out.old.items ++ parts_line (grammar.Client client.0 ∷ command_parts command.now)) }
    ensures bytes { AllByRecursion IsOfBytes (command_parts command.now) }
{
    let first = Client(client);
    match command {
        Command::Begin(server) => push_line(out, &[first, Keyword("begin"), Server(*server)]),
        Command::Open(server) => push_line(out, &[first, Keyword("open"), Server(*server)]),
        Command::Do(server, op) => push_op(out, client, *server, op),
        Command::End => push_line(out, &[first, Keyword("end")]),
        Command::Abort => push_line(out, &[first, Keyword("abort")]),
    }
}

/// Appends the line of a client's operation at a server.
fn push_op(out: &mut Vec<u8>, client: ClientNo, server: ServerNo, op: &Op) -> Result<(), AllocError>
    ensures text { OnOk result (out.new.items ≡ out.old.items ++ parts_line (grammar.Client client.0 ∷ op_parts server op.now)) }
    ensures bytes { AllByRecursion IsOfBytes (op_parts server op.now) }
{
    let first = Client(client);
    let at = Server(server);
    match op {
        Op::Create(file) => push_line(out, &[first, Keyword("create"), at, Number(file.0)]),
        Op::Remove(file) => push_line(out, &[first, Keyword("remove"), at, Number(file.0)]),
        Op::Cut(file, block) => {
            let block = Number(u32::from(block.0));
            push_line(out, &[first, Keyword("cut"), at, Number(file.0), block])
        }
        Op::Read(file, block) => {
            let block = Number(u32::from(block.0));
            push_line(out, &[first, Keyword("read"), at, Number(file.0), block])
        }
        Op::Write(file, block, content) => {
            let bytes = content.to_block();
            push_write(out, client, server, *file, *block, bytes.as_slice())
        }
    }
}

/// Appends the line of a client's write at a server.
fn push_write(
    out: &mut Vec<u8>,
    client: ClientNo,
    server: ServerNo,
    file: FileNo,
    block: BlockNo,
    bytes: &[u8],
) -> Result<(), AllocError>
    ensures text { OnOk result (out.new.items ≡ out.old.items ++ parts_line (grammar.Client client.0 ∷ op_parts server (Op.Write file block bytes.now))) }
    ensures bytes { AllByRecursion IsByte bytes.now }
{
    let block = Number(u32::from(block.0));
    push_line(
        out,
        &[
            Client(client),
            Keyword("write"),
            Server(server),
            Number(file.0),
            block,
            Block(bytes),
        ],
    )
}

/// Appends the line of a fault that waits for a call of a server's device.
fn push_arm(
    out: &mut Vec<u8>,
    server: ServerNo,
    call: u32,
    kind: FaultKind,
) -> Result<(), AllocError>
    ensures text { OnOk result (out.new.items
        ≡ out.old.items ++ parts_line (grammar.Keyword (codes "arm") ∷ server_part server.0 ∷ grammar.Number 1 1000000 call ∷ kind_parts kind)) }
    ensures bytes { AllByRecursion IsOfBytes (kind_parts kind) }
{
    let first = Keyword("arm");
    let at = Server(server);
    let n = Number(call);
    match kind {
        FaultKind::Soft => push_line(out, &[first, at, n, Keyword("soft")]),
        FaultKind::Null => push_line(out, &[first, at, n, Keyword("null")]),
        FaultKind::Bad => push_line(out, &[first, at, n, Keyword("bad")]),
        FaultKind::Decay(page) => {
            push_line(out, &[first, at, n, Keyword("decay"), Number(page)])
        }
        FaultKind::Revive(page) => {
            push_line(out, &[first, at, n, Keyword("revive"), Number(page)])
        }
        FaultKind::StopBefore => push_line(out, &[first, at, n, Keyword("stop-before")]),
        FaultKind::StopTorn => push_line(out, &[first, at, n, Keyword("stop-torn")]),
        FaultKind::StopAfter => push_line(out, &[first, at, n, Keyword("stop-after")]),
    }
}
