//! What stands before an abort, a stop and a refused fault.

ghost use Rattle.std.specs.Prelude.{◌≡◌, ◌↔◌, ◌&&◌, not, IsTrue};
ghost use Rattle.jn_base.specs.Names.{is_stop};
ghost use Rattle.jn_base.specs.declared.names.Cause.TheVariants as reasons;
ghost use Rattle.jn_report.specs.Kinds.{begins, breaks, goes_down, refuses_event, refuses_fault, stops};
ghost use Rattle.jn_report.specs.declared.line.When.TheVariants.{Event as AtEvent};
ghost use Rattle.jn_serial.specs.Begun.{is_in as is_in_tid};
ghost use Rattle.jn_serial.specs.Caused as caused;
ghost use Rattle.jn_serial.specs.Follows.{refuses_own};
ghost use Rattle.jn_serial.specs.Lines.{count_lines, lines_at, says};

use jn_base::{Cause, ClientNo, Command, FaultKind, LockUnit, ServerNo, Tid};
use jn_report::{Line, Text, When, begins, breaks, goes_down, refuses_event, refuses_fault, stops};
use jn_schedule::Event;
use jn_serial::{is_after_event, is_at, is_in, refuses_own};

fn aborts(client: ClientNo, t: Tid, lines: &[Line], number: usize, event: &Event) -> bool
    ensures { result ≡ caused.aborts client t lines.now number event.now }
{
    match event {
        Event::Command(by, Command::Abort) => client == *by && is_in(client, t, number, lines),
        _ => false,
    }
}

fn asks(client: ClientNo, t: Tid, lines: &[Line], when: When, number: usize, event: &Event) -> bool
    ensures { result ≡ caused.asks client t lines.now when number event.now }
{
    is_after_event(when, number) && aborts(client, t, lines, number, event)
}

/// Whether the client asked for the abort in an event before.
fn is_requested(events: &[Event], lines: &[Line], when: When, client: ClientNo, t: Tid) -> bool
    ensures { result ≡ caused.any_event (caused.asks client t lines.now when) 1 events.now }
{
    for (i, event) in events.iter().enumerate() {
        if asks(client, t, lines, when, i + 1, event) {
            return true;
        }
    }
    false
}

/// Whether a line says that the command began the transaction.
fn is_begun(client: ClientNo, number: usize, t: Tid, lines: &[Line]) -> bool
    ensures { result ≡ says (begins client number t) lines.now }
{
    lines.iter().any(|l| begins(client, number, t, &l.text))
}

/// Whether the client refused its own command of this event.
fn refuses_it(client: ClientNo, number: usize, lines: &[Line]) -> bool
    ensures { result ≡ says (refuses_own client number) (lines_at (AtEvent number) lines.now) }
{
    lines
        .iter()
        .filter(|l| is_at(l.when, number))
        .any(|l| refuses_own(client, number, &l.text))
}

/// Whether a command of the client in this event is given in the transaction, and not refused by the client.
fn is_taken_in(client: ClientNo, t: Tid, number: usize, lines: &[Line]) -> bool
    ensures { result ≡ (is_in_tid client t number lines.now
        && not (says (refuses_own client number) (lines_at (AtEvent number) lines.now))) }
{
    is_in(client, t, number, lines) && !refuses_it(client, number, lines)
}

/// Whether the event is a command by which the transaction came to the server.
fn joins(
    client: ClientNo,
    t: Tid,
    server: ServerNo,
    lines: &[Line],
    number: usize,
    event: &Event,
) -> bool
    ensures { result ≡ caused.joins client t server lines.now number event.now }
{
    match event {
        Event::Command(by, Command::Begin(at)) => {
            client == *by && (*at == server && is_begun(client, number, t, lines))
        }
        Event::Command(by, Command::Open(at)) => {
            client == *by && (*at == server && is_taken_in(client, t, number, lines))
        }
        _ => false,
    }
}

/// Whether a line after the event says that the server went down.
fn goes_down_after(server: ServerNo, number: usize, lines: &[Line]) -> bool
    ensures { result ≡ says (goes_down server) (caused.lines_after (AtEvent number) lines.now) }
{
    lines
        .iter()
        .filter(|l| is_after_event(l.when, number))
        .any(|l| goes_down(server, &l.text))
}

/// Whether the server went down after the transaction came there.
fn is_lost(events: &[Event], lines: &[Line], client: ClientNo, t: Tid, server: ServerNo) -> bool
    ensures { result ≡ caused.any_event (caused.loses client t server lines.now) 1 events.now }
{
    for (i, event) in events.iter().enumerate() {
        if joins(client, t, server, lines, i + 1, event) && goes_down_after(server, i + 1, lines) {
            return true;
        }
    }
    false
}

/// Whether a line says that the transaction's work was broken so.
fn is_broken(lines: &[Line], server: ServerNo, t: Tid, unit: LockUnit, by: Tid) -> bool
    ensures { result ≡ says (breaks server t unit by) lines.now }
{
    lines.iter().any(|l| breaks(server, t, unit, by, &l.text))
}

/// Whether the cause of an abort stands before it.
fn is_caused_by(
    events: &[Event],
    lines: &[Line],
    when: When,
    client: ClientNo,
    t: Tid,
    cause: Cause,
) -> bool
    ensures { result ≡ caused.is_caused_by events.now lines.now when client t cause }
{
    match cause {
        Cause::Requested => is_requested(events, lines, when, client, t),
        Cause::Broken(server, unit, by) => is_broken(lines, server, t, unit, by),
        Cause::Lost(server) => is_lost(events, lines, client, t, server),
        Cause::Full(_, _, free, need) => free < need,
    }
}

fn is_stop(kind: FaultKind) -> bool
    ensures { result ≡ is_stop kind }
{
    matches!(
        kind,
        FaultKind::StopBefore | FaultKind::StopTorn | FaultKind::StopAfter
    )
}

/// Whether a line says that the event was refused.
fn is_refused(lines: &[Line], number: usize) -> bool
    ensures { result ≡ says refuses_event (lines_at (AtEvent number) lines.now) }
{
    lines
        .iter()
        .filter(|l| is_at(l.when, number))
        .any(|l| refuses_event(&l.text))
}

/// Whether the event was before, and was not refused.
fn is_accepted(lines: &[Line], when: When, number: usize) -> bool
    ensures { result ≡ caused.is_accepted lines.now when number }
{
    is_after_event(when, number) && !is_refused(lines, number)
}

fn arms_stop(server: ServerNo, lines: &[Line], when: When, number: usize, event: &Event) -> bool
    ensures { result ≡ caused.arms_stop server lines.now when number event.now }
{
    match event {
        Event::Arm(at, _, kind) => {
            *at == server && (is_stop(*kind) && is_accepted(lines, when, number))
        }
        _ => false,
    }
}

/// How many events can have stopped the server before a line.
fn count_stops(events: &[Event], lines: &[Line], when: When, server: ServerNo) -> usize
    ensures { result ≡ caused.count_events (caused.arms_stop server lines.now when) 1 events.now }
{
    let mut count = 0;
    for (i, event) in events.iter().enumerate() {
        if arms_stop(server, lines, when, i + 1, event) {
            count += 1;
        }
    }
    count
}

/// Whether the server refused a fault in the event.
fn is_fault_refused(server: ServerNo, lines: &[Line], number: usize) -> bool
    ensures { result ≡ says (refuses_fault server) (lines_at (AtEvent number) lines.now) }
{
    lines
        .iter()
        .filter(|l| is_at(l.when, number))
        .any(|l| refuses_fault(server, &l.text))
}

fn gives_fault(server: ServerNo, lines: &[Line], when: When, number: usize, event: &Event) -> bool
    ensures { result ≡ caused.gives_fault server lines.now when number event.now }
{
    match event {
        Event::Arm(at, _, _) => *at == server && is_accepted(lines, when, number),
        Event::Decay(at, _) => *at == server && is_fault_refused(server, lines, number),
        _ => false,
    }
}

/// How many events can have given a fault that the server refused.
fn count_faults(events: &[Event], lines: &[Line], when: When, server: ServerNo) -> usize
    ensures { result ≡ caused.count_events (caused.gives_fault server lines.now when) 1 events.now }
{
    let mut count = 0;
    for (i, event) in events.iter().enumerate() {
        if gives_fault(server, lines, when, i + 1, event) {
            count += 1;
        }
    }
    count
}

fn count_stopped(lines: &[Line], server: ServerNo) -> usize
    ensures { result ≡ count_lines (stops server) lines.now }
{
    lines.iter().filter(|l| stops(server, &l.text)).count()
}

fn count_refused(lines: &[Line], server: ServerNo) -> usize
    ensures { result ≡ count_lines (refuses_fault server) lines.now }
{
    lines
        .iter()
        .filter(|l| refuses_fault(server, &l.text))
        .count()
}

/// Whether the last of these lines has what it needs.
fn is_caused(events: &[Event], lines: &[Line], when: When, text: &Text) -> bool
    ensures { result ≡ caused.is_caused events.now lines.now when text.now }
{
    match text {
        Text::Aborted(client, _, t, cause) => {
            is_caused_by(events, lines, when, *client, *t, *cause)
        }
        Text::Stopped(server) => {
            count_stopped(lines, *server) <= count_stops(events, lines, when, *server)
        }
        Text::Outside(server, _) => {
            count_refused(lines, *server) <= count_faults(events, lines, when, *server)
        }
        _ => true,
    }
}

/// Whether each abort in a report has its cause before it, and each stop and each refused fault an
/// event of its own: a waiting fault that was accepted before, or a decay in the same event.
pub fn caused(events: &[Event], lines: &[Line]) -> bool
    ensures { IsTrue result ↔ caused.Caused events.now lines.now }
{
    for (i, line) in lines.iter().enumerate() {
        if !is_caused(events, &lines[..i + 1], line.when, &line.text) {
            return false;
        }
    }
    true
}
