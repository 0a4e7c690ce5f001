//! Whether each answer to a client answers its outstanding order, a command or a call.

ghost use Rattle.std.specs.Prelude.{◌≡◌, ◌↔◌, true, Some, IfOk, OnOk, IsTrue, length};
ghost use Rattle.jn_base.specs.declared.names.ServerNo.{ServerNo};
ghost use Rattle.jn_base.specs.declared.op.Command.TheVariants as commands;
ghost use Rattle.jn_following.specs.Asked.{outstanding_of};
ghost use Rattle.jn_report.specs.declared.line.Refusal.TheVariants as refusals;
ghost use Rattle.jn_report.specs.Kinds.{answer_in, is_own_refusal};
ghost use Rattle.jn_serial.specs.Follows as follows;
ghost use Rattle.jn_serial.specs.Lines.{count_lines, says};

use jn_base::{ByteCommand, Call, ClientNo, Command, Op};
use jn_calls::Order;
use jn_replay::call_fits;
use jn_report::{Line, Refusal, Text, When, answer_in, is_answer, is_own, is_own_refusal};
use jn_schedule::Event;
use jn_serial::{Asked, lines_at_event, refuses_own};
use std::alloc::{AllocError, Global};

/// An order that a client waits for from now on, or none.
#[derive(Drop)]
pub struct Entry {
    pub client: ClientNo,
    pub asked: Option<Asked>,
}

/// Whether the operation can be refused so.
fn can_have(refusal: Refusal, op: &Op) -> bool
    ensures { result ≡ follows.can_have refusal op.now }
{
    match refusal {
        Refusal::NoFile => !matches!(op, Op::Create(_)),
        Refusal::Exists => matches!(op, Op::Create(_)),
        Refusal::TooManyWrites => !matches!(op, Op::Read(_, _)),
        Refusal::Locked(_, _)
        | Refusal::TooManyReads
        | Refusal::Broken(_, _)
        | Refusal::Lost(_, _)
        | Refusal::Closing => true,
        _ => false,
    }
}

fn is_read(op: &Op) -> bool
    ensures { result ≡ follows.is_read op.now }
{
    matches!(op, Op::Read(_, _))
}

fn answers_begin(text: &Text) -> bool
    ensures { (s : ServerNo) → result ≡ follows.answers_command (commands.Begin s) text.now }
{
    matches!(
        text,
        Text::Begun(_, _, _) | Text::Refused(_, _, Refusal::TooManyTransactions)
    )
}

fn answers_open(text: &Text) -> bool
    ensures { (s : ServerNo) → result ≡ follows.answers_command (commands.Open s) text.now }
{
    matches!(
        text,
        Text::Opened(_, _, _) | Text::Refused(_, _, Refusal::TooManyWorks)
    )
}

fn answers_op(op: &Op, text: &Text) -> bool
    ensures { (s : ServerNo) → result ≡ follows.answers_command (commands.Do s op.now) text.now }
{
    match text {
        Text::Did(_, _) => !is_read(op),
        Text::Read(_, _, _) => is_read(op),
        Text::Refused(_, _, refusal) => can_have(*refusal, op),
        _ => false,
    }
}

fn answers_end(text: &Text) -> bool
    ensures { result ≡ follows.answers_command commands.End text.now }
{
    matches!(
        text,
        Text::Waiting(_, _, _, _, _) | Text::Committed(_, _, _) | Text::Aborted(_, _, _, _)
    )
}

fn answers_abort(text: &Text) -> bool
    ensures { result ≡ follows.answers_command commands.Abort text.now }
{
    matches!(text, Text::Committed(_, _, _) | Text::Aborted(_, _, _, _))
}

/// Whether the text has a form that answers the command.
fn answers_command(command: &Command, text: &Text) -> bool
    ensures { result ≡ follows.answers_command command.now text.now }
{
    match command {
        Command::Begin(_) => answers_begin(text),
        Command::Open(_) => answers_open(text),
        Command::Do(_, op) => answers_op(op, text),
        Command::End => answers_end(text),
        Command::Abort => answers_abort(text),
    }
}

/// Whether a read of a call can be refused so.
fn is_of_reads(refusal: Refusal) -> bool
    ensures { result ≡ follows.is_of_reads refusal }
{
    matches!(
        refusal,
        Refusal::NoFile
            | Refusal::Locked(_, _)
            | Refusal::TooManyReads
            | Refusal::Broken(_, _)
            | Refusal::Lost(_, _)
            | Refusal::Closing
    )
}

/// Whether it is a write of some bytes, so that it can be refused for the number of its writes.
fn writes_some(command: &ByteCommand) -> bool
    ensures { result ≡ follows.bytes_can_have command.now refusals.TooManyWrites }
{
    match command {
        ByteCommand::WriteBytes(_, _, bytes) => 0 < bytes.as_slice().len(),
        ByteCommand::ReadBytes(_, _, _) => false,
    }
}

/// Whether the call on bytes can be refused so.
fn bytes_can_have(command: &ByteCommand, refusal: Refusal) -> bool
    ensures { result ≡ follows.bytes_can_have command.now refusal }
{
    match refusal {
        Refusal::NotBytes => true,
        Refusal::PastEnd(_) => matches!(command, ByteCommand::WriteBytes(_, _, _)),
        Refusal::TooManyWrites => writes_some(command),
        _ => is_of_reads(refusal),
    }
}

fn answers_bytes(command: &ByteCommand, text: &Text) -> bool
    ensures { result ≡ follows.answers_bytes command.now text.now }
{
    match text {
        Text::Bytes(_, _, _) => matches!(command, ByteCommand::ReadBytes(_, _, _)),
        Text::Did(_, _) => matches!(command, ByteCommand::WriteBytes(_, _, _)),
        Text::Refused(_, _, refusal) => bytes_can_have(command, *refusal),
        _ => false,
    }
}

/// Whether the text has a form that answers the call.
fn answers_call(call: &Call, text: &Text) -> bool
    ensures { result ≡ follows.answers_call call.now text.now }
{
    match call {
        Call::OfBytes(command) => call_fits(call) && answers_bytes(command, text),
        Call::OfNames(_) => false,
    }
}

/// Whether the text has a form that answers the order.
fn answers_order(order: &Order, text: &Text) -> bool
    ensures { result ≡ follows.answers_order order.now text.now }
{
    match order {
        Order::Command(command) => answers_command(command, text),
        Order::Call(_, call) => answers_call(call, text),
    }
}

/// Whether it is the last answer to its order.
fn is_last(text: &Text) -> bool
    ensures { result ≡ follows.is_last text.now }
{
    !matches!(text, Text::Waiting(_, _, _, _, _))
}

fn fits_asked(asked: &Option<Asked>, number: u32, text: &Text) -> bool
    ensures { result ≡ follows.fits_asked asked.now number text.now }
{
    match asked {
        Some(a) => a.number == number as usize && answers_order(&a.order, text),
        None => false,
    }
}

/// Whether the text answers what the client waits for after all entries.
fn fits_entries(entries: &[Entry], client: ClientNo, number: u32, text: &Text) -> bool
    ensures { result ≡ follows.fits_asked (outstanding_of entries.now client) number text.now }
{
    let mut fits = false;
    for entry in entries {
        if entry.client == client {
            fits = fits_asked(&entry.asked, number, text);
        }
    }
    fits
}

/// Whether the text answers no client, or what the client waits for.
fn fits(entries: &[Entry], text: &Text) -> bool
    ensures { result ≡ follows.fits (outstanding_of entries.now) (answer_in text.now) text.now }
{
    match answer_in(text) {
        Some(to) => fits_entries(entries, to.client, to.number, text),
        None => true,
    }
}

#[tactic(auto, using(crate::proofs::Entries::outstanding_of_more))]
/// After its last answer a client waits for nothing.
fn take_answer(entries: &mut Vec<Entry>, text: &Text) -> Result<(), AllocError>
    ensures { OnOk result (outstanding_of entries.new.items
        ≡ follows.after_answer (outstanding_of entries.old.items) (answer_in text.now) text.now) }
{
    let Some(to) = answer_in(text) else {
        return Ok(());
    };
    if is_last(text) {
        entries.push(Entry {
            client: to.client,
            asked: None,
        })?;
    }
    Ok(())
}

/// Whether the answers of an event, one after another, answer what is outstanding.
fn all_fit(entries: &mut Vec<Entry>, here: &[Line]) -> Result<bool, AllocError>
    ensures fit { IfOk result (λ b. IsTrue b ↔ follows.AllFit (outstanding_of entries.old.items) here.now) }
    ensures after { IfOk result (λ b. b ≡ true → outstanding_of entries.new.items
        ≡ follows.after_answers (outstanding_of entries.old.items) here.now) }
{
    for line in here {
        if !fits(entries, &line.text) {
            return Ok(false);
        }
        take_answer(entries, &line.text)?;
    }
    Ok(true)
}

/// Whether the client itself refused its command.
fn is_refused_own(client: ClientNo, number: usize, here: &[Line]) -> bool
    ensures { result ≡ says (follows.refuses_own client number) here.now }
{
    here.iter().any(|l| refuses_own(client, number, &l.text))
}

#[tactic(auto, using(crate::proofs::Entries::outstanding_of_more))]
/// The client waits for this order from now on.
fn take_order(
    entries: &mut Vec<Entry>,
    number: usize,
    client: ClientNo,
    order: Order,
) -> Result<(), AllocError>
    ensures { OnOk result (outstanding_of entries.new.items
        ≡ follows.with_asked (outstanding_of entries.old.items) client (Some (record { number = number; order = order }))) }
{
    entries.push(Entry {
        client,
        asked: Some(Asked { number, order }),
    })?;
    Ok(())
}

/// The event's order, unless the client refused it, replaces what was outstanding.
fn take_event(
    entries: &mut Vec<Entry>,
    number: usize,
    event: &Event,
    here: &[Line],
) -> Result<(), AllocError>
    ensures { OnOk result (outstanding_of entries.new.items
        ≡ follows.after_event (outstanding_of entries.old.items) number event.now here.now) }
{
    match event {
        Event::Command(client, command) => {
            if is_refused_own(*client, number, here) {
                return Ok(());
            }
            let order = Order::Command(command.copy()?);
            take_order(entries, number, *client, order)
        }
        Event::Call(client, server, call) => {
            if is_refused_own(*client, number, here) {
                return Ok(());
            }
            let order = Order::Call(*server, call.copy()?);
            take_order(entries, number, *client, order)
        }
        _ => Ok(()),
    }
}

fn is_command_of(event: &Event, client: ClientNo) -> bool
    ensures { result ≡ follows.is_command_of event.now client }
{
    match event {
        Event::Command(by, _) => *by == client,
        Event::Call(by, _, _) => *by == client,
        _ => false,
    }
}

/// Whether the text is no refusal by a client itself, or stands in its command's own event.
fn own_in_place(number: usize, event: &Event, text: &Text) -> bool
    ensures { result ≡ follows.own_in_place number event.now text.now }
{
    match text {
        Text::Refused(client, command, refusal) => {
            !is_own(*refusal) || (number == *command as usize && is_command_of(event, *client))
        }
        _ => true,
    }
}

fn all_own_in_place(number: usize, event: &Event, here: &[Line]) -> bool
    ensures { IsTrue result ↔ follows.AllOwnInPlace number event.now here.now }
{
    for line in here {
        if !own_in_place(number, event, &line.text) {
            return false;
        }
    }
    true
}

/// How many refusals by clients themselves these lines are.
fn own_refusals(here: &[Line]) -> usize
    ensures { result ≡ count_lines is_own_refusal here.now }
{
    let mut count = 0;
    for line in here {
        if is_own_refusal(&line.text) {
            count += 1;
        }
    }
    count
}

/// Whether the lines of an event answer what is outstanding then.
fn follows_event(
    entries: &mut Vec<Entry>,
    number: usize,
    event: &Event,
    here: &[Line],
) -> Result<bool, AllocError>
    ensures follows { IfOk result (λ b. IsTrue b
        ↔ follows.FollowsEvent (outstanding_of entries.old.items) number event.now here.now) }
    ensures after { IfOk result (λ b. b ≡ true → outstanding_of entries.new.items
        ≡ follows.after_one (outstanding_of entries.old.items) number event.now here.now) }
{
    take_event(entries, number, event, here)?;
    Ok(all_fit(entries, here)? && all_own_in_place(number, event, here) && own_refusals(here) <= 1)
}

/// Whether the answers of each event answer what is outstanding then.
fn follow_events(alloc: Global, events: &[Event], lines: &[Line]) -> Result<bool, AllocError>
    ensures { IfOk result (λ b. IsTrue b
        ↔ follows.FollowsFrom follows.nothing_asked 1 events.now lines.now) }
{
    let mut entries = Vec::new(alloc);
    for (i, event) in events.iter().enumerate() {
        let here = lines_at_event(alloc, lines, i + 1)?;
        if !follows_event(&mut entries, i + 1, event, &here)? {
            return Ok(false);
        }
    }
    Ok(true)
}

fn is_of_event(count: usize, when: When) -> bool
    ensures { IsTrue result ↔ follows.IsOfEvent count when }
{
    match when {
        When::Event(number) => 1 <= number && number as usize <= count,
        When::End => false,
    }
}

/// Whether every answer stands at an event.
fn all_of_events(count: usize, lines: &[Line]) -> bool
    ensures { IsTrue result ↔ follows.AllOfEvents count lines.now }
{
    for line in lines {
        if is_answer(&line.text) && !is_of_event(count, line.when) {
            return false;
        }
    }
    true
}

/// Whether each answer to a client in a report names its outstanding order and has a form of
/// that order, the client's own refusals stand in the order's own event, and no order has two
/// last answers, two such refusals, or an answer after another order replaced it.
pub fn follows(alloc: Global, events: &[Event], lines: &[Line]) -> Result<bool, AllocError>
    ensures { IfOk result (λ b. IsTrue b ↔ follows.Follows events.now lines.now) }
{
    Ok(follow_events(alloc, events, lines)? && all_of_events(events.len(), lines))
}
