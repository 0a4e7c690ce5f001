//! The replies to operations and calls that the lines of a report give.

ghost use Rattle.std.specs.Prelude.{◌≡◌, ◌++◌, [], IfOk, OnOk, Some, option_map};
ghost use Rattle.jn_bytes.specs.declared.next.Next.TheVariants as byte_nexts;
ghost use Rattle.jn_names.specs.declared.next.NameNext.TheVariants as name_nexts;
ghost use Rattle.jn_calls.specs.declared.reply.Reply.TheVariants as replies;
ghost use Rattle.jn_serial.specs.Order as order;

use crate::transactions::answer_told;
use jn_base::{Answer, Call, ClientNo, NameCommand, is_name};
use jn_bytes::{ByteRefusal, Gathered, Next};
use jn_calls::{Reply, Wish};
use jn_names::{Entries, Entry, Name, NameNext, NameRefusal};
use jn_report::{Addressed, Line, Refusal, Text, answer_in};
use std::alloc::{AllocError, Global};

fn bytes_refused(refusal: ByteRefusal) -> Option<Reply>
    ensures { result ≡ Some (replies.OfBytes (byte_nexts.Refused refusal)) }
{
    Some(Reply::OfBytes(Next::Refused(refusal)))
}

/// The reply that a text gives to a call on bytes.
fn bytes_reply(alloc: Global, text: &Text) -> Result<Option<Reply>, AllocError>
    ensures { IfOk result (λ reply. reply ≡ order.bytes_reply text.now) }
{
    Ok(match text {
        Text::Bytes(_, _, bytes) => {
            let bytes = Vec::from_slice(alloc, bytes.as_slice())?;
            Some(Reply::OfBytes(Next::Done(Gathered::from_vec(bytes))))
        }
        Text::Did(_, _) => Some(Reply::OfBytes(Next::Did)),
        Text::Refused(_, _, refusal) => match refusal {
            Refusal::NoFile => bytes_refused(ByteRefusal::Operation(Answer::NoFile)),
            Refusal::Exists => bytes_refused(ByteRefusal::Operation(Answer::Exists)),
            Refusal::NotBytes => bytes_refused(ByteRefusal::NotBytes),
            Refusal::PastEnd(n) => bytes_refused(ByteRefusal::PastEnd(*n)),
            _ => None,
        },
        _ => None,
    })
}

/// The same entries once more.
fn copy_entries(alloc: Global, entries: &[Entry]) -> Result<Entries, AllocError>
    ensures { IfOk result (λ copied. copied ≡ entries.now) }
{
    let mut copied = Entries::new(alloc);
    for entry in entries {
        copied.push(Entry {
            name: Name::new(entry.name.as_bytes()),
            file: entry.file,
        })?;
    }
    Ok(copied)
}

/// How a call on names is done, behind lines with these entries.
fn names_done(
    alloc: Global,
    command: &NameCommand,
    listed: &Entries,
) -> Result<NameNext, AllocError>
    ensures { IfOk result (λ next. next ≡ order.names_done command.now listed.now) }
{
    match command {
        NameCommand::Names(_) => Ok(NameNext::Names(copy_entries(alloc, listed.as_slice())?)),
        _ => Ok(NameNext::Did),
    }
}

fn names_refused(refusal: NameRefusal) -> Option<Reply>
    ensures { result ≡ Some (replies.OfNames (name_nexts.Refused refusal)) }
{
    Some(Reply::OfNames(NameNext::Refused(refusal)))
}

/// The reply that a text gives to a call on names.
fn names_reply(
    alloc: Global,
    command: &NameCommand,
    listed: &Entries,
    text: &Text,
) -> Result<Option<Reply>, AllocError>
    ensures { IfOk result (λ reply. reply ≡ order.names_reply command.now listed.now text.now) }
{
    Ok(match text {
        Text::Did(_, _) => Some(Reply::OfNames(names_done(alloc, command, listed)?)),
        Text::Found(_, _, file) => Some(Reply::OfNames(NameNext::Found(file.0))),
        Text::Refused(_, _, refusal) => match refusal {
            Refusal::NoFile => names_refused(NameRefusal::Operation(Answer::NoFile)),
            Refusal::Exists => names_refused(NameRefusal::Operation(Answer::Exists)),
            Refusal::BucketFull => names_refused(NameRefusal::BucketFull),
            Refusal::NoName => names_refused(NameRefusal::NoName),
            Refusal::NotDirectory => names_refused(NameRefusal::NotDirectory),
            _ => None,
        },
        _ => None,
    })
}

/// Whether a line answers what the client was told in the event.
fn is_addressed(client: ClientNo, number: usize, to: Option<Addressed>) -> bool
    ensures { result ≡ order.is_addressed client number to }
{
    match to {
        Some(a) => client == a.client && number == a.number as usize,
        None => false,
    }
}

/// The reply that a line gives to the call of the client's event.
fn call_reply(
    alloc: Global,
    call: &Call,
    listed: &Entries,
    text: &Text,
) -> Result<Option<Reply>, AllocError>
    ensures { IfOk result (λ reply. reply ≡ order.call_reply call.now listed.now text.now) }
{
    match call {
        Call::OfBytes(_) => bytes_reply(alloc, text),
        Call::OfNames(command) => names_reply(alloc, command, listed, text),
    }
}

fn answered(answer: Option<Answer>) -> Option<Reply>
    ensures { result ≡ option_map (λ a. replies.Answered a) answer }
{
    match answer {
        Some(answer) => Some(Reply::Answered(answer)),
        None => None,
    }
}

/// The reply that a line gives to the client's wish of the event.
fn reply_told(
    alloc: Global,
    wish: &Wish,
    client: ClientNo,
    number: usize,
    listed: &Entries,
    text: &Text,
) -> Result<Option<Reply>, AllocError>
    ensures { IfOk result (λ reply. reply ≡ order.reply_told wish.now client number listed.now text.now) }
{
    match wish {
        Wish::Operation(_) => Ok(answered(answer_told(client, number, text)?)),
        Wish::Call(call) => {
            if is_addressed(client, number, answer_in(text)) {
                call_reply(alloc, call, listed, text)
            } else {
                Ok(None)
            }
        }
    }
}

/// Adds the entry that a line lists for the event.
fn push_listed(
    listed: &mut Entries,
    client: ClientNo,
    number: usize,
    text: &Text,
) -> Result<(), AllocError>
    ensures { OnOk result (listed.new ≡ listed.old ++ order.names_listed client number text.now) }
{
    let Text::Name(to, event, name, file) = text else {
        return Ok(());
    };
    if client == *to && number == *event as usize && is_name(name.as_slice()) {
        listed.push(Entry {
            name: Name::new(name.as_slice()),
            file: *file,
        })?;
    }
    Ok(())
}

/// The reply of the first line that gives one. Names are gathered up to it.
pub(crate) fn first_reply(
    alloc: Global,
    wish: &Wish,
    client: ClientNo,
    number: usize,
    lines: &[Line],
) -> Result<Option<Reply>, AllocError>
    ensures { IfOk result (λ reply. reply ≡ order.first_reply wish.now client number [] lines.now) }
{
    let mut listed = Entries::new(alloc);
    for line in lines {
        let reply = reply_told(alloc, wish, client, number, &listed, &line.text)?;
        if reply.is_some() {
            return Ok(reply);
        }
        push_listed(&mut listed, client, number, &line.text)?;
    }
    Ok(None)
}
