//! What a transaction did, by the commands and lines of a report.

ghost use Rattle.std.specs.Prelude.{◌≡◌, ◌++◌, ◌&&◌, nat_eq, IfOk, OnOk, if◌then◌else◌, Some, None, option_to_list};
ghost use Rattle.jn_base.specs.Names.{client_eq};
ghost use Rattle.jn_serial.specs.Order as order;

use crate::begun::is_in;
use jn_base::{Answer, ClientNo, Command, Tid};
use jn_replay::Performed;
use jn_report::{Line, Refusal, Text};
use jn_schedule::Event;
use std::alloc::{AllocError, Global};

/// The answer, if it is to the client's command of the event.
fn if_asked(
    client: ClientNo,
    number: usize,
    to: ClientNo,
    event: u32,
    answer: Answer,
) -> Option<Answer>
    ensures { result ≡ (if client_eq client to && nat_eq number event then Some answer else None) }
{
    if client == to && number == event as usize {
        Some(answer)
    } else {
        None
    }
}

/// The answer from the files that a line gives to the client's command of an event.
pub(crate) fn answer_told(
    client: ClientNo,
    number: usize,
    text: &Text,
) -> Result<Option<Answer>, AllocError>
    ensures { IfOk result (λ a. a ≡ order.answer_told client number text.now) }
{
    match text {
        Text::Did(to, event) => Ok(if_asked(client, number, *to, *event, Answer::Did)),
        Text::Read(to, event, content) => {
            let content = content.copy()?;
            Ok(if_asked(client, number, *to, *event, Answer::Read(content)))
        }
        Text::Refused(to, event, Refusal::NoFile) => {
            Ok(if_asked(client, number, *to, *event, Answer::NoFile))
        }
        Text::Refused(to, event, Refusal::Exists) => {
            Ok(if_asked(client, number, *to, *event, Answer::Exists))
        }
        _ => Ok(None),
    }
}

/// The answer of the first line that gives one.
fn first_answer_told(
    client: ClientNo,
    number: usize,
    lines: &[Line],
) -> Result<Option<Answer>, AllocError>
    ensures { IfOk result (λ a. a ≡ order.first_answer_told client number lines.now) }
{
    for line in lines {
        let answer = answer_told(client, number, &line.text)?;
        if answer.is_some() {
            return Ok(answer);
        }
    }
    Ok(None)
}

/// What the transaction did in an event, if it did anything.
fn operation_in(
    t: Tid,
    lines: &[Line],
    number: usize,
    event: &Event,
) -> Result<Option<Performed>, AllocError>
    ensures { IfOk result (λ p. option_to_list p ≡ order.operation_in t lines.now number event.now) }
{
    let Event::Command(client, Command::Do(server, op)) = event else {
        return Ok(None);
    };
    if !is_in(*client, t, number, lines) {
        return Ok(None);
    }
    let Some(answer) = first_answer_told(*client, number, lines)? else {
        return Ok(None);
    };
    let op = op.copy()?;
    Ok(Some(Performed {
        server: *server,
        op,
        answer,
    }))
}

fn push_performed(performed: &mut Vec<Performed>, one: Option<Performed>) -> Result<(), AllocError>
    ensures { OnOk result (performed.new.items ≡ performed.old.items ++ option_to_list one) }
{
    if let Some(one) = one {
        performed.push(one)?;
    }
    Ok(())
}

/// The operations of a transaction that the files answered, each once, in the order of their
/// events, each with the first answer reported. They are those of a client between the line that says
/// that it began the transaction and the client's next such line.
pub fn operations_of(
    alloc: Global,
    events: &[Event],
    lines: &[Line],
    t: Tid,
) -> Result<Vec<Performed>, AllocError>
    ensures { IfOk result (λ ps. ps.items ≡ order.operations_of events.now lines.now t) }
{
    let mut performed = Vec::new(alloc);
    for (i, event) in events.iter().enumerate() {
        let one = operation_in(t, lines, i + 1, event)?;
        push_performed(&mut performed, one)?;
    }
    Ok(performed)
}
