//! What a transaction did, call by call, by the events and lines of a report.

ghost use Rattle.std.specs.Prelude.{◌≡◌, ◌++◌, [], IfOk, OnOk, option_to_list};
ghost use Rattle.jn_replay.specs.Replies.{CallsFit};
ghost use Rattle.jn_serial.specs.Order as order;

use crate::begun::is_in;
use crate::replies::first_reply;
use jn_base::{ClientNo, Command, ServerNo, Tid};
use jn_calls::{Reply, Wish};
use jn_replay::{Replied, call_fits};
use jn_report::Line;
use jn_schedule::Event;
use std::alloc::{AllocError, Global};

fn replied(server: ServerNo, wish: Wish, reply: Option<Reply>) -> Option<Replied>
    ensures { option_to_list result ≡ order.replied server wish reply }
{
    match reply {
        Some(reply) => Some(Replied {
            server,
            wish,
            reply,
        }),
        None => None,
    }
}

/// What was wished in the event of a client in the transaction, if it was replied.
fn wish_in(
    alloc: Global,
    lines: &[Line],
    client: ClientNo,
    number: usize,
    server: ServerNo,
    wish: Wish,
) -> Result<Option<Replied>, AllocError>
    ensures { IfOk result (λ r. option_to_list r ≡ order.replied server wish (order.first_reply wish client number [] lines.now)) }
{
    let reply = first_reply(alloc, &wish, client, number, lines)?;
    Ok(replied(server, wish, reply))
}

/// What the transaction did in an event, if it did anything.
fn done_in(
    alloc: Global,
    t: Tid,
    lines: &[Line],
    number: usize,
    event: &Event,
) -> Result<Option<Replied>, AllocError>
    ensures { IfOk result (λ r. option_to_list r ≡ order.done_in t lines.now number event.now) }
{
    match event {
        Event::Command(client, Command::Do(server, op)) => {
            if is_in(*client, t, number, lines) {
                let wish = Wish::Operation(op.copy()?);
                wish_in(alloc, lines, *client, number, *server, wish)
            } else {
                Ok(None)
            }
        }
        Event::Call(client, server, call) => {
            if is_in(*client, t, number, lines) && call_fits(call) {
                let wish = Wish::Call(call.copy()?);
                wish_in(alloc, lines, *client, number, *server, wish)
            } else {
                Ok(None)
            }
        }
        _ => Ok(None),
    }
}

fn push_replied(done: &mut Vec<Replied>, one: Option<Replied>) -> Result<(), AllocError>
    ensures { OnOk result (done.new.items ≡ done.old.items ++ option_to_list one) }
{
    if let Some(one) = one {
        done.push(one)?;
    }
    Ok(())
}

/// What a transaction did that the files answered, each operation and each call once, in the order of their events, each
/// with the first reply reported.
pub fn done_of(
    alloc: Global,
    events: &[Event],
    lines: &[Line],
    t: Tid,
) -> Result<Vec<Replied>, AllocError>
    ensures done { IfOk result (λ rs. rs.items ≡ order.done_of events.now lines.now t) }
    ensures fit { IfOk result (λ rs. CallsFit rs.items) }
{
    let mut done = Vec::new(alloc);
    for (i, event) in events.iter().enumerate() {
        let one = done_in(alloc, t, lines, i + 1, event)?;
        push_replied(&mut done, one)?;
    }
    Ok(done)
}
