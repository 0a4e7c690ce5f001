//! What a text says: which kind of line it is, of whom, and of what.
ghost use Rattle.std.specs.Prelude.{◌≡◌};
ghost use Rattle.jn_base.specs.Names.{unit_eq};
ghost use Rattle.jn_report.specs.Kinds.{addressed, answer_in, begins, breaks, goes_down, is_aborted, is_answer, is_commit, is_locked, is_no_show, is_outside, is_own, is_own_refusal, is_refused, is_stopped, refuses_event, refuses_fault, stops};

use crate::line::{Refusal, Text};
use jn_base::{ClientNo, LockUnit, ServerNo, Tid};

/// Whom a line answers, and the number of the command's event.
#[derive(Clone, Copy)]
pub struct Addressed {
    pub client: ClientNo,
    pub number: u32,
}

fn to_client(client: ClientNo, number: u32) -> Option<Addressed>
    ensures { result ≡ addressed client number }
{
    Some(Addressed { client, number })
}

/// Whom a line answers, if it answers a client for a server.
pub fn answer_in(text: &Text) -> Option<Addressed>
    ensures { result ≡ answer_in text.now }
{
    match text {
        Text::Begun(client, number, _) => to_client(*client, *number),
        Text::Opened(client, number, _) => to_client(*client, *number),
        Text::Did(client, number) => to_client(*client, *number),
        Text::Read(client, number, _) => to_client(*client, *number),
        Text::Bytes(client, number, _) => to_client(*client, *number),
        Text::Found(client, number, _) => to_client(*client, *number),
        Text::Name(client, number, _, _) => to_client(*client, *number),
        Text::Refused(client, number, refusal) => {
            if is_own(*refusal) {
                None
            } else {
                to_client(*client, *number)
            }
        }
        Text::Waiting(client, number, _, _, _) => to_client(*client, *number),
        Text::Committed(client, number, _) => to_client(*client, *number),
        Text::Aborted(client, number, _, _) => to_client(*client, *number),
        _ => None,
    }
}

/// Whether it answers a client's command.
pub fn is_answer(text: &Text) -> bool
    ensures { result ≡ is_answer text.now }
{
    matches!(
        text,
        Text::Begun(_, _, _)
            | Text::Opened(_, _, _)
            | Text::Did(_, _)
            | Text::Read(_, _, _)
            | Text::Bytes(_, _, _)
            | Text::Found(_, _, _)
            | Text::Name(_, _, _, _)
            | Text::Refused(_, _, _)
            | Text::Waiting(_, _, _, _, _)
            | Text::Committed(_, _, _)
            | Text::Aborted(_, _, _, _)
    )
}

/// Whether the client itself refuses a command so.
pub fn is_own(refusal: Refusal) -> bool
    ensures { result ≡ is_own refusal }
{
    matches!(
        refusal,
        Refusal::ClientBusy
            | Refusal::NoTransaction
            | Refusal::HasTransaction
            | Refusal::NotOpen
            | Refusal::AlreadyOpen
            | Refusal::NoSuchServer
            | Refusal::Spoiled
            | Refusal::TooFar
    )
}

/// Whether a client itself refuses a command.
pub fn is_own_refusal(text: &Text) -> bool
    ensures { result ≡ is_own_refusal text.now }
{
    match text {
        Text::Refused(_, _, refusal) => is_own(*refusal),
        _ => false,
    }
}

/// Whether the client's command of this event began the transaction.
pub fn begins(client: ClientNo, number: usize, t: Tid, text: &Text) -> bool
    ensures { result ≡ begins client number t text.now }
{
    match text {
        Text::Begun(by, begin, begun) => {
            client == *by && (number == *begin as usize && *begun == t)
        }
        _ => false,
    }
}

/// Whether the server goes down.
pub fn goes_down(server: ServerNo, text: &Text) -> bool
    ensures { result ≡ goes_down server text.now }
{
    match text {
        Text::Down(at) => *at == server,
        Text::Stopped(at) => *at == server,
        _ => false,
    }
}

/// Whether the server stops in a step or a restart.
pub fn stops(server: ServerNo, text: &Text) -> bool
    ensures { result ≡ stops server text.now }
{
    matches!(text, Text::Stopped(at) if *at == server)
}

/// Whether the server's device refuses a fault.
pub fn refuses_fault(server: ServerNo, text: &Text) -> bool
    ensures { result ≡ refuses_fault server text.now }
{
    matches!(text, Text::Outside(at, _) if *at == server)
}

/// Whether the transaction's work at the server was broken at the unit, by the other one.
pub fn breaks(server: ServerNo, t: Tid, unit: LockUnit, by: Tid, text: &Text) -> bool
    ensures { result ≡ breaks server t unit by text.now }
{
    match text {
        Text::Broke(at, broken, on, breaker) => {
            *at == server && (*broken == t && (is_same_unit(*on, unit) && *breaker == by))
        }
        _ => false,
    }
}

fn is_same_unit(a: LockUnit, b: LockUnit) -> bool
    ensures { result ≡ unit_eq a b }
{
    match (a, b) {
        (LockUnit::File(f), LockUnit::File(g)) => f == g,
        (LockUnit::Block(f, p), LockUnit::Block(g, q)) => f == g && p == q,
        _ => false,
    }
}

/// Whether an event was refused.
pub fn refuses_event(text: &Text) -> bool
    ensures { result ≡ refuses_event text.now }
{
    matches!(text, Text::RefusedEvent(_))
}

/// Whether a show with this line prints nothing: it was refused or stopped.
pub fn is_no_show(text: &Text) -> bool
    ensures { result ≡ is_no_show text.now }
{
    matches!(text, Text::RefusedEvent(_) | Text::Stopped(_))
}

/// Whether a show found a unit locked.
pub fn is_locked(text: &Text) -> bool
    ensures { result ≡ is_locked text.now }
{
    matches!(text, Text::Locked(_, _, _))
}

/// Whether a transaction committed.
pub fn is_commit(text: &Text) -> bool
    ensures { result ≡ is_commit text.now }
{
    matches!(text, Text::Commit(_))
}

/// Whether a client's transaction was aborted.
pub fn is_aborted(text: &Text) -> bool
    ensures { result ≡ is_aborted text.now }
{
    matches!(text, Text::Aborted(..))
}

/// Whether a command of a client or an event was refused.
pub fn is_refused(text: &Text) -> bool
    ensures { result ≡ is_refused text.now }
{
    matches!(text, Text::Refused(..) | Text::RefusedEvent(_))
}

/// Whether a server stopped in a step or a restart.
pub fn is_stopped(text: &Text) -> bool
    ensures { result ≡ is_stopped text.now }
{
    matches!(text, Text::Stopped(_))
}

/// Whether a server's device refused a fault.
pub fn is_outside(text: &Text) -> bool
    ensures { result ≡ is_outside text.now }
{
    matches!(text, Text::Outside(..))
}
