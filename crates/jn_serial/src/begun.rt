//! Which transaction a client is in.

ghost use Rattle.std.specs.Prelude.{◌≡◌};
ghost use Rattle.jn_report.specs.declared.line.When.TheVariants.{Event as AtEvent};
ghost use Rattle.jn_serial.specs.Begun as begun;
ghost use Rattle.jn_serial.specs.Lines.{lines_before};

use crate::lines::is_before_event;
use jn_base::{ClientNo, Tid};
use jn_report::{Line, Text};

/// The transaction that a client began last, after a line.
fn begun_after(client: ClientNo, now: Option<Tid>, text: &Text) -> Option<Tid>
    ensures { result ≡ begun.begun_after client now text.now }
{
    match text {
        Text::Begun(by, _, t) if client == *by => Some(*t),
        _ => now,
    }
}

/// The transaction that a client began last, by the lines before an event.
fn last_begun(client: ClientNo, number: usize, lines: &[Line]) -> Option<Tid>
    ensures { result ≡ begun.last_begun client (lines_before (AtEvent number) lines.now) }
{
    let mut now = None;
    for line in lines {
        if is_before_event(line.when, number) {
            now = begun_after(client, now, &line.text);
        }
    }
    now
}

/// Whether a command of the client in this event is given in the transaction.
pub fn is_in(client: ClientNo, t: Tid, number: usize, lines: &[Line]) -> bool
    ensures { result ≡ begun.is_in client t number lines.now }
{
    match last_begun(client, number, lines) {
        Some(begun) => begun == t,
        None => false,
    }
}
