//! What a client waits for, whom a line answers, and which commands a client refuses itself.

ghost use Rattle.std.specs.Prelude.{◌≡◌};
ghost use Rattle.jn_serial.specs.Follows as follows;

use jn_base::ClientNo;
use jn_calls::Order;
use jn_report::{Text, is_own};

/// An order, which is a command or a call, with the number of its event.
#[derive(Drop)]
pub struct Asked {
    pub number: usize,
    pub order: Order,
}

/// Whether the text says that the client itself refused its command of the event.
pub fn refuses_own(client: ClientNo, number: usize, text: &Text) -> bool
    ensures { result ≡ follows.refuses_own client number text.now }
{
    match text {
        Text::Refused(to, command, refusal) => {
            is_own(*refusal) && (client == *to && number == *command as usize)
        }
        _ => false,
    }
}
