//! What a coordinator does with a message.

ghost use Rattle.std.specs.Prelude.{◌≡◌, ◌+◌, ◌<◌, ◌^◌, false, OnOk, OnErr};
ghost use Rattle.jn_base.specs.declared.names.Tickets.{Tickets};
ghost use Rattle.jn_rows.specs.Coordinator as rows;
ghost use Rattle.jn_coord.specs.Remembered.{table_of};
ghost use Rattle.jn_coord.specs.Calls.{FitsStorage, Does, free_of};
ghost use Rattle.jn_coord.specs.Beginning.{TicketsFit};
ghost use Rattle.jn_coord.specs.Handling.{Handles, is_begin};
ghost use Rattle.jn_msgs.specs.Ranges.{CanBeTaken};

use crate::coordinator::Coordinator;
use jn_base::Tickets;
use jn_msgs::{Message, Note, Out};
use jn_storage::FlagStore;
use jn_transactions::{CoordFault, note};

impl Coordinator {
    /// Takes a message that draws no name.
    fn take<F: FlagStore>(
        &mut self,
        store: &mut F,
        message: &Message,
        tickets: Tickets,
        out: &mut Out,
    ) -> Result<(), CoordFault>
        requires fits { FitsStorage self.old (F.view store.old) }
        requires taken { CanBeTaken message.now }
        requires other { is_begin message.now ≡ false }
        ensures { Does (rows.coordinator_row (table_of self.old) (free_of (F.view store.old)) tickets message.now) self.old (F.view store.old) out.old result self.new (F.view store.new) out.new }
    {
        match message {
            Message::End(client, request, tid, works) => {
                self.end(store, *client, *request, *tid, works, tickets, out)
            }
            Message::Abort(client, _, tid, works) => {
                self.abort_request(store, *client, *tid, works, tickets, out)
            }
            Message::Thanks(_, tid) => self.thanks(store, *tid, out),
            Message::Vote(tid, work, vote) => self.vote(store, *tid, *work, *vote, out),
            Message::Done(tid, work) => self.done(store, *tid, *work, out),
            Message::Inquire(tid, work) => self.inquire(*tid, *work, out),
            _ => note(out, Note::Ignored),
        }
    }

    /// Takes a message; what is sent and reported may have to be taken back.
    fn take_any<F: FlagStore>(
        &mut self,
        store: &mut F,
        message: &Message,
        tickets: &mut Tickets,
        out: &mut Out,
    ) -> Result<(), CoordFault>
        requires fits { FitsStorage self.old (F.view store.old) }
        requires taken { CanBeTaken message.now }
        requires tickets { TicketsFit self.old (F.view store.old) tickets.old }
        requires next { tickets.old.next + 1 < 2 ^ 32 }
        ensures does { Does (rows.coordinator_row (table_of self.old) (free_of (F.view store.old)) tickets.old message.now) self.old (F.view store.old) out.old result self.new (F.view store.new) out.new }
        ensures drawn { OnOk result (tickets.new ≡ (rows.coordinator_row (table_of self.old) (free_of (F.view store.old)) tickets.old message.now).tickets) }
        ensures kept { OnErr result (tickets.new ≡ tickets.old) }
    {
        if let Message::Begin(client, request) = message {
            return self.begin(store, *client, *request, tickets, out);
        }
        self.take(store, message, *tickets, out)
    }

    /// Does what a message asks of a coordinator. For want of memory nothing has changed; a coordinator that is stopped
    /// sends nothing, and is of no more use.
    pub fn handle<F: FlagStore>(
        &mut self,
        store: &mut F,
        message: &Message,
        tickets: &mut Tickets,
        out: &mut Out,
    ) -> Result<(), CoordFault>
        requires fits { FitsStorage self.old (F.view store.old) }
        requires taken { CanBeTaken message.now }
        requires tickets { TicketsFit self.old (F.view store.old) tickets.old }
        requires next { tickets.old.next + 1 < 2 ^ 32 }
        ensures handles { Handles (rows.coordinator_row (table_of self.old) (free_of (F.view store.old)) tickets.old message.now) self.old (F.view store.old) out.old tickets.old result self.new (F.view store.new) out.new tickets.new }
        ensures tickets { OnOk result (TicketsFit self.new (F.view store.new) tickets.new) }
    {
        let messages = out.messages().len();
        let notes = out.notes().len();
        match self.take_any(store, message, tickets, out) {
            Ok(()) => Ok(()),
            Err(fault) => {
                out.truncate(messages, notes);
                Err(fault)
            }
        }
    }
}
