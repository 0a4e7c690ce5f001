// What a worker does with a message.
ghost use Rattle.std.specs.Prelude.{◌≡◌, ◌+◌, ◌<◌, ◌^◌, true, false, [], is_ok};
ghost use Rattle.jn_storage.specs.DeviceCalls.{prepare_calls};
ghost use Rattle.jn_rows.specs.Worker as rows;
ghost use Rattle.jn_worker.specs.Calls.{Takes};
ghost use Rattle.jn_worker.specs.Handling.{asks_device};
ghost use Rattle.jn_msgs.specs.Ranges.{CanBeTaken};
ghost use Rattle.jn_worker.specs.Fitting.{Fits, TicketsFit, seen};

use crate::words::WorkerFault;
use crate::worker::Worker;
use jn_base::Tickets;
use jn_msgs::{Message, Note, Out};
use jn_storage::WorkStore;

impl Worker {
    /// Does what a message asks of a worker; one that no worker takes is ignored. A worker that is stopped sends nothing,
    /// and is of no more use.
    #[tactic(auto, using(crate::proofs::Counts::no_changes, crate::proofs::Exits::raised))]
    pub fn handle<W: WorkStore>(
        &mut self,
        store: &mut W,
        message: &Message,
        tickets: &mut Tickets,
        out: &mut Out,
    ) -> Result<(), WorkerFault>
        requires fits { Fits self.old (W.view store.old) }
        requires tickets { TicketsFit self.old.table (W.view store.old) tickets.old }
        requires next { tickets.old.next + 1 < 2 ^ 32 }
        requires taken { CanBeTaken message.now }
        ensures takes { Takes prepare_calls (rows.worker_row self.old.table (seen (W.view store.old)) tickets.old message.now) self.old (W.view store.old) out.old tickets.old result self.new (W.view store.new) out.new tickets.new }
        ensures asks { asks_device self.old.table (W.view store.old) tickets.old message.now ≡ false → W.view store.new ≡ W.view store.old }
        ensures same { (rows.worker_row self.old.table (seen (W.view store.old)) tickets.old message.now).changes ≡ [] → is_ok result ≡ true → (W.view store.new).accounts ≡ (W.view store.old).accounts }
    {
        match message {
            Message::Open(client, request, tid) => {
                self.open(*client, *request, *tid, tickets, out)
            }
            Message::Op(client, request, name, number, op) => {
                self.operate(store, *client, *request, *name, *number, op, tickets, out)
            }
            Message::Prepare(tid, client, name) => {
                self.prepare(store, *tid, *client, *name, tickets, out)
            }
            Message::Commit(tid, name) => self.commit(store, *tid, *name, out),
            Message::Drop(_, name) => self.drop_work(store, *name, out),
            _ => Ok(out.note(Note::Ignored)?),
        }
    }
}
