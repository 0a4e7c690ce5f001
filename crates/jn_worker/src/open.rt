// A work is opened.
ghost use Rattle.std.specs.Prelude.{◌≡◌, ◌+◌, ◌<◌, ◌^◌, true};
ghost use Rattle.jn_rows.specs.Worker as rows;
ghost use Rattle.jn_lock_rows.specs.Matching.{is_after};
ghost use Rattle.jn_storage.specs.Storage.{StorageView};
ghost use Rattle.jn_storage.specs.DeviceCalls.{prepare_calls};
ghost use Rattle.jn_worker.specs.Calls.{Takes};
ghost use Rattle.jn_worker.specs.Fitting.{Fits, TicketsFit};

use crate::words::WorkerFault;
use crate::worker::Worker;
use jn_base::{ClientNo, MOST_WORKS, Party, RequestNo, Tickets, Tid, WorkId};
use jn_lock_rows::open_work;
use jn_msgs::{Message, Out};
use jn_works::work_of;

fn name_from(tickets: &Tickets) -> WorkId
    ensures { result ≡ rows.name_from tickets.now }
{
    WorkId {
        server: tickets.server,
        epoch: tickets.epoch,
        ticket: tickets.next,
    }
}

impl Worker {
    /// A client opens its transaction here.
    pub(crate) fn open(
        &mut self,
        client: ClientNo,
        request: RequestNo,
        tid: Tid,
        tickets: &mut Tickets,
        out: &mut Out,
    ) -> Result<(), WorkerFault>
        requires room { tickets.old.next + 1 < 2 ^ 32 }
        requires after { is_after (rows.name_from tickets.old) self.old.table ≡ true }
        ensures takes { (v : StorageView) → Fits self.old v → TicketsFit self.old.table v tickets.old → Takes prepare_calls (rows.open_row self.old.table tickets.old client request tid (rows.work_of tid self.old.table)) self.old v out.old tickets.old result self.new v out.new tickets.new }
    {
        if let Some(work) = work_of(&self.works, tid) {
            let opened = Message::Opened(client, request, tid, Some(work.name));
            return Ok(out.send(Party::Client(client), opened)?);
        }
        if self.works.len() >= MOST_WORKS {
            let refused = Message::Opened(client, request, tid, None);
            return Ok(out.send(Party::Client(client), refused)?);
        }
        let name = name_from(tickets);
        open_work(self.alloc, &mut self.locks, &mut self.works, tid, name)?;
        tickets.next += 1;
        let opened = Message::Opened(client, request, tid, Some(name));
        Ok(out.send(Party::Client(client), opened)?)
    }
}
