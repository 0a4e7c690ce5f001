// Messages to a work that doesn't take them.
ghost use Rattle.std.specs.Prelude.{◌≡◌, false, ℕ};
ghost use Rattle.jn_base.specs.declared.names.ClientNo.{ClientNo};
ghost use Rattle.jn_base.specs.declared.names.OperationNo.{OperationNo};
ghost use Rattle.jn_base.specs.declared.op.Op.{Op};
ghost use Rattle.jn_msgs.specs.declared.message.Message.TheVariants as messages;
ghost use Rattle.jn_rows.specs.Worker as rows;
ghost use Rattle.jn_storage.specs.Storage.{StorageView};
ghost use Rattle.jn_storage.specs.DeviceCalls.{prepare_calls};
ghost use Rattle.jn_worker.specs.Calls.{Takes, vote_inactive, answer_inactive};
ghost use Rattle.jn_worker.specs.Fitting.{Fits, seen, is_active};

use crate::words::WorkerFault;
use crate::worker::Worker;
use jn_base::{Answer, ClientNo, Party, RequestNo, Tickets, Tid, WorkId};
use jn_lock_rows::work_at;
use jn_msgs::{Message, Note, Out, Vote};
use jn_rows::Phase;
use jn_works::is_in;

/// What is voted for a work that isn't active, while its transaction isn't known to have committed.
fn vote_of(phase: &Phase) -> Vote
    ensures { result ≡ vote_inactive phase.now }
{
    match phase {
        Phase::Broken(unit, by) => Vote::Broken(*unit, *by),
        _ => Vote::Ready,
    }
}

/// What an operation of a work that isn't active is answered.
fn answer_of(phase: &Phase) -> Answer
    ensures { result ≡ answer_inactive phase.now }
{
    match phase {
        Phase::Broken(unit, by) => Answer::Broken(*unit, *by),
        _ => Answer::Closing,
    }
}

impl Worker {
    /// Votes for a work that isn't active.
    pub(crate) fn vote_again(
        &self,
        tid: Tid,
        name: WorkId,
        tickets: &Tickets,
        out: &mut Out,
    ) -> Result<(), WorkerFault>
        requires inactive { is_active (rows.work_at name self.now.table) ≡ false }
        ensures takes { (v : StorageView) (c : ClientNo) → Fits self.now v → Takes prepare_calls (rows.prepare_row self.now.table (seen v) tickets.now tid c name (rows.work_at name self.now.table)) self.now v out.old tickets.now result self.now v out.new tickets.now }
    {
        let Some(work) = work_at(&self.works, name) else {
            let lost = Vote::Lost(name.epoch, tickets.epoch);
            return Ok(out.send(Party::Server(tid.server), Message::Vote(tid, name, lost))?);
        };
        if is_in(&self.going, name) {
            return Ok(out.note(Note::Ignored)?);
        }
        let vote = vote_of(&work.phase);
        Ok(out.send(Party::Server(tid.server), Message::Vote(tid, name, vote))?)
    }

    /// Answers an operation of a work that isn't active.
    pub(crate) fn refuse_operation(
        &self,
        client: ClientNo,
        request: RequestNo,
        name: WorkId,
        tickets: &Tickets,
        out: &mut Out,
    ) -> Result<(), WorkerFault>
        requires inactive { is_active (rows.work_at name self.now.table) ≡ false }
        ensures takes { (v : StorageView) (number : OperationNo) (op : Op) → Fits self.now v → Takes prepare_calls (rows.worker_row self.now.table (seen v) tickets.now (messages.Op client request name number op)) self.now v out.old tickets.now result self.now v out.new tickets.now }
    {
        let answer = match work_at(&self.works, name) {
            None => Answer::Lost(name.epoch, tickets.epoch),
            Some(work) => answer_of(&work.phase),
        };
        let message = Message::Answer(client, request, answer);
        Ok(out.send(Party::Client(client), message)?)
    }
}
