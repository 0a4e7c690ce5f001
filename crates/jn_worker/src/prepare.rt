// An active work is prepared.
ghost use Rattle.std.specs.Prelude.{◌≡◌, true, [], None, OnOk, IfErr, is_ok};
ghost use Rattle.jn_base.specs.declared.names.Tickets.{Tickets};
ghost use Rattle.jn_base.specs.declared.names.Tid.{Tid};
ghost use Rattle.jn_rows.specs.declared.worker.ActiveWork.{ActiveWork};
ghost use Rattle.jn_rows.specs.Worker as rows;
ghost use Rattle.jn_lock_rows.specs.Calls.{IsActive};
ghost use Rattle.jn_storage.specs.Calls.{WorkPrepared};
ghost use Rattle.jn_storage.specs.DeviceCalls.{prepare_calls};
ghost use Rattle.jn_worker.specs.Calls.{Takes, Stores, head_of, refusal_of};
ghost use Rattle.jn_base.specs.declared.fault.CallFault.TheVariants.{Memory};
ghost use Rattle.jn_worker.specs.Fitting.{Fits, seen, is_active};

use crate::words::WorkerFault;
use crate::worker::Worker;
use jn_base::{ClientNo, Party, Resource, Tickets, Tid, WorkId};
use jn_lock_rows::{grant_storing, note_breaks, test_storing, work_at};
use jn_msgs::{Message, Out, Vote};
use jn_records::WorkHead;
use jn_rows::Phase;
use jn_storage::{PrepareFault, WorkStore};

/// The vote where something is short.
fn refusal_of(fault: PrepareFault) -> Result<Vote, WorkerFault>
    ensures { result ≡ refusal_of fault }
{
    match fault {
        PrepareFault::Records(short) => Ok(Vote::Full(Resource::Records, short.free, short.need)),
        PrepareFault::Pages(short) => Ok(Vote::Full(Resource::Pages, short.free, short.need)),
        PrepareFault::Heads(short) => Ok(Vote::Full(Resource::Heads, short.free, short.need)),
        PrepareFault::Stopped => Err(WorkerFault::Stopped),
        PrepareFault::Memory => Err(WorkerFault::Memory),
    }
}

impl Worker {
    /// Stores an active work that nothing stands in the way of.
    fn store_work<W: WorkStore>(
        &self,
        store: &mut W,
        client: ClientNo,
        name: WorkId,
    ) -> Result<(), PrepareFault>
        requires fits { Fits self.now (W.view store.old) }
        requires active { is_active (rows.work_at name self.now.table) ≡ true }
        requires free { (T : Tid) (a : ActiveWork) → IsActive self.now.table T name a → rows.conflict name (rows.commit_wants a.writes) self.now.table ≡ None }
        ensures stored { (T : Tid) (a : ActiveWork) → IsActive self.now.table T name a → WorkPrepared (W.view store.old) (head_of name T client) a.list a.reads result (W.view store.new) }
    {
        let Some(work) = work_at(&self.works, name) else {
            unreachable!()
        };
        let Phase::Active(active) = &work.phase else {
            unreachable!()
        };
        let head = WorkHead {
            work: name,
            tid: work.tid,
            client,
        };
        store.prepare(
            self.alloc,
            &head,
            active.list.list(),
            active.reads.as_slice(),
        )
    }

    /// Turns the locks of an active work that is stored into those of a prepared one, breaks the works in the way, and
    /// votes.
    fn vote_ready(&mut self, tid: Tid, name: WorkId, out: &mut Out) -> Result<(), WorkerFault>
        requires active { is_active (rows.work_at name self.old.table) ≡ true }
        ensures stores { OnOk result ((T : Tid) (a : ActiveWork) → IsActive self.old.table T name a → Stores self.old T name a tid out.old self.new out.new) }
        ensures memory { IfErr result (λ fault. fault ≡ Memory) }
    {
        let Some(work) = work_at(&self.works, name) else {
            unreachable!()
        };
        let by = work.tid;
        let Ok(granted) = grant_storing(self.alloc, &mut self.locks, &mut self.works, by, name)
        else {
            return Err(WorkerFault::Memory);
        };
        note_breaks(out, &self.works, granted.broken(), by)?;
        out.send(
            Party::Server(tid.server),
            Message::Vote(tid, name, Vote::Ready),
        )?;
        Ok(())
    }

    /// Prepares an active work, or votes why it isn't.
    pub(crate) fn prepare_active<W: WorkStore>(
        &mut self,
        store: &mut W,
        tid: Tid,
        client: ClientNo,
        name: WorkId,
        out: &mut Out,
    ) -> Result<(), WorkerFault>
        requires fits { Fits self.old (W.view store.old) }
        requires active { is_active (rows.work_at name self.old.table) ≡ true }
        ensures takes { (k : Tickets) → Takes prepare_calls (rows.prepare_row self.old.table (seen (W.view store.old)) k tid client name (rows.work_at name self.old.table)) self.old (W.view store.old) out.old k result self.new (W.view store.new) out.new k }
        ensures kept { (k : Tickets) → (rows.prepare_row self.old.table (seen (W.view store.old)) k tid client name (rows.work_at name self.old.table)).changes ≡ [] → W.view store.new ≡ W.view store.old }
    {
        if let Some((unit, by)) = test_storing(&self.locks, &self.works, name) {
            let waiting = Vote::Waiting(unit, by);
            return Ok(out.send(Party::Server(tid.server), Message::Vote(tid, name, waiting))?);
        }
        if let Err(fault) = self.store_work(store, client, name) {
            let full = refusal_of(fault)?;
            return Ok(out.send(Party::Server(tid.server), Message::Vote(tid, name, full))?);
        }
        self.vote_ready(tid, name, out)?;
        Ok(())
    }

    /// Whether the work of this name is active.
    pub(crate) fn is_active(&self, name: WorkId) -> bool
        ensures { result ≡ is_active (rows.work_at name self.now.table) }
    {
        match work_at(&self.works, name) {
            Some(work) => matches!(work.phase, Phase::Active(_)),
            None => false,
        }
    }

    /// The coordinator asks for the work's vote.
    pub(crate) fn prepare<W: WorkStore>(
        &mut self,
        store: &mut W,
        tid: Tid,
        client: ClientNo,
        name: WorkId,
        tickets: &Tickets,
        out: &mut Out,
    ) -> Result<(), WorkerFault>
        requires fits { Fits self.old (W.view store.old) }
        ensures takes { Takes prepare_calls (rows.prepare_row self.old.table (seen (W.view store.old)) tickets.now tid client name (rows.work_at name self.old.table)) self.old (W.view store.old) out.old tickets.now result self.new (W.view store.new) out.new tickets.now }
        ensures kept { (rows.prepare_row self.old.table (seen (W.view store.old)) tickets.now tid client name (rows.work_at name self.old.table)).changes ≡ [] → W.view store.new ≡ W.view store.old }
    {
        if self.is_active(name) {
            self.prepare_active(store, tid, client, name, out)
        } else {
            self.vote_again(tid, name, tickets, out)
        }
    }
}
