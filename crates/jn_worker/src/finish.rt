// What ends a work: its transaction's outcome.
ghost use Rattle.std.specs.Prelude.{◌≡◌, true, []};
ghost use Rattle.jn_base.specs.declared.names.Tickets.{Tickets};
ghost use Rattle.jn_rows.specs.Worker as rows;
ghost use Rattle.jn_worker.specs.Calls.{Takes};
ghost use Rattle.jn_worker.specs.Fitting.{Fits, seen, is_stored};

use crate::words::WorkerFault;
use crate::worker::Worker;
use jn_base::{Party, Tid, WorkId};
use jn_lock_rows::work_at;
use jn_msgs::{Message, Note, Out};
use jn_rows::Phase;
use jn_storage::WorkStore;
use jn_works::{is_in, remove};

/// Whether a work is prepared.
pub(crate) fn is_prepared(phase: &Phase) -> bool
    ensures { result ≡ is_stored phase.now }
{
    matches!(phase, Phase::Prepared(_))
}

impl Worker {
    /// The transaction has committed.
    pub(crate) fn commit<W: WorkStore>(
        &mut self,
        store: &mut W,
        tid: Tid,
        name: WorkId,
        out: &mut Out,
    ) -> Result<(), WorkerFault>
        requires fits { Fits self.old (W.view store.old) }
        ensures takes { (k : Tickets) → Takes 16 (rows.commit_row self.old.table (seen (W.view store.old)) k tid name (rows.work_at name self.old.table)) self.old (W.view store.old) out.old k result self.new (W.view store.new) out.new k }
        ensures kept { (k : Tickets) → (rows.commit_row self.old.table (seen (W.view store.old)) k tid name (rows.work_at name self.old.table)).changes ≡ [] → W.view store.new ≡ W.view store.old }
    {
        let Some(work) = work_at(&self.works, name) else {
            return Ok(out.send(Party::Server(tid.server), Message::Done(tid, name))?);
        };
        if !is_prepared(&work.phase) || is_in(&self.going, name) {
            return Ok(out.note(Note::Ignored)?);
        }
        self.going.reserve(1)?;
        store.mark_going(name)?;
        self.going.push_reserved(name);
        Ok(())
    }

    /// The transaction won't commit.
    pub(crate) fn drop_work<W: WorkStore>(
        &mut self,
        store: &mut W,
        name: WorkId,
        out: &mut Out,
    ) -> Result<(), WorkerFault>
        requires fits { Fits self.old (W.view store.old) }
        ensures takes { (k : Tickets) → Takes 16 (rows.drop_row self.old.table (seen (W.view store.old)) k name (rows.work_at name self.old.table)) self.old (W.view store.old) out.old k result self.new (W.view store.new) out.new k }
        ensures kept { (k : Tickets) → (rows.drop_row self.old.table (seen (W.view store.old)) k name (rows.work_at name self.old.table)).changes ≡ [] → W.view store.new ≡ W.view store.old }
    {
        let Some(work) = work_at(&self.works, name) else {
            return Ok(out.note(Note::Ignored)?);
        };
        if is_in(&self.going, name) {
            return Ok(out.note(Note::Ignored)?);
        }
        if is_prepared(&work.phase) {
            store.drop_ready(name)?;
        }
        self.locks.release(name);
        remove(&mut self.works, name);
        Ok(())
    }
}
