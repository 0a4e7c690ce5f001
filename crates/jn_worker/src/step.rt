// What a worker does without a message.
ghost use Rattle.std.specs.Prelude.{◌≡◌, ◌||◌, true, is_some};
ghost use Rattle.jn_base.specs.declared.names.Tickets.{Tickets};
ghost use Rattle.jn_rows.specs.Worker as rows;
ghost use Rattle.jn_storage.specs.Calls.{IsGoing, next_of};
ghost use Rattle.jn_storage.specs.Storage.{StorageView};
ghost use Rattle.jn_storage.specs.DeviceCalls.{step_calls};
ghost use Rattle.jn_worker.specs.Calls.{Takes, Steps};
ghost use Rattle.jn_worker.specs.Fitting.{Fits, seen};
ghost use Rattle.jn_works.specs.Changing.{going_in};

use crate::words::WorkerFault;
use crate::worker::Worker;
use jn_base::{Party, Tid, WorkId};
use jn_msgs::{Message, Out};
use jn_storage::WorkStore;
use jn_works::{forget_name, going_work, remove};

impl Worker {
    /// Carries out the next intention of the going work of least name, or where none is left, forgets that work and
    /// tells its coordinator. Without a going work it erases a record that no work has. False where nothing is to do.
    pub fn step<W: WorkStore>(&mut self, store: &mut W, out: &mut Out) -> Result<bool, WorkerFault>
        requires fits { Fits self.old (W.view store.old) }
        ensures steps { (k : Tickets) → Steps (rows.worker_step self.old.table (seen (W.view store.old)) k) self.old (W.view store.old) out.old k result self.new (W.view store.new) out.new k }
    {
        let Some(work) = going_work(&self.works, &self.going) else {
            return Ok(store.erase_step()?);
        };
        let (name, tid) = (work.name, work.tid);
        self.carry_on(store, name, tid, out)?;
        Ok(true)
    }

    /// Whether some work is going. A step has something to do where one is, and also where a record is rubbish.
    pub fn has_going(&self) -> bool
        ensures going { result ≡ is_some (going_in self.now.going self.now.table) }
        ensures steps { (v : StorageView) (k : Tickets) → Fits self.now v → is_some (rows.worker_step self.now.table (seen v) k) ≡ (result || (seen v).rubbish) }
    {
        going_work(&self.works, &self.going).is_some()
    }

    /// Carries on with a going work.
    fn carry_on<W: WorkStore>(
        &mut self,
        store: &mut W,
        name: WorkId,
        tid: Tid,
        out: &mut Out,
    ) -> Result<(), WorkerFault>
        requires fits { Fits self.old (W.view store.old) }
        requires live { is_some (rows.work_at name self.old.table) ≡ true }
        requires going { IsGoing (W.view store.old) name }
        ensures takes { (k : Tickets) → Takes step_calls (rows.carried_row self.old.table k (rows.new_work name tid) (next_of (W.view store.old) name)) self.old (W.view store.old) out.old k result self.new (W.view store.new) out.new k }
    {
        // For the proof alone: the worker's invariant is known from here on.
        let _locks = &self.locks;
        if store.apply_step(name)? {
            return Ok(());
        }
        store.forget(name)?;
        self.locks.release(name);
        remove(&mut self.works, name);
        forget_name(&mut self.going, name);
        out.send(Party::Server(tid.server), Message::Done(tid, name))?;
        Ok(())
    }
}
