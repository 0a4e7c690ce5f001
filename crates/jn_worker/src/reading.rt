// The next operation of an active work, whose answer may be a block that has to be read.
ghost use Rattle.std.specs.Prelude.{◌≡◌, ◌+◌, true, false, not, nat_eq, is_ok, IfOk};
ghost use Rattle.jn_base.specs.declared.names.Tickets.{Tickets};
ghost use Rattle.jn_base.specs.declared.names.Tid.{Tid};
ghost use Rattle.jn_msgs.specs.declared.message.Message.TheVariants as messages;
ghost use Rattle.jn_order.specs.Files.{answer_to, change, file_of};
ghost use Rattle.jn_records.specs.NetLists.{list_change, answered};
ghost use Rattle.jn_rows.specs.declared.worker.ActiveWork.{ActiveWork};
ghost use Rattle.jn_rows.specs.Worker as rows;
ghost use Rattle.jn_lock_rows.specs.Calls.{IsActive, rephased};
ghost use Rattle.jn_storage.specs.Calls.{state};
ghost use Rattle.jn_storage.specs.Storage.{IsServing};
ghost use Rattle.jn_storage.specs.Viewing.{Viewed};
ghost use Rattle.jn_base.specs.Ops.{BlockInRange};
ghost use Rattle.jn_storage.specs.DeviceCalls.{prepare_calls};
ghost use Rattle.jn_worker.specs.Calls.{Takes, has_stopped};
ghost use Rattle.jn_works.specs.Changing.{tallied};
ghost use Rattle.jn_worker.specs.Reading.{ReadSettles, OnlyReads, asks_now, asks_for, is_unknown};
ghost use Rattle.jn_worker.specs.Fitting.{Fits, seen, is_active};

use crate::words::WorkerFault;
use crate::worker::Worker;
use jn_base::{Answer, ClientNo, FileNo, Op, OperationNo, Party, RequestNo, Tickets, WorkId};
use jn_lock_rows::work_at;
use jn_msgs::{Message, Out};
use jn_rows::Phase;
use jn_storage::{StoredFiles, WorkStore, view};
use jn_works::tally;
use std::alloc::AllocError;

fn file_of(op: &Op) -> FileNo
    ensures { result ≡ file_of op.now }
{
    match op {
        Op::Create(f) | Op::Remove(f) | Op::Cut(f, _) | Op::Read(f, _) | Op::Write(f, _, _) => *f,
    }
}

impl Worker {
    /// Whether the active work's next operation has this number.
    fn is_next(&self, name: WorkId, number: OperationNo) -> bool
        requires active { is_active (rows.work_at name self.now.table) ≡ true }
        ensures { (T : Tid) (a : ActiveWork) → IsActive self.now.table T name a → result ≡ nat_eq number.0 (a.last + 1) }
    {
        let Some(work) = work_at(&self.works, name) else {
            unreachable!()
        };
        let Phase::Active(active) = &work.phase else {
            unreachable!()
        };
        active.last.checked_add(1) == Some(number.0)
    }

    /// What an operation of the active work is answered; none where it is the stored block.
    fn known_answer<W: StoredFiles>(
        &self,
        store: &W,
        name: WorkId,
        op: &Op,
    ) -> Result<Option<Answer>, AllocError>
        requires serving { IsServing (W.view store.now) }
        requires active { is_active (rows.work_at name self.now.table) ≡ true }
        ensures { IfOk result (λ known. (T : Tid) (a : ActiveWork) → IsActive self.now.table T name a → answer_to op.now (change (list_change a.list) (state (W.view store.now)).files) ≡ answered known op.now (state (W.view store.now)).files) }
    {
        let Some(work) = work_at(&self.works, name) else {
            unreachable!()
        };
        let Phase::Active(active) = &work.phase else {
            unreachable!()
        };
        active
            .list
            .answer(self.alloc, op, store.file_there(file_of(op)))
    }

    /// Reads the block of a read that was granted, and keeps it as the answer.
    fn read_granted<W: WorkStore>(
        &mut self,
        store: &mut W,
        name: WorkId,
        number: OperationNo,
        op: &Op,
    ) -> Result<Answer, WorkerFault>
        requires serving { IsServing (W.view store.old) }
        requires range { BlockInRange op.now }
        requires active { is_active (rows.work_at name self.old.table) ≡ true }
        ensures viewed { (T : Tid) (a : ActiveWork) → IsActive self.old.table T name a → Viewed a.list (W.view store.old) op.now result (W.view store.new) }
        ensures kept { IfOk result (λ answer. self.new ≡ record self.old { table = rephased name (tallied number.0 answer) self.old.table }) }
    {
        let Some(work) = work_at(&self.works, name) else {
            unreachable!()
        };
        let Phase::Active(active) = &work.phase else {
            unreachable!()
        };
        let answer = view(self.alloc, &active.list, store, op)?;
        let kept = answer.copy()?;
        tally(&mut self.works, name, number.0, kept);
        Ok(answer)
    }

    /// Does a read whose answer isn't known: where it is granted, the block is read. What is to be answered.
    fn settle_read<W: WorkStore>(
        &mut self,
        store: &mut W,
        name: WorkId,
        number: OperationNo,
        op: &Op,
        out: &mut Out,
    ) -> Result<Answer, WorkerFault>
        requires serving { IsServing (W.view store.old) }
        requires range { BlockInRange op.now }
        requires active { is_active (rows.work_at name self.old.table) ≡ true }
        requires next { (T : Tid) (a : ActiveWork) → IsActive self.old.table T name a → number.0 ≡ a.last + 1 }
        requires unknown { (T : Tid) (a : ActiveWork) → IsActive self.old.table T name a → is_unknown a op.now (W.view store.old) }
        ensures settled { IfOk result (λ told. (T : Tid) (a : ActiveWork) → IsActive self.old.table T name a → ReadSettles self.old (W.view store.old) T name a op.now told out.old self.new out.new) }
        ensures reads { (T : Tid) (a : ActiveWork) → IsActive self.old.table T name a → OnlyReads (asks_now self.old.table (W.view store.old) name a op.now) (W.view store.old) (not (has_stopped result)) (W.view store.new) }
        ensures silent { has_stopped result ≡ true → out.new ≡ out.old }
    {
        let (messages, notes) = (out.messages().len(), out.notes().len());
        // This stands in for the answer until the block is read.
        if let Some(refusal) = self.settle(name, number, op, Answer::Did, out)? {
            return Ok(refusal);
        }
        match self.read_granted(store, name, number, op) {
            Ok(answer) => Ok(answer),
            Err(fault) => {
                out.truncate(messages, notes);
                Err(fault)
            }
        }
    }

    /// Does the next operation of an active work, a read whose answer isn't known, and answers the client.
    fn read<W: WorkStore>(
        &mut self,
        store: &mut W,
        client: ClientNo,
        request: RequestNo,
        name: WorkId,
        number: OperationNo,
        op: &Op,
        out: &mut Out,
    ) -> Result<(), WorkerFault>
        requires fits { Fits self.old (W.view store.old) }
        requires range { BlockInRange op.now }
        requires active { is_active (rows.work_at name self.old.table) ≡ true }
        requires next { (T : Tid) (a : ActiveWork) → IsActive self.old.table T name a → number.0 ≡ a.last + 1 }
        requires unknown { (T : Tid) (a : ActiveWork) → IsActive self.old.table T name a → is_unknown a op.now (W.view store.old) }
        ensures takes { (k : Tickets) → Takes prepare_calls (rows.worker_row self.old.table (seen (W.view store.old)) k (messages.Op client request name number op.now)) self.old (W.view store.old) out.old k result self.new (W.view store.new) out.new k }
        ensures asks { asks_for self.old.table (W.view store.old) name number op.now (rows.work_at name self.old.table) ≡ false → W.view store.new ≡ W.view store.old }
        ensures same { is_ok result ≡ true → (W.view store.new).accounts ≡ (W.view store.old).accounts }
    {
        let answer = self.settle_read(store, name, number, op, out)?;
        let message = Message::Answer(client, request, answer);
        Ok(out.send(Party::Client(client), message)?)
    }

    /// A client asks for an operation. The device is asked only for a stored block, and only where its read is granted.
    pub(crate) fn operate<W: WorkStore>(
        &mut self,
        store: &mut W,
        client: ClientNo,
        request: RequestNo,
        name: WorkId,
        number: OperationNo,
        op: &Op,
        tickets: &Tickets,
        out: &mut Out,
    ) -> Result<(), WorkerFault>
        requires fits { Fits self.old (W.view store.old) }
        requires range { BlockInRange op.now }
        ensures takes { Takes prepare_calls (rows.worker_row self.old.table (seen (W.view store.old)) tickets.now (messages.Op client request name number op.now)) self.old (W.view store.old) out.old tickets.now result self.new (W.view store.new) out.new tickets.now }
        ensures asks { asks_for self.old.table (W.view store.old) name number op.now (rows.work_at name self.old.table) ≡ false → W.view store.new ≡ W.view store.old }
        ensures same { is_ok result ≡ true → (W.view store.new).accounts ≡ (W.view store.old).accounts }
    {
        if !self.is_active(name) {
            return self.refuse_operation(client, request, name, tickets, out);
        }
        if !self.is_next(name, number) {
            return self.repeat(client, request, name, number, out);
        }
        let known = self.known_answer(store, name, op)?;
        match known {
            Some(answer) => self.perform(client, request, name, number, op, answer, out),
            None => self.read(store, client, request, name, number, op, out),
        }
    }
}
