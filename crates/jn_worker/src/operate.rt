// Operations of an active work.
ghost use Rattle.std.specs.Prelude.{◌≡◌, ◌+◌, true, false, nat_eq, None, ℕ, IfOk, IfErr, OnOk, OnErr, length, if◌then◌else◌};
ghost use Rattle.jn_base.specs.declared.names.Tickets.{Tickets};
ghost use Rattle.jn_base.specs.declared.names.Tid.{Tid};
ghost use Rattle.jn_base.specs.declared.op.Op.{Op as AnyOp};
ghost use Rattle.jn_storage.specs.Storage.{StorageView};
ghost use Rattle.jn_order.specs.Files.{answer_to, change};
ghost use Rattle.jn_records.specs.NetLists.{list_change, length_with};
ghost use Rattle.jn_storage.specs.Calls.{state};
ghost use Rattle.jn_base.specs.Ops.{BlockInRange};
ghost use Rattle.jn_storage.specs.DeviceCalls.{prepare_calls};
ghost use Rattle.jn_locks.specs.declared.words.Mode.TheVariants as modes;
ghost use Rattle.jn_msgs.specs.declared.message.Message.TheVariants as messages;
ghost use Rattle.jn_fields.specs.Reading.{Gives};
ghost use Rattle.jn_rows.specs.declared.worker.ActiveWork.{ActiveWork};
ghost use Rattle.jn_rows.specs.Worker as rows;
ghost use Rattle.jn_lock_rows.specs.Calls.{IsActive};
ghost use Rattle.jn_worker.specs.Calls.{Takes, Granted, Settles, locked_by, told_of};
ghost use Rattle.jn_base.specs.declared.fault.CallFault.TheVariants.{Memory};
ghost use Rattle.jn_worker.specs.Fitting.{Fits, seen, is_active};

use crate::words::WorkerFault;
use crate::worker::Worker;
use jn_base::{
    Answer, ClientNo, LockUnit, MOST_INTENTIONS, MOST_READS, Op, OperationNo, Party, RequestNo,
    Tid, WorkId,
};
use jn_lock_rows::{Refused, grant_operation, note_breaks, operation_wants, units_with, work_at};
use jn_locks::Mode;
use jn_msgs::{Message, Note, Out};
use jn_records::{ListOf, NetList};
use jn_rows::{ActiveWork, Phase};
use jn_works::{swap_list, tally};
use std::alloc::{AllocError, Global};

/// At the 41st read unit, or the 25th intention.
fn past_limit(reads: usize, intentions: usize) -> Option<Answer>
    ensures { result ≡ rows.past_limit reads intentions }
{
    if reads > MOST_READS {
        Some(Answer::TooManyReads)
    } else if intentions > MOST_INTENTIONS {
        Some(Answer::TooManyWrites)
    } else {
        None
    }
}

/// Whether the file is as the operation needs it.
fn is_fit(answer: &Answer) -> bool
    ensures { result ≡ rows.is_fit answer.now }
{
    !matches!(answer, Answer::NoFile | Answer::Exists)
}

/// How many intentions a work has once an operation is done.
fn intentions(work: &ActiveWork, op: &Op, fit: bool) -> usize
    ensures { result ≡ (if fit then length_with work.now.list op.now else length work.now.list) }
{
    if fit {
        work.list.length_with(op)
    } else {
        work.list.list().len()
    }
}

/// What a work holds once an operation is granted: its read units, and its written ones.
fn units_after(
    alloc: Global,
    work: &ActiveWork,
    op: &Op,
    fit: bool,
) -> Result<(Vec<LockUnit>, Vec<LockUnit>), AllocError>
    ensures reads { IfOk result (λ u. u.0.items ≡ rows.with_units (rows.units_for modes.Read (rows.wants_of op.now fit)) work.now.reads) }
    ensures writes { IfOk result (λ u. u.1.items ≡ rows.with_units (rows.units_for modes.IntentionWrite (rows.wants_of op.now fit)) work.now.writes) }
{
    let wants = operation_wants(op, fit);
    let reads = units_with(alloc, work.reads.as_slice(), wants.as_slice(), Mode::Read)?;
    let writes = units_with(
        alloc,
        work.writes.as_slice(),
        wants.as_slice(),
        Mode::IntentionWrite,
    )?;
    Ok((reads, writes))
}

/// What an operation is answered whose wants aren't granted.
fn locked(refused: Refused) -> Result<Answer, WorkerFault>
    ensures { result ≡ locked_by refused }
{
    match refused {
        Refused::Held(unit, tid) => Ok(Answer::Locked(unit, tid)),
        Refused::Memory => Err(WorkerFault::Memory),
    }
}

/// A refusal, or else the answer.
fn told(refusal: Option<Answer>, answer: Answer) -> Answer
    ensures { result ≡ told_of answer refusal }
{
    match refusal {
        Some(refusal) => refusal,
        None => answer,
    }
}

impl Worker {
    /// Grants what an operation wants, breaks the works in the way, and adds it to the work's list, or answers why
    /// not. `units` are those that the work holds then.
    fn grant(
        &mut self,
        name: WorkId,
        number: OperationNo,
        op: &Op,
        answer: Answer,
        units: (Vec<LockUnit>, Vec<LockUnit>),
        out: &mut Out,
    ) -> Result<Option<Answer>, WorkerFault>
        requires active { is_active (rows.work_at name self.old.table) ≡ true }
        requires reads { (T : Tid) (a : ActiveWork) → IsActive self.old.table T name a → units.0.items ≡ rows.with_units (rows.units_for modes.Read (rows.wants_of op.now (rows.is_fit answer))) a.reads }
        requires writes { (T : Tid) (a : ActiveWork) → IsActive self.old.table T name a → units.1.items ≡ rows.with_units (rows.units_for modes.IntentionWrite (rows.wants_of op.now (rows.is_fit answer))) a.writes }
        ensures granted { IfOk result (λ refusal. (T : Tid) (a : ActiveWork) → IsActive self.old.table T name a → number.0 ≡ a.last + 1 → Granted self.old T name a op.now answer refusal out.old self.new out.new) }
        ensures memory { IfErr result (λ fault. fault ≡ Memory) }
    {
        let Some(work) = work_at(&self.works, name) else {
            unreachable!()
        };
        let Phase::Active(active) = &work.phase else {
            unreachable!()
        };
        let (tid, vulnerable) = (work.tid, active.vulnerable);
        let fit = is_fit(&answer);
        let mut list = swap_list(&mut self.works, name, NetList::new(self.alloc));
        let next = ActiveWork {
            list: NetList::new(self.alloc),
            reads: ListOf::from_vec(units.0),
            writes: ListOf::from_vec(units.1),
            last: number.0,
            kept: Some(answer),
            vulnerable,
        };
        let granted = match grant_operation(
            self.alloc,
            &mut self.locks,
            &mut self.works,
            tid,
            name,
            op,
            fit,
            next,
        ) {
            Ok(granted) => granted,
            Err(refused) => {
                let _none = swap_list(&mut self.works, name, list);
                let refusal = locked(refused)?;
                let kept = refusal.copy()?;
                tally(&mut self.works, name, number.0, kept);
                return Ok(Some(refusal));
            }
        };
        if fit {
            list.add(op)?;
        }
        let _none = swap_list(&mut self.works, name, list);
        note_breaks(out, &self.works, granted.broken(), tid)?;
        Ok(None)
    }

    /// Does an operation of an active work whose answer is known, or answers why not.
    pub(crate) fn settle(
        &mut self,
        name: WorkId,
        number: OperationNo,
        op: &Op,
        answer: Answer,
        out: &mut Out,
    ) -> Result<Option<Answer>, WorkerFault>
        requires active { is_active (rows.work_at name self.old.table) ≡ true }
        ensures settled { IfOk result (λ refusal. (T : Tid) (a : ActiveWork) → IsActive self.old.table T name a → number.0 ≡ a.last + 1 → Settles self.old T name a op.now answer refusal out.old self.new out.new) }
        ensures memory { IfErr result (λ fault. fault ≡ Memory) }
    {
        let Some(work) = work_at(&self.works, name) else {
            unreachable!()
        };
        let Phase::Active(active) = &work.phase else {
            unreachable!()
        };
        let fit = is_fit(&answer);
        let units = units_after(self.alloc, active, op, fit)?;
        if let Some(refusal) = past_limit(units.0.len(), intentions(active, op, fit)) {
            let kept = refusal.copy()?;
            tally(&mut self.works, name, number.0, kept);
            return Ok(Some(refusal));
        }
        let refusal = self.grant(name, number, op, answer, units, out)?;
        Ok(refusal)
    }

    /// Does the next operation of an active work, whose answer is known, and answers the client.
    pub(crate) fn perform(
        &mut self,
        client: ClientNo,
        request: RequestNo,
        name: WorkId,
        number: OperationNo,
        op: &Op,
        answer: Answer,
        out: &mut Out,
    ) -> Result<(), WorkerFault>
        requires active { is_active (rows.work_at name self.old.table) ≡ true }
        requires next { (T : Tid) (a : ActiveWork) → IsActive self.old.table T name a → number.0 ≡ a.last + 1 }
        ensures takes { (v : StorageView) (k : Tickets) → Fits self.old v → BlockInRange op.now → ((T : Tid) (a : ActiveWork) → IsActive self.old.table T name a → answer ≡ answer_to op.now (change (list_change a.list) (state v).files)) → Takes prepare_calls (rows.worker_row self.old.table (seen v) k (messages.Op client request name number op.now)) self.old v out.old k result self.new v out.new k }
    {
        let kept = answer.copy()?;
        let refusal = self.settle(name, number, op, kept, out)?;
        let told = told(refusal, answer);
        let message = Message::Answer(client, request, told);
        Ok(out.send(Party::Client(client), message)?)
    }

    /// An operation of an active work that isn't its next one: the last one is answered again.
    pub(crate) fn repeat(
        &self,
        client: ClientNo,
        request: RequestNo,
        name: WorkId,
        number: OperationNo,
        out: &mut Out,
    ) -> Result<(), WorkerFault>
        requires active { is_active (rows.work_at name self.now.table) ≡ true }
        requires other { (T : Tid) (a : ActiveWork) → IsActive self.now.table T name a → nat_eq number.0 (a.last + 1) ≡ false }
        ensures takes { (v : StorageView) (k : Tickets) (op : AnyOp) → Fits self.now v → Takes prepare_calls (rows.worker_row self.now.table (seen v) k (messages.Op client request name number op)) self.now v out.old k result self.now v out.new k }
    {
        if let Some(answer) = self.kept_answer(name, number) {
            let again = answer.copy()?;
            let message = Message::Answer(client, request, again);
            return Ok(out.send(Party::Client(client), message)?);
        }
        Ok(out.note(Note::Ignored)?)
    }

    /// What the active work's operation of this number was answered, if it was its last one.
    fn kept_answer(&self, name: WorkId, number: OperationNo) -> Option<&Answer>
        requires active { is_active (rows.work_at name self.now.table) ≡ true }
        ensures { (T : Tid) (a : ActiveWork) → IsActive self.now.table T name a → Gives (λ answer. answer.now) result (if nat_eq number.0 a.last then a.kept else None) }
    {
        let Some(work) = work_at(&self.works, name) else {
            unreachable!()
        };
        let Phase::Active(active) = &work.phase else {
            unreachable!()
        };
        if number.0 == active.last {
            active.kept.as_ref()
        } else {
            None
        }
    }
}
