//! A coordinator: what it does with each message. A private call for a transaction that its caller has found does nothing
//! where it isn't there, which never happens: its contract speaks of the transaction alone.

ghost use Rattle.std.specs.Prelude.{◌≡◌, true, false, ◌≤◌, ◌<◌, ◌+◌, ◌-◌, ◌++◌, [], ◌∷◌, length, Option, Some, None, is_some, IfErr, OnOk, OnErr};
ghost use Rattle.std.specs.Option.{option_copied};
ghost use Rattle.jn_base.specs.declared.names.Tickets.{Tickets};
ghost use Rattle.jn_base.specs.declared.names.Party.TheVariants as parties;
ghost use Rattle.jn_msgs.specs.declared.message.Message.TheVariants as messages;
ghost use Rattle.jn_msgs.specs.Collected.{Collected};
ghost use Rattle.jn_rows.specs.declared.coordinator.Transaction.{Transaction};
ghost use Rattle.jn_rows.specs.declared.coordinator.Voting.{Voting};
ghost use Rattle.jn_rows.specs.declared.coordinator.Committed.{Committed};
ghost use Rattle.jn_rows.specs.declared.coordinator.Stage.TheVariants as stages;
ghost use Rattle.jn_base.specs.declared.names.Cause.TheVariants as causes;
ghost use Rattle.jn_rows.specs.Coordinator as rows;
ghost use Rattle.jn_rows.specs.Coordinator.{CoordinatorTable};
ghost use Rattle.jn_rows.specs.Outcomes as outcomes;
ghost use Rattle.jn_storage.specs.Storage.{StorageView, IsServing};
ghost use Rattle.jn_storage.specs.Calls.{state};
ghost use Rattle.jn_base.specs.declared.fault.CallFault.TheVariants.{Stopped};
ghost use Rattle.jn_coord.specs.Remembered.{table_of};
ghost use Rattle.jn_coord.specs.Beginning.{TicketsFit};
ghost use Rattle.jn_transactions.specs.Closing.{tid_in, next_closing, knowing};
ghost use Rattle.jn_coord.specs.Closing.{going_in, LetsGo, ClosesNext, ClosesAll, ClosesClient};
ghost use Rattle.jn_transactions.specs.Telling.{Adds, added};
ghost use Rattle.jn_coord.specs.Calls.{FitsStorage, FitsWith, Does, Releases, committed_as, committed_at, spare_of, voting_in, works_in, ballot_in, stage_in, free_of, is_memory, IsPromised, ballot_row, waiting_row};

use jn_base::{Cause, ClientNo, Party, RequestNo, Resource, Tickets, Tid, WorkId};
use jn_msgs::{Message, Note, Out, Outcome, Vote, Works};
use jn_records::{Flag, ListOf};
use jn_rows::{Committed, Stage, Transaction, Voting};
use jn_storage::{FlagStore, PromiseFault};
use jn_transactions::{
    CoordFault, all_in, besides, copy_of, find, is_aborted, is_committed, is_over, is_ready,
    is_voting, is_work, know_all, known_of, new_ballot, next_closing, note, one_more_done,
    one_more_ready, remove, send_drops, send_outcome, send_prepares, set_stage, tell_abort,
    tell_all_again, tell_commit, tell_not_known, tell_work, union,
};
use std::alloc::{AllocError, Global};
use std::marker::Model;

/// A coordinator: contracts see what it remembers.
#[derive(Drop)]
pub struct Coordinator {
    /// In rising order of their names. There is room for all that may be live.
    pub(crate) transactions: Vec<Transaction>,
    /// The number of the greatest request that was seen of each client, by the client's number; 0 where none was.
    pub(crate) requests: [u32; 256],
    pub(crate) alloc: Global,
}

impl Model for Coordinator {
    ghost use Rattle.std.specs.Prelude.{◌≤◌, vec_capacity};
    ghost use Rattle.jn_base.specs.Limits.{most_transactions};
    ghost use Rattle.jn_coord.specs.Remembered.{Remembered};

    ghost Value = { Remembered };

    ghost view = { λ c. record { transactions = c.transactions.items; requests = c.requests } };

    ghost invariant = { λ c. most_transactions ≤ vec_capacity c.transactions };
}

/// Gives back a promise, where there is one.
fn release<F: FlagStore>(store: &mut F, promised: bool)
    requires serving { promised ≡ true → IsServing (F.view store.old) }
    requires promise { promised ≡ true → 0 < (F.view store.old).accounts.promised_records }
    ensures { Releases promised (F.view store.old) (F.view store.new) }
{
    if promised {
        store.release_promise();
    }
}

fn is_memory(ended: &Result<(), CoordFault>) -> bool
    ensures { result ≡ is_memory ended.now }
{
    matches!(ended, Err(CoordFault::Memory))
}

/// The stage of a transaction that has just committed.
fn committed_stage(alloc: Global, works: ListOf<WorkId>) -> Stage
    ensures { result ≡ stages.Committed (record { works = works; done = []; thanked = false }) }
{
    Stage::Committed(Committed {
        works: Works::from_vec(works.into_vec()),
        done: Works::from_vec(Vec::new(alloc)),
        thanked: false,
    })
}

impl Coordinator {
    /// The live transactions, in rising order of their names.
    pub fn transactions(&self) -> &[Transaction]
        ensures { result.now ≡ self.now.transactions }
    {
        &self.transactions
    }

    /// How many transactions are live.
    fn live(&self) -> usize
        ensures { result ≡ length self.now.transactions }
    {
        self.transactions.len()
    }

    fn find(&self, tid: Tid) -> Option<&Transaction>
        ensures { option_copied result ≡ rows.transaction_at tid self.now.transactions }
    {
        find(&self.transactions, tid)
    }

    fn set_stage(&mut self, tid: Tid, stage: Stage)
        ensures { self.new ≡ record self.old { transactions = rows.with_stage tid stage self.old.transactions } }
    {
        set_stage(&mut self.transactions, tid, stage);
    }

    fn remove(&mut self, tid: Tid)
        ensures { self.new ≡ record self.old { transactions = rows.without tid self.old.transactions } }
    {
        remove(&mut self.transactions, tid);
    }

    /// Aborts an undecided transaction: a promise is given back, these works are dropped, and the client is told.
    #[tactic(auto, using(crate::proofs::Rows::aborted, crate::proofs::Fitting::promise_for))]
    fn abort<F: FlagStore>(
        &mut self,
        store: &mut F,
        tid: Tid,
        cause: Cause,
        works: &[WorkId],
        out: &mut Out,
    ) -> Result<(), CoordFault>
        requires fits { FitsStorage self.old (F.view store.old) }
        ensures { (k : Tickets) (x : Transaction) → rows.transaction_at tid self.old.transactions ≡ Some x → committed_as x.client x.stage ≡ None
            → Does (rows.abort_row (table_of self.old) k x cause works.now) self.old (F.view store.old) out.old result self.new (F.view store.new) out.new }
    {
        let Some(x) = self.find(tid) else {
            return Ok(());
        };
        tell_abort(out, x.client, tid, cause, works)?;
        release(store, is_voting(&x.stage));
        self.set_stage(tid, Stage::Aborted(cause));
        Ok(())
    }

    /// Commits a transaction: its flag is put, and its works and its client are told.
    fn commit<F: FlagStore>(
        &mut self,
        store: &mut F,
        tid: Tid,
        request: RequestNo,
        works: Works,
        out: &mut Out,
    ) -> Result<(), CoordFault>
        requires fits { FitsWith (spare_of (rows.transaction_at tid self.old.transactions)) self.old (F.view store.old) }
        requires lives { is_some (rows.transaction_at tid self.old.transactions) ≡ true }
        requires undecided { committed_at tid self.old.transactions ≡ None }
        requires few { length works ≤ 8 }
        ensures { (k : Tickets) (x : Transaction) → rows.transaction_at tid self.old.transactions ≡ Some x
            → Does (rows.commit_row (table_of self.old) k x request works) self.old (F.view store.old) out.old result self.new (F.view store.new) out.new }
    {
        let Some(x) = self.find(tid) else {
            return Ok(());
        };
        let flag = Flag {
            tid,
            client: x.client,
            request,
            works: ListOf::from_vec(works.into_vec()),
        };
        tell_commit(out, flag.client, tid, flag.works.as_slice())?;
        if store.put_flag(&flag).is_err() {
            return Err(CoordFault::Stopped);
        }
        self.set_stage(tid, committed_stage(self.alloc, flag.works));
        Ok(())
    }

    /// A committed transaction comes on: it is forgotten with its flag once every work is done and its client knows.
    fn settle<F: FlagStore>(
        &mut self,
        store: &mut F,
        tid: Tid,
        d: Committed,
    ) -> Result<(), CoordFault>
        requires fits { FitsStorage self.old (F.view store.old) }
        requires same { works_in (committed_at tid self.old.transactions) ≡ Some d.works }
        ensures { (k : Tickets) (before : Collected)
            → Does (rows.forget_row (table_of self.old) k tid d) self.old (F.view store.old) before result self.new (F.view store.new) before }
    {
        if !is_over(&d) {
            self.set_stage(tid, Stage::Committed(d));
            return Ok(());
        }
        if store.drop_flag(tid).is_err() {
            return Err(CoordFault::Stopped);
        }
        self.remove(tid);
        Ok(())
    }

    /// A work of a committed transaction is carried out.
    #[tactic(auto, using(crate::proofs::Rows::gave_up))]
    pub(crate) fn done<F: FlagStore>(
        &mut self,
        store: &mut F,
        tid: Tid,
        work: WorkId,
        out: &mut Out,
    ) -> Result<(), CoordFault>
        requires fits { FitsStorage self.old (F.view store.old) }
        ensures { (k : Tickets)
            → Does (rows.done_row (table_of self.old) k tid work (rows.transaction_at tid self.old.transactions)) self.old (F.view store.old) out.old result self.new (F.view store.new) out.new }
    {
        let Some(x) = self.find(tid) else {
            return note(out, Note::Ignored);
        };
        let Stage::Committed(d) = &x.stage else {
            return note(out, Note::Ignored);
        };
        if !is_work(work, d.works.as_slice()) || is_work(work, d.done.as_slice()) {
            return note(out, Note::Ignored);
        }
        let more = one_more_done(self.alloc, d, work)?;
        self.settle(store, tid, more)
    }

    /// A client knows the outcome of its transaction.
    #[tactic(auto, using(crate::proofs::Rows::gave_up))]
    pub(crate) fn thanks<F: FlagStore>(
        &mut self,
        store: &mut F,
        tid: Tid,
        out: &mut Out,
    ) -> Result<(), CoordFault>
        requires fits { FitsStorage self.old (F.view store.old) }
        ensures { (k : Tickets)
            → Does (rows.thanks_row (table_of self.old) k tid (rows.transaction_at tid self.old.transactions)) self.old (F.view store.old) out.old result self.new (F.view store.new) out.new }
    {
        let Some(x) = self.find(tid) else {
            return note(out, Note::Ignored);
        };
        if is_aborted(&x.stage) {
            self.remove(tid);
            return Ok(());
        }
        let Stage::Committed(d) = &x.stage else {
            return note(out, Note::Ignored);
        };
        if d.thanked {
            return note(out, Note::Ignored);
        }
        let known = known_of(self.alloc, d)?;
        self.settle(store, tid, known)
    }

    /// A ballot comes on: the last work that is ready commits.
    fn count<F: FlagStore>(
        &mut self,
        store: &mut F,
        tid: Tid,
        ballot: Voting,
        out: &mut Out,
    ) -> Result<(), CoordFault>
        requires fits { FitsStorage self.old (F.view store.old) }
        requires voting { voting_in (rows.transaction_at tid self.old.transactions) ≡ true }
        requires few { length ballot.works ≤ 8 }
        ensures { (k : Tickets) (x : Transaction) → rows.transaction_at tid self.old.transactions ≡ Some x
            → Does (rows.noted (table_of self.old) k x ballot) self.old (F.view store.old) out.old result self.new (F.view store.new) out.new }
    {
        if all_in(ballot.works.as_slice(), ballot.ready.as_slice()) {
            return self.commit(store, tid, ballot.request, ballot.works, out);
        }
        self.set_stage(tid, Stage::Voting(ballot));
        Ok(())
    }

    /// A work asks for the outcome.
    pub(crate) fn inquire(&self, tid: Tid, work: WorkId, out: &mut Out) -> Result<(), CoordFault>
        ensures { (k : Tickets)
            → Adds (rows.inquire_row (table_of self.now) k tid work (rows.transaction_at tid self.now.transactions)).messages (rows.inquire_row (table_of self.now) k tid work (rows.transaction_at tid self.now.transactions)).notes out.old result out.new }
    {
        let Some(x) = self.find(tid) else {
            return send_drops(out, tid, &[work]);
        };
        tell_work(out, tid, work, &x.stage)
    }

    /// The ballot of a transaction.
    fn ballot(&self, tid: Tid) -> Option<&Voting>
        ensures { option_copied result ≡ ballot_in (rows.transaction_at tid self.now.transactions) }
    {
        let x = self.find(tid)?;
        let Stage::Voting(ballot) = &x.stage else {
            return None;
        };
        Some(ballot)
    }

    /// A work votes, or tells what its vote waits for.
    pub(crate) fn vote<F: FlagStore>(
        &mut self,
        store: &mut F,
        tid: Tid,
        work: WorkId,
        vote: Vote,
        out: &mut Out,
    ) -> Result<(), CoordFault>
        requires fits { FitsStorage self.old (F.view store.old) }
        ensures { (k : Tickets)
            → Does (rows.vote_row (table_of self.old) k tid work vote (rows.transaction_at tid self.old.transactions)) self.old (F.view store.old) out.old result self.new (F.view store.new) out.new }
    {
        let Some(x) = self.find(tid) else {
            return send_drops(out, tid, &[work]);
        };
        match &x.stage {
            Stage::Open => note(out, Note::Ignored),
            Stage::Voting(ballot) => {
                if !is_work(work, ballot.works.as_slice()) {
                    return note(out, Note::Ignored);
                }
                self.counted_vote(store, tid, work, vote, out)
            }
            stage => tell_work(out, tid, work, stage),
        }
    }

    /// One of its works votes.
    fn counted_vote<F: FlagStore>(
        &mut self,
        store: &mut F,
        tid: Tid,
        work: WorkId,
        vote: Vote,
        out: &mut Out,
    ) -> Result<(), CoordFault>
        requires fits { FitsStorage self.old (F.view store.old) }
        ensures { (k : Tickets) (x : Transaction) (b : Voting) → rows.transaction_at tid self.old.transactions ≡ Some x → x.stage ≡ stages.Voting b
            → Does (rows.counted_vote (table_of self.old) k x b work vote) self.old (F.view store.old) out.old result self.new (F.view store.new) out.new }
    {
        match vote {
            Vote::Ready => self.ready(store, tid, work, out),
            Vote::Waiting(unit, by) => {
                self.waiting(tid, work, Outcome::Waiting(work.server, unit, by), out)
            }
            Vote::Broken(unit, by) => {
                self.abort_all(store, tid, Cause::Broken(work.server, unit, by), out)
            }
            Vote::Lost(_, _) => self.lost(store, tid, work, out),
            Vote::Full(resource, free, need) => {
                self.abort_all(
                    store,
                    tid,
                    Cause::Full(work.server, resource, free, need),
                    out,
                )
            }
        }
    }

    #[tactic(auto, using(crate::proofs::Rows::gave_up))]
    fn ready<F: FlagStore>(
        &mut self,
        store: &mut F,
        tid: Tid,
        work: WorkId,
        out: &mut Out,
    ) -> Result<(), CoordFault>
        requires fits { FitsStorage self.old (F.view store.old) }
        ensures { (k : Tickets) (x : Transaction) (b : Voting) → rows.transaction_at tid self.old.transactions ≡ Some x → x.stage ≡ stages.Voting b
            → Does (rows.noted (table_of self.old) k x (record b { ready = rows.with_work work b.ready })) self.old (F.view store.old) out.old result self.new (F.view store.new) out.new }
    {
        let Some(ballot) = self.ballot(tid) else {
            return Ok(());
        };
        let more = one_more_ready(self.alloc, ballot, work)?;
        self.count(store, tid, more, out)
    }

    /// A work waits for another transaction.
    fn waiting(
        &self,
        tid: Tid,
        work: WorkId,
        outcome: Outcome,
        out: &mut Out,
    ) -> Result<(), CoordFault>
        ensures { (t : CoordinatorTable) (k : Tickets) (x : Transaction) (b : Voting) → rows.transaction_at tid self.now.transactions ≡ Some x → x.stage ≡ stages.Voting b
            → Adds (waiting_row t k x b work outcome).messages (waiting_row t k x b work outcome).notes out.old result out.new }
    {
        let Some(x) = self.find(tid) else {
            return Ok(());
        };
        if is_ready(&x.stage, work) {
            return note(out, Note::Ignored);
        }
        send_outcome(out, x.client, x.tid, outcome)
    }

    /// A work is lost: the others are dropped.
    #[tactic(auto, using(crate::proofs::Rows::gave_up))]
    fn lost<F: FlagStore>(
        &mut self,
        store: &mut F,
        tid: Tid,
        work: WorkId,
        out: &mut Out,
    ) -> Result<(), CoordFault>
        requires fits { FitsStorage self.old (F.view store.old) }
        ensures { (k : Tickets) (x : Transaction) (b : Voting) → rows.transaction_at tid self.old.transactions ≡ Some x → x.stage ≡ stages.Voting b
            → Does (rows.abort_row (table_of self.old) k x (causes.Lost work.server) (rows.besides b.works (work ∷ []))) self.old (F.view store.old) out.old result self.new (F.view store.new) out.new }
    {
        let Some(ballot) = self.ballot(tid) else {
            return Ok(());
        };
        let others = besides(self.alloc, ballot.works.as_slice(), &[work])?;
        self.abort(store, tid, Cause::Lost(work.server), &others, out)
    }

    /// A ballot fails, and all of its works are dropped.
    #[tactic(auto, using(crate::proofs::Rows::gave_up))]
    fn abort_all<F: FlagStore>(
        &mut self,
        store: &mut F,
        tid: Tid,
        cause: Cause,
        out: &mut Out,
    ) -> Result<(), CoordFault>
        requires fits { FitsStorage self.old (F.view store.old) }
        ensures { (k : Tickets) (x : Transaction) (b : Voting) → rows.transaction_at tid self.old.transactions ≡ Some x → x.stage ≡ stages.Voting b
            → Does (rows.abort_row (table_of self.old) k x cause b.works) self.old (F.view store.old) out.old result self.new (F.view store.new) out.new }
    {
        let Some(ballot) = self.ballot(tid) else {
            return Ok(());
        };
        let works = copy_of(self.alloc, &ballot.works)?;
        self.abort(store, tid, cause, works.as_slice(), out)
    }

    /// A client asks for the abort of its transaction.
    #[tactic(auto, using(crate::proofs::Rows::gave_up))]
    pub(crate) fn abort_request<F: FlagStore>(
        &mut self,
        store: &mut F,
        client: ClientNo,
        tid: Tid,
        works: &Works,
        tickets: Tickets,
        out: &mut Out,
    ) -> Result<(), CoordFault>
        requires fits { FitsStorage self.old (F.view store.old) }
        ensures { Does (rows.abort_request (table_of self.old) tickets client tid works.now (rows.transaction_at tid self.old.transactions)) self.old (F.view store.old) out.old result self.new (F.view store.new) out.new }
    {
        let Some(x) = self.find(tid) else {
            return tell_not_known(out, client, tid, works, tickets);
        };
        match &x.stage {
            Stage::Open => self.abort(store, tid, Cause::Requested, works.as_slice(), out),
            Stage::Voting(ballot) => {
                let all = union(self.alloc, ballot.works.as_slice(), works.as_slice())?;
                self.abort(store, tid, Cause::Requested, &all, out)
            }
            Stage::Committed(_) => send_outcome(out, x.client, x.tid, Outcome::Committed),
            Stage::Aborted(cause) => send_outcome(out, x.client, x.tid, Outcome::Aborted(*cause)),
        }
    }

    /// A client ends its transaction.
    #[tactic(auto, using(crate::proofs::Rows::gave_up))]
    pub(crate) fn end<F: FlagStore>(
        &mut self,
        store: &mut F,
        client: ClientNo,
        request: RequestNo,
        tid: Tid,
        works: &Works,
        tickets: Tickets,
        out: &mut Out,
    ) -> Result<(), CoordFault>
        requires fits { FitsStorage self.old (F.view store.old) }
        requires few { length works.now ≤ 8 }
        ensures { Does (rows.end_row (table_of self.old) (free_of (F.view store.old)) tickets client request tid works.now (rows.transaction_at tid self.old.transactions)) self.old (F.view store.old) out.old result self.new (F.view store.new) out.new }
    {
        let Some(x) = self.find(tid) else {
            return tell_not_known(out, client, tid, works, tickets);
        };
        match &x.stage {
            Stage::Open => self.end_open(store, request, tid, works, tickets, out),
            Stage::Voting(ballot) => {
                let rest = besides(self.alloc, ballot.works.as_slice(), ballot.ready.as_slice())?;
                send_prepares(out, x.tid, x.client, &rest)
            }
            Stage::Committed(_) => send_outcome(out, x.client, x.tid, Outcome::Committed),
            Stage::Aborted(cause) => send_outcome(out, x.client, x.tid, Outcome::Aborted(*cause)),
        }
    }

    /// Promises a record for the flag of an open transaction, and ends it; without a record it is aborted.
    fn end_open<F: FlagStore>(
        &mut self,
        store: &mut F,
        request: RequestNo,
        tid: Tid,
        works: &Works,
        tickets: Tickets,
        out: &mut Out,
    ) -> Result<(), CoordFault>
        requires fits { FitsStorage self.old (F.view store.old) }
        requires few { length works.now ≤ 8 }
        requires open { stage_in (rows.transaction_at tid self.old.transactions) ≡ Some stages.Open }
        ensures { (x : Transaction) → rows.transaction_at tid self.old.transactions ≡ Some x
            → Does (rows.end_open (table_of self.old) (free_of (F.view store.old)) tickets x request works.now) self.old (F.view store.old) out.old result self.new (F.view store.new) out.new }
    {
        match store.promise(self.alloc) {
            Ok(()) => self.end_or_release(store, request, tid, works, out),
            Err(PromiseFault::Memory) => Err(CoordFault::Memory),
            Err(PromiseFault::Short(short)) => {
                let cause = Cause::Full(tickets.server, Resource::Records, short.free, 1);
                self.abort(store, tid, cause, works.as_slice(), out)
            }
        }
    }

    /// Ends a transaction with its promise, which is given back where there is no memory.
    fn end_or_release<F: FlagStore>(
        &mut self,
        store: &mut F,
        request: RequestNo,
        tid: Tid,
        works: &Works,
        out: &mut Out,
    ) -> Result<(), CoordFault>
        requires fits { FitsWith 1 self.old (F.view store.old) }
        requires few { length works.now ≤ 8 }
        requires open { stage_in (rows.transaction_at tid self.old.transactions) ≡ Some stages.Open }
        ensures { (k : Tickets) (x : Transaction) (v : StorageView) → rows.transaction_at tid self.old.transactions ≡ Some x → IsPromised v (F.view store.old)
            → Does (rows.end_promised (table_of self.old) k x request works.now) self.old v out.old result self.new (F.view store.new) out.new }
    {
        let ended = self.end_promised(store, request, tid, works, out);
        release(store, is_memory(&ended));
        ended
    }

    /// Ends a transaction with its promise: without works it commits at once.
    #[tactic(auto, using(crate::proofs::Rows::gave_up))]
    fn end_promised<F: FlagStore>(
        &mut self,
        store: &mut F,
        request: RequestNo,
        tid: Tid,
        works: &Works,
        out: &mut Out,
    ) -> Result<(), CoordFault>
        requires fits { FitsWith 1 self.old (F.view store.old) }
        requires few { length works.now ≤ 8 }
        requires open { stage_in (rows.transaction_at tid self.old.transactions) ≡ Some stages.Open }
        ensures { (k : Tickets) (x : Transaction) → rows.transaction_at tid self.old.transactions ≡ Some x
            → Does (rows.end_promised (table_of self.old) k x request works.now) self.old (F.view store.old) out.old result self.new (F.view store.new) out.new }
    {
        if works.as_slice().is_empty() {
            let none = Works::from_vec(Vec::new(self.alloc));
            return self.commit(store, tid, request, none, out);
        }
        let ballot = new_ballot(self.alloc, request, works)?;
        self.open_ballot(tid, ballot, out)
    }

    /// The works of a transaction are to be prepared.
    fn open_ballot(&mut self, tid: Tid, ballot: Voting, out: &mut Out) -> Result<(), CoordFault>
        requires few { length ballot.works ≤ 8 }
        requires open { stage_in (rows.transaction_at tid self.old.transactions) ≡ Some stages.Open }
        ensures { (k : Tickets) (x : Transaction) (v : StorageView) → rows.transaction_at tid self.old.transactions ≡ Some x → FitsWith 1 self.old v
            → Does (ballot_row (table_of self.old) k x ballot) self.old v out.old result self.new v out.new }
    {
        let Some(x) = self.find(tid) else {
            return Ok(());
        };
        send_prepares(out, tid, x.client, ballot.works.as_slice())?;
        self.set_stage(tid, Stage::Voting(ballot));
        Ok(())
    }

    /// The store lets a transaction go: its flag is dropped, or its promise given back.
    fn let_go<F: FlagStore>(&self, store: &mut F, tid: Tid) -> Result<(), CoordFault>
        requires fits { FitsStorage self.now (F.view store.old) }
        requires going { going_in (rows.transaction_at tid self.now.transactions) ≡ true }
        ensures { (x : Transaction)
            → rows.transaction_at tid self.now.transactions ≡ Some x
            → LetsGo x (F.view store.old) result (F.view store.new) }
    {
        let Some(x) = self.find(tid) else {
            return Ok(());
        };
        if !is_committed(&x.stage) {
            release(store, is_voting(&x.stage));
            return Ok(());
        }
        if store.drop_flag(tid).is_err() {
            return Err(CoordFault::Stopped);
        }
        Ok(())
    }

    /// Closes one transaction more; false where none is left that goes.
    fn close_next<F: FlagStore>(
        &mut self,
        store: &mut F,
        who: Option<ClientNo>,
    ) -> Result<bool, CoordFault>
        requires fits { FitsStorage self.old (F.view store.old) }
        ensures { ClosesNext who self.old (F.view store.old) result self.new (F.view store.new) }
    {
        let Some(tid) = self.next_closing(who) else {
            return Ok(false);
        };
        if self.let_go(store, tid).is_err() {
            return Err(CoordFault::Stopped);
        }
        self.remove(tid);
        Ok(true)
    }

    /// Closes a client's transactions: the decided ones are known to it, the others are dropped. With no client named,
    /// every client knows its outcomes, and what is undecided stays.
    pub(crate) fn close_client<F: FlagStore>(
        &mut self,
        store: &mut F,
        who: Option<ClientNo>,
    ) -> Result<(), CoordFault>
        requires fits { FitsStorage self.old (F.view store.old) }
        ensures { ClosesClient who self.old (F.view store.old) result self.new (F.view store.new) }
    {
        if self.close(store, who).is_err() {
            return Err(CoordFault::Stopped);
        }
        self.know_all(who);
        Ok(())
    }

    /// Every client knows the outcomes of its transactions: what is over goes with its flag. This takes no memory.
    pub fn close_clients<F: FlagStore>(&mut self, store: &mut F) -> Result<(), CoordFault>
        requires fits { FitsStorage self.old (F.view store.old) }
        ensures does { (k : Tickets) (before : Collected)
            → Does (rows.close_clients_row (table_of self.old) k) self.old (F.view store.old) before result self.new (F.view store.new) before }
        ensures tickets { (k : Tickets) → TicketsFit self.old (F.view store.old) k → OnOk result (TicketsFit self.new (F.view store.new) k) }
        ensures stopped { IfErr result (λ fault. fault ≡ Stopped) }
    {
        if self.close_client(store, None).is_err() {
            return Err(CoordFault::Stopped);
        }
        Ok(())
    }

    fn know_all(&mut self, who: Option<ClientNo>)
        ensures { self.new ≡ record self.old { transactions = knowing who self.old.transactions } }
    {
        know_all(&mut self.transactions, who);
    }

    /// Closes transactions, but for those that wait for a work.
    fn close<F: FlagStore>(
        &mut self,
        store: &mut F,
        who: Option<ClientNo>,
    ) -> Result<(), CoordFault>
        requires fits { FitsStorage self.old (F.view store.old) }
        ensures { ClosesAll who self.old (F.view store.old) result self.new (F.view store.new) }
    {
        for _closed in 0..self.live() {
            match self.close_next(store, who) {
                Err(_) => return Err(CoordFault::Stopped),
                Ok(more) => {
                    if !more {
                        return Ok(());
                    }
                }
            }
        }
        Ok(())
    }

    fn next_closing(&self, who: Option<ClientNo>) -> Option<Tid>
        ensures { result ≡ tid_in (next_closing who self.now.transactions) }
    {
        let x = next_closing(&self.transactions, who)?;
        Some(x.tid)
    }

    /// Tells once more what the decided transactions have told, in rising order of their names.
    #[tactic(auto, using(jn_transactions::proofs::Sends::cut_back))]
    pub fn again(&self, out: &mut Out) -> Result<(), AllocError>
        ensures ok { OnOk result (out.new ≡ added out.old (rows.coordinator_again self.now.transactions) []) }
        ensures memory { OnErr result (out.new ≡ out.old) }
    {
        let messages = out.messages().len();
        let notes = out.notes().len();
        match tell_all_again(self.alloc, out, &self.transactions) {
            Ok(()) => Ok(()),
            Err(_) => {
                out.truncate(messages, notes);
                Err(AllocError)
            }
        }
    }
}
