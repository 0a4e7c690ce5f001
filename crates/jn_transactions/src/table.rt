//! The transactions of a coordinator.

ghost use Rattle.std.specs.Prelude.{◌≡◌, not, true, ◌&&◌, [], ◌∷◌, ◌++◌, IfOk, IfErr, vec_capacity};
ghost use Rattle.std.specs.Option.{option_copied};
ghost use Rattle.jn_rows.specs.Coordinator as rows;
ghost use Rattle.jn_base.specs.declared.fault.CallFault.TheVariants.{Memory};
ghost use Rattle.jn_transactions.specs.Listed.{transaction_place};
ghost use Rattle.jn_transactions.specs.Stages.{is_aborted, ready_in};

use crate::faults::CoordFault;
use jn_base::{RequestNo, Tid, WorkId};
use jn_msgs::Works;
use jn_rows::{Committed, Stage, Transaction, Voting};
use std::alloc::{AllocError, Global};

/// The place of a transaction.
fn transaction_place(transactions: &[Transaction], tid: Tid) -> Option<usize>
    ensures { result ≡ transaction_place tid transactions.now }
{
    for i in 0..transactions.len() {
        if transactions[i].tid == tid {
            return Some(i);
        }
    }
    None
}

pub fn find(transactions: &[Transaction], tid: Tid) -> Option<&Transaction>
    ensures { option_copied result ≡ rows.transaction_at tid transactions.now }
{
    for transaction in transactions {
        if transaction.tid == tid {
            return Some(transaction);
        }
    }
    None
}

/// A transaction comes to another stage.
#[tactic(auto, using(crate::proofs::Tables::staged_at, crate::proofs::Tables::staged_none, crate::proofs::Tables::place_within))]
pub fn set_stage(transactions: &mut [Transaction], tid: Tid, stage: Stage)
    ensures { transactions.new ≡ rows.with_stage tid stage transactions.old }
{
    if let Some(i) = transaction_place(transactions, tid) {
        transactions[i].stage = stage;
    }
}

/// A transaction goes.
#[tactic(auto, using(crate::proofs::Tables::removed_at, crate::proofs::Tables::removed_none, crate::proofs::Tables::place_within))]
pub fn remove(transactions: &mut Vec<Transaction>, tid: Tid)
    ensures items { transactions.new.items ≡ rows.without tid transactions.old.items }
    ensures capacity { vec_capacity transactions.new ≡ vec_capacity transactions.old }
{
    if let Some(i) = transaction_place(transactions, tid) {
        transactions.remove(i);
    }
}

/// Whether a work is one of these.
pub fn is_work(work: WorkId, works: &[WorkId]) -> bool
    ensures { result ≡ rows.is_work work works.now }
{
    for other in works {
        if *other == work {
            return true;
        }
    }
    false
}

/// Whether each of the first is one of the second.
pub fn all_in(works: &[WorkId], others: &[WorkId]) -> bool
    ensures { result ≡ rows.all_in works.now others.now }
{
    for work in works {
        if !is_work(*work, others) {
            return false;
        }
    }
    true
}

/// The works of the first list that the second doesn't have.
pub fn besides(
    alloc: Global,
    works: &[WorkId],
    others: &[WorkId],
) -> Result<Vec<WorkId>, CoordFault>
    ensures ok { IfOk result (λ left. left.items ≡ rows.besides works.now others.now) }
    ensures memory { IfErr result (λ fault. fault ≡ Memory) }
{
    let mut left = Vec::new(alloc);
    for work in works {
        if !is_work(*work, others) {
            if left.push(*work).is_err() {
                return Err(CoordFault::Memory);
            }
        }
    }
    Ok(left)
}

pub fn is_voting(stage: &Stage) -> bool
    ensures { result ≡ rows.is_voting stage.now }
{
    matches!(stage, Stage::Voting(_))
}

pub fn is_aborted(stage: &Stage) -> bool
    ensures { result ≡ is_aborted stage.now }
{
    matches!(stage, Stage::Aborted(_))
}

pub fn copy_of(alloc: Global, works: &Works) -> Result<Works, AllocError>
    ensures { IfOk result (λ copy. copy ≡ works.now) }
{
    Ok(Works::from_vec(works.as_slice().to_vec(alloc)?))
}

/// The works with one more.
fn copy_with(alloc: Global, works: &Works, work: WorkId) -> Result<Works, AllocError>
    ensures { IfOk result (λ copy. copy ≡ works.now ++ work ∷ []) }
{
    let mut copy = copy_of(alloc, works)?;
    copy.push(work)?;
    Ok(copy)
}

/// A committed transaction of which one more work is carried out.
pub fn one_more_done(alloc: Global, d: &Committed, work: WorkId) -> Result<Committed, CoordFault>
    ensures ok { IfOk result (λ new. new ≡ record d.now { done = d.now.done ++ work ∷ [] }) }
    ensures memory { IfErr result (λ fault. fault ≡ Memory) }
{
    Ok(Committed {
        works: copy_of(alloc, &d.works)?,
        done: copy_with(alloc, &d.done, work)?,
        thanked: d.thanked,
    })
}

/// A committed transaction whose client knows of it.
pub fn known_of(alloc: Global, d: &Committed) -> Result<Committed, CoordFault>
    ensures ok { IfOk result (λ new. new ≡ record d.now { thanked = true }) }
    ensures memory { IfErr result (λ fault. fault ≡ Memory) }
{
    Ok(Committed {
        works: copy_of(alloc, &d.works)?,
        done: copy_of(alloc, &d.done)?,
        thanked: true,
    })
}

/// A ballot with one more work that is ready.
pub fn one_more_ready(alloc: Global, ballot: &Voting, work: WorkId) -> Result<Voting, CoordFault>
    ensures ok { IfOk result (λ new. new ≡ record ballot.now { ready = rows.with_work work ballot.now.ready }) }
    ensures memory { IfErr result (λ fault. fault ≡ Memory) }
{
    let ready = if is_work(work, ballot.ready.as_slice()) {
        copy_of(alloc, &ballot.ready)?
    } else {
        copy_with(alloc, &ballot.ready, work)?
    };
    Ok(Voting {
        request: ballot.request,
        works: copy_of(alloc, &ballot.works)?,
        ready,
    })
}

/// Whether all is over: every work is carried out, and the client knows.
pub fn is_over(d: &Committed) -> bool
    ensures { result ≡ (d.now.thanked && rows.all_in d.now.works d.now.done) }
{
    d.thanked && all_in(d.works.as_slice(), d.done.as_slice())
}

/// Whether a work is one of its own that isn't carried out.
pub(crate) fn is_awaited(d: &Committed, work: WorkId) -> bool
    ensures { result ≡ (rows.is_work work d.now.works && not (rows.is_work work d.now.done)) }
{
    is_work(work, d.works.as_slice()) && !is_work(work, d.done.as_slice())
}

/// The works of the first list, and then those of the second that it doesn't have.
pub fn union(alloc: Global, works: &[WorkId], others: &[WorkId]) -> Result<Vec<WorkId>, CoordFault>
    ensures ok { IfOk result (λ all. all.items ≡ works.now ++ rows.besides others.now works.now) }
    ensures memory { IfErr result (λ fault. fault ≡ Memory) }
{
    let mut all = works.to_vec(alloc)?;
    let new = besides(alloc, others, works)?;
    all.extend_from_slice(&new)?;
    Ok(all)
}

/// Whether a work of a ballot is ready.
pub fn is_ready(stage: &Stage, work: WorkId) -> bool
    ensures { result ≡ ready_in stage.now work }
{
    match stage {
        Stage::Voting(ballot) => is_work(work, ballot.ready.as_slice()),
        _ => false,
    }
}

/// The ballot of works of which none is ready.
pub fn new_ballot(alloc: Global, request: RequestNo, works: &Works) -> Result<Voting, CoordFault>
    ensures ok { IfOk result (λ new. new ≡ record { request = request; works = works.now; ready = [] }) }
    ensures memory { IfErr result (λ fault. fault ≡ Memory) }
{
    Ok(Voting {
        request,
        works: copy_of(alloc, works)?,
        ready: Works::from_vec(Vec::new(alloc)),
    })
}
