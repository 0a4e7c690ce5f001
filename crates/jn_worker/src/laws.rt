//! What a worker's rows never do.

ghost use Rattle.jn_worker.specs.Laws.{MessagesKeepPrepared, TimeoutsKeepPrepared, OldOperationsDoNothing};

/// A work that is prepared never breaks and is never active again: it stays as it is until its name is live no more.
#[tactic(auto, using(crate::proofs::RowLaws::messages_keep_prepared, crate::proofs::RowLaws::timeouts_keep_prepared))]
pub fn a_prepared_work_is_never_broken()
    ensures messages { MessagesKeepPrepared }
    ensures timeouts { TimeoutsKeepPrepared }
{}

/// An operation that isn't the next one of its active work performs nothing; the last one's answer is told again.
#[tactic(auto, using(crate::proofs::RowLaws::old_operations_do_nothing))]
pub fn an_old_operation_performs_nothing()
    ensures { OldOperationsDoNothing }
{}
