//! A call counts once, though it takes several operations.

ghost use Rattle.std.specs.Prelude.{◌≡◌, List};
ghost use Rattle.jn_order.specs.Files.{AllFiles};
ghost use Rattle.jn_replay.specs.declared.files.Performed.{Performed};
ghost use Rattle.jn_replay.specs.Operations.{files_then, GivesAnswers};
ghost use Rattle.jn_replay.specs.declared.replied.Replied.{Replied};
ghost use Rattle.jn_replay.specs.Replies.{files_by_all, GivesReplies};
ghost use Rattle.jn_unfolding.specs.Unfolding.{Unfolds};
ghost use Rattle.jn_unfolding.specs.Logs.{LogStep, log_of, IsWhole};

/// Where files answer the operations one after another, they reply to what these unfold, call by call, and are then the
/// same.
pub fn calls_are_as_their_operations()
    ensures { (files : AllFiles) (done : List Replied) (operations : List Performed) → Unfolds done operations → GivesAnswers files operations
        → GivesReplies files done × (files_then operations files ≡ files_by_all done files) }
{}

/// Whatever a transaction asks, hears and gives up: where it is whole, its operations unfold what it did.
pub fn whole_transactions_unfold()
    ensures { (steps : List LogStep) → IsWhole (log_of steps) → Unfolds (log_of steps).done (log_of steps).operations }
{}
