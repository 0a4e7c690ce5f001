//! What holds of the rows of a coordinator, whatever its table and the message.

ghost use Rattle.std.specs.Prelude.{ℕ};
ghost use Rattle.jn_base.specs.declared.names.Tickets.{Tickets};
ghost use Rattle.jn_msgs.specs.declared.message.Message.{Message};
ghost use Rattle.jn_rows.specs.Coordinator.{CoordinatorTable, coordinator_row};
ghost use Rattle.jn_coord.specs.AfterFlag.{FollowsFlag};

/// A work or a client is told of a commit once its flag is put: by the same row, or by one before.
pub fn outcomes_are_sent_after_the_flag()
    ensures { (t : CoordinatorTable) (free : ℕ) (k : Tickets) (m : Message) → FollowsFlag t (coordinator_row t free k m) }
{}
