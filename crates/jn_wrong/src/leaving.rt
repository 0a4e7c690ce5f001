//! What a step leaves on the pages beside the stable state, in any run.

ghost use Rattle.std.specs.Prelude.{◌≡◌, ◌≢◌, ◌<◌, ◌-◌, ℕ, true, List, [], ◌∷◌, Some, None, slice_get};
ghost use Rattle.jn_base.specs.declared.names.Party.TheVariants.{Server};
ghost use Rattle.jn_base.specs.declared.names.ServerNo.{ServerNo};
ghost use Rattle.jn_base.specs.declared.names.Tid.{Tid};
ghost use Rattle.jn_base.specs.declared.names.WorkId.{WorkId};
ghost use Rattle.jn_msgs.specs.declared.message.Message.{Message};
ghost use Rattle.jn_rows.specs.Outcomes.{RowOutcome};
ghost use Rattle.jn_rows.specs.Stable.{Pick, stable};
ghost use Rattle.jn_system.specs.WholeSystem.Servers.{Room, server_row, server_step};
ghost use Rattle.jn_system.specs.WholeSystem.Steps.{Deliver, Work, Restart};
ghost use Rattle.jn_system.specs.WholeSystem.World.{Memory};
ghost use Rattle.jn_machine.specs.Chances.{Setup};
ghost use Rattle.jn_machine.specs.Leaving.{beside_by, beside_at, left_by_steps};
ghost use Rattle.jn_machine.specs.Runs.{Moment, DoesStep};
ghost use Rattle.jn_wrong.specs.Leaving.{steps_in, IsUpBehind, removes_none};

/// A step that leaves a rubbish record more than it may at a server that is up behind it, as one that nothing names, is none; nor is one that leaves fewer, or
/// other map pages.
pub fn a_record_that_nothing_names_is_left_by_no_step()
    ensures more { (x : Setup) (a b : Moment) (d : DoesStep x a b) (q : ServerNo) → q.0 < x.servers → IsUpBehind x a b d q
        → (left_by_steps (beside_by x a.devices q) a.state.course.world q (steps_in x a b d) (beside_at x a.devices q)).rubbish < (beside_at x b.devices q).rubbish → ⊥ }
    ensures fewer { (x : Setup) (a b : Moment) (d : DoesStep x a b) (q : ServerNo) → q.0 < x.servers → IsUpBehind x a b d q
        → (beside_at x b.devices q).rubbish < (left_by_steps (beside_by x a.devices q) a.state.course.world q (steps_in x a b d) (beside_at x a.devices q)).rubbish → ⊥ }
    ensures maps { (x : Setup) (a b : Moment) (d : DoesStep x a b) (q : ServerNo) → q.0 < x.servers → IsUpBehind x a b d q
        → (left_by_steps (beside_by x a.devices q) a.state.course.world q (steps_in x a b d) (beside_at x a.devices q)).maps ≢ (beside_at x b.devices q).maps → ⊥ }
{}

/// A message whose row removes no work leaves as many rubbish records as there were, as each of the coordinator's; an erasure leaves one fewer; a restart leaves none; and
/// where no step of the system is done, as in a scrub, a show or what befalls a device, there are as many.
pub fn each_step_leaves_its_rubbish()
    ensures message { (x : Setup) (a b : Moment) (d : DoesStep x a b) (q : ServerNo) → q.0 < x.servers → IsUpBehind x a b d q
        → (k : ℕ) (room : Room) (message : Message) (m : Memory) → steps_in x a b d ≡ Deliver k room ∷ [] → slice_get a.state.course.world.sent k ≡ Some (Server q, message)
        → a.state.course.world.memory q ≡ Some m → removes_none (server_row m (stable (a.state.course.world.found q)) room message).changes ≡ true
        → (beside_at x b.devices q).rubbish ≡ (beside_at x a.devices q).rubbish }
    ensures erasure { (x : Setup) (a b : Moment) (d : DoesStep x a b) (q : ServerNo) → q.0 < x.servers → IsUpBehind x a b d q
        → (room : Room) (m : Memory) (row : RowOutcome Memory) → steps_in x a b d ≡ Work q room ∷ [] → a.state.course.world.memory q ≡ Some m
        → server_step m (stable (a.state.course.world.found q)) room ≡ Some row → row.changes ≡ []
        → (beside_at x b.devices q).rubbish ≡ (beside_at x a.devices q).rubbish - 1 }
    ensures restart { (x : Setup) (a b : Moment) (d : DoesStep x a b) (q : ServerNo) → q.0 < x.servers → IsUpBehind x a b d q
        → (pick : Pick) (works : List WorkId) (tids : List Tid) → steps_in x a b d ≡ Restart q pick works tids ∷ [] → a.state.course.world.memory q ≡ None
        → (beside_at x b.devices q).rubbish ≡ 0 }
    ensures nothing { (x : Setup) (a b : Moment) (d : DoesStep x a b) (q : ServerNo) → q.0 < x.servers → IsUpBehind x a b d q
        → steps_in x a b d ≡ [] → (beside_at x b.devices q).rubbish ≡ (beside_at x a.devices q).rubbish }
{}
