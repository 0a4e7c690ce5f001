//! What a rest does next.

ghost use Rattle.std.specs.Prelude.{◌≡◌, ◌<◌, ℕ, true, List, [], ◌∷◌, drop, slice_get, Some, None};
ghost use Rattle.jn_base.specs.declared.names.ServerNo.{ServerNo};
ghost use Rattle.jn_net.specs.Carried.{waiting};
ghost use Rattle.jn_place.specs.declared.place.Place.{Place};
ghost use Rattle.jn_place.specs.Exact.{has_work_at};
ghost use Rattle.jn_recovery.specs.Counts.{counts_by};
ghost use Rattle.jn_report.specs.declared.line.Line.{Line};
ghost use Rattle.jn_schedule.specs.declared.Event.TheVariants as events;
ghost use Rattle.jn_machine.specs.Chances.{Setup};
ghost use Rattle.jn_machine.specs.Runs.{Moment};
ghost use Rattle.jn_machine.specs.Tasks.{Rests, next_task};
ghost use Rattle.jn_world_refines.specs.Stands.{Standing, Stands};
ghost use Rattle.jn_world_refines.specs.Pages.{ReadsPages, IsIdleAt};
ghost use Rattle.jn_world_refines.specs.Going.{ActsNext, IsStepTo};

use jn_store::Powered;

/// A rest hands over the least message that waits. Where none waits, the first server with something to do makes a step.
pub fn a_rest_does_what_is_next<S: Powered>()
    ensures delivers { (x : Setup) (w : Standing S) (m : Moment) → Stands (λ s. S.view s) (λ s. S.device s) x w m → next_task m.state ≡ Some Rests
        → (k : ℕ) → waiting w.net ≡ Some k → ActsNext x m (events.Deliver k) (Rests ∷ []) }
    ensures works { (x : Setup) (w : Standing S) (m : Moment) → Stands (λ s. S.view s) (λ s. S.device s) x w m → next_task m.state ≡ Some Rests
        → waiting w.net ≡ None → (q : ServerNo) (place : Place S) → slice_get w.places q.0 ≡ Some place
        → ReadsPages (λ s. S.view s) (λ s. S.device s) (counts_by place.counts) place.slot → has_work_at (λ s. S.view s) place.slot ≡ true
        → ((i : ℕ) (p : Place S) → i < q.0 → slice_get w.places i ≡ Some p → IsIdleAt (λ s. S.view s) (λ s. S.device s) p) → ActsNext x m (events.Step q) (Rests ∷ []) }
{}

/// It is over where nothing is left to do, and nothing changes then.
pub fn a_rest_is_over<S: Powered>()
    ensures { (x : Setup) (w : Standing S) (m : Moment) → Stands (λ s. S.view s) (λ s. S.device s) x w m → next_task m.state ≡ Some Rests
        → waiting w.net ≡ None → ((i : ℕ) (p : Place S) → slice_get w.places i ≡ Some p → IsIdleAt (λ s. S.view s) (λ s. S.device s) p)
        → (lines : List Line) → IsStepTo (λ s. S.view s) (λ s. S.device s) x m (drop 1 m.state.tasks) w lines lines }
{}
