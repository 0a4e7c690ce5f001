//! A server goes down, and comes up again.

ghost use Rattle.std.specs.Prelude.{◌≡◌, ◌++◌, ◌∷◌, [], false, List, Some, drop, slice_get, slice_set};
ghost use Rattle.jn_base.specs.declared.names.ServerNo.{ServerNo};
ghost use Rattle.jn_place.specs.declared.place.Place.{Place};
ghost use Rattle.jn_place.specs.declared.place.Restarted.{Restarted};
ghost use Rattle.jn_place.specs.declared.place.Slot.{Slot};
ghost use Rattle.jn_place.specs.Exact.{Crashed, IsRestart};
ghost use Rattle.jn_place.specs.Places.{is_up};
ghost use Rattle.jn_recovery.specs.Counts.{counts_by};
ghost use Rattle.jn_report.specs.declared.line.Line.{Line};
ghost use Rattle.jn_report.specs.declared.line.Text.TheVariants as says;
ghost use Rattle.jn_schedule.specs.declared.Event.TheVariants as events;
ghost use Rattle.jn_machine.specs.Chances.{Setup};
ghost use Rattle.jn_machine.specs.Runs.{Moment};
ghost use Rattle.jn_report.specs.Lines.{lines_at};
ghost use Rattle.jn_machine.specs.Tasks.{Task, ComesUp, when_of, next_task};
ghost use Rattle.jn_world_refines.specs.Going.{ActsNext, IsStepTo};
ghost use Rattle.jn_world_refines.specs.Pages.{HasCounts};
ghost use Rattle.jn_world_refines.specs.Restarting.{texts_restarted, ComesTo};
ghost use Rattle.jn_world_refines.specs.Stands.{Standing, Stands, with_named};

use jn_store::Powered;

/// A server that is up goes down, and for one that is down already nothing is done.
pub fn a_crash_is_a_step<S: Powered>()
    ensures up { (x : Setup) (w : Standing S) (m : Moment) → Stands (λ s. S.view s) (λ s. S.device s) x w m → (q : ServerNo) (place : Place S) → slice_get w.places q.0 ≡ Some place
        → (lines : List Line) (more : List Task) (slot : Slot S) → Crashed (λ s. S.view s) (λ s. S.device s) (counts_by place.counts) place.slot slot → ActsNext x m (events.Crash q) more
        → IsStepTo (λ s. S.view s) (λ s. S.device s) x m (more ++ drop 1 m.state.tasks) (record w { places = slice_set w.places q.0 (record place { slot = slot }) }) lines
        (lines ++ record { when = when_of m.state; text = says.Down q } ∷ []) }
    ensures down { (x : Setup) (w : Standing S) (m : Moment) → Stands (λ s. S.view s) (λ s. S.device s) x w m → (q : ServerNo) (place : Place S) → slice_get w.places q.0 ≡ Some place
        → (lines : List Line) (more : List Task) → is_up place.slot ≡ false → ActsNext x m (events.Crash q) more
        → IsStepTo (λ s. S.view s) (λ s. S.device s) x m (more ++ drop 1 m.state.tasks) w lines lines }
{}

/// A restart, by an event or at the start and the end: the server comes up, is stopped, or its epochs are used up.
pub fn a_restart_is_a_step<S: Powered>()
    ensures event { (x : Setup) (w : Standing S) (m : Moment) → Stands (λ s. S.view s) (λ s. S.device s) x w m → (q : ServerNo) (place : Place S) → slice_get w.places q.0 ≡ Some place
        → (more : List Task) → ActsNext x m (events.Restart q) more → (lines lines' lines'' : List Line) (restarted : Restarted) (slot : Slot S)
        → IsRestart (λ s. S.view s) (λ s. S.device s) q (counts_by place.counts) (when_of m.state) place.slot restarted slot lines lines' → HasCounts (λ s. S.view s) q (counts_by place.counts) slot
        → lines'' ≡ lines' ++ lines_at (when_of m.state) (texts_restarted q w.named restarted)
        → IsStepTo (λ s. S.view s) (λ s. S.device s) x m (more ++ drop 1 m.state.tasks)
        (with_named (texts_restarted q w.named restarted) (record w { places = slice_set w.places q.0 (record place { slot = slot }) })) lines lines'' }
    ensures comes_up { (x : Setup) (w : Standing S) (m : Moment) → Stands (λ s. S.view s) (λ s. S.device s) x w m → (q : ServerNo) (place : Place S) → slice_get w.places q.0 ≡ Some place
        → next_task m.state ≡ Some (ComesUp q) → (lines lines' lines'' : List Line) (restarted : Restarted) (slot : Slot S)
        → IsRestart (λ s. S.view s) (λ s. S.device s) q (counts_by place.counts) (when_of m.state) place.slot restarted slot lines lines' → HasCounts (λ s. S.view s) q (counts_by place.counts) slot
        → lines'' ≡ lines' ++ lines_at (when_of m.state) (texts_restarted q w.named restarted)
        → ComesTo (λ s. S.view s) (λ s. S.device s) x m q w restarted (record w { places = slice_set w.places q.0 (record place { slot = slot }) }) lines lines'' }
{}
