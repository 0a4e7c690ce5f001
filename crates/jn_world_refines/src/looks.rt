//! Calls of a server that change nothing of what is stable, or count its outcomes as thanked.

ghost use Rattle.std.specs.Prelude.{◌≡◌, ◌++◌, ℕ, Bool, true, List, Option, Some, drop, slice_get, slice_set};
ghost use Rattle.jn_base.specs.declared.names.ServerNo.{ServerNo};
ghost use Rattle.jn_place.specs.declared.place.Place.{Place};
ghost use Rattle.jn_place.specs.declared.place.Slot.{Slot};
ghost use Rattle.jn_place.specs.Exact.{ScrubbedBy, Showed, Closed, WhereUp, KeepsBeside, LeavesClean};
ghost use Rattle.jn_place.specs.Places.{is_up};
ghost use Rattle.jn_system.specs.WholeSystem.Steps.{IsIdle};
ghost use Rattle.jn_recovery.specs.Counts.{counts_by};
ghost use Rattle.jn_report.specs.declared.line.Line.{Line};
ghost use Rattle.jn_callers.specs.Callers.{Caller};
ghost use Rattle.jn_schedule.specs.declared.Event.TheVariants as events;
ghost use Rattle.jn_server.specs.declared.show.Shown.{Shown};
ghost use Rattle.jn_machine.specs.Chances.{Setup};
ghost use Rattle.jn_machine.specs.Runs.{Moment};
ghost use Rattle.jn_report.specs.Lines.{lines_at};
ghost use Rattle.jn_machine.specs.Tasks.{Task, ClosesClients, when_of, next_task};
ghost use Rattle.jn_world_refines.specs.Going.{ActsNext, IsStepTo};
ghost use Rattle.jn_world_refines.specs.Pages.{HasCounts};
ghost use Rattle.jn_world_refines.specs.Showing.{texts_shown};
ghost use Rattle.jn_world_refines.specs.Stands.{Standing, Stands};

use jn_store::Powered;

/// A scrub and a show, done or stopped.
pub fn a_look_is_a_step<S: Powered>()
    ensures scrub { (x : Setup) (w : Standing S) (m : Moment) → Stands (λ s. S.view s) (λ s. S.device s) x w m → (q : ServerNo) (place : Place S) → slice_get w.places q.0 ≡ Some place
        → (more : List Task) (lines lines' : List Line) (done : Bool) (slot : Slot S) → ScrubbedBy (λ s. S.view s) (λ s. S.device s) q (counts_by place.counts) (when_of m.state) place.slot done slot lines lines'
        → HasCounts (λ s. S.view s) q (counts_by place.counts) slot
        → WhereUp (λ s. S.view s) KeepsBeside place.slot slot → WhereUp (λ s. S.view s) LeavesClean place.slot slot → ActsNext x m (events.Scrub q) more
        → IsStepTo (λ s. S.view s) (λ s. S.device s) x m (more ++ drop 1 m.state.tasks) (record w { places = slice_set w.places q.0 (record place { slot = slot }) }) lines lines' }
    ensures show { (x : Setup) (w : Standing S) (m : Moment) → Stands (λ s. S.view s) (λ s. S.device s) x w m → (q : ServerNo) (place : Place S) → slice_get w.places q.0 ≡ Some place
        → (more : List Task) (lines lines' : List Line) (list : Option (List Shown)) (slot : Slot S) → Showed (λ s. S.view s) (λ s. S.device s) q (counts_by place.counts) (when_of m.state) place.slot list slot lines lines'
        → HasCounts (λ s. S.view s) q (counts_by place.counts) slot
        → WhereUp (λ s. S.view s) KeepsBeside place.slot slot → ActsNext x m (events.Show q) more
        → IsStepTo (λ s. S.view s) (λ s. S.device s) x m (more ++ drop 1 m.state.tasks) (record w { places = slice_set w.places q.0 (record place { slot = slot }) }) lines
        (lines' ++ lines_at (when_of m.state) (texts_shown q list)) }
{}

/// Each outcome at a server counts as thanked, where no client has a transaction or waits, and the server isn't stopped.
pub fn a_closing_is_a_step<S: Powered>()
    ensures { (x : Setup) (w : Standing S) (m : Moment) → Stands (λ s. S.view s) (λ s. S.device s) x w m → (q : ServerNo) (place : Place S) → slice_get w.places q.0 ≡ Some place
        → (lines : List Line) → ((n : ℕ) (c : Caller) → slice_get w.clients n ≡ Some c → IsIdle c.table) → next_task m.state ≡ Some (ClosesClients q)
        → (done : Bool) (slot : Slot S) (lines' : List Line) → Closed (λ s. S.view s) (λ s. S.device s) q (counts_by place.counts) (when_of m.state) place.slot done slot lines lines' → is_up slot ≡ true → HasCounts (λ s. S.view s) q (counts_by place.counts) slot
        → WhereUp (λ s. S.view s) KeepsBeside place.slot slot
        → IsStepTo (λ s. S.view s) (λ s. S.device s) x m (drop 1 m.state.tasks) (record w { places = slice_set w.places q.0 (record place { slot = slot }) }) lines lines' }
{}
