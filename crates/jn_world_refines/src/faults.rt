//! What befalls a server's device by an event.

ghost use Rattle.std.specs.Prelude.{◌≡◌, ◌++◌, ℕ, Bool, List, Some, drop, slice_get, slice_set};
ghost use Rattle.jn_base.specs.declared.device.FaultKind.{FaultKind};
ghost use Rattle.jn_base.specs.declared.device.FaultKind.TheVariants as faults;
ghost use Rattle.jn_base.specs.declared.names.ServerNo.{ServerNo};
ghost use Rattle.jn_device.specs.Events.{Decays, Revives, Arms};
ghost use Rattle.jn_place.specs.declared.place.Place.{Place};
ghost use Rattle.jn_place.specs.declared.place.Slot.{Slot};
ghost use Rattle.jn_place.specs.Exact.{Befell, WhereUp, KeepsBeside};
ghost use Rattle.jn_recovery.specs.Counts.{counts_by};
ghost use Rattle.jn_report.specs.declared.line.EventRefusal.TheVariants.{TooManyArmed};
ghost use Rattle.jn_report.specs.declared.line.Line.{Line};
ghost use Rattle.jn_report.specs.declared.line.Text.TheVariants as says;
ghost use Rattle.jn_schedule.specs.declared.Event.TheVariants as events;
ghost use Rattle.jn_machine.specs.Chances.{Setup};
ghost use Rattle.jn_machine.specs.Events.{told_unless};
ghost use Rattle.jn_machine.specs.Runs.{Moment};
ghost use Rattle.jn_report.specs.Lines.{lines_at};
ghost use Rattle.jn_machine.specs.Tasks.{Task, when_of};
ghost use Rattle.jn_world_refines.specs.Going.{ActsNext, IsStepTo};
ghost use Rattle.jn_world_refines.specs.Pages.{HasCounts};
ghost use Rattle.jn_world_refines.specs.Stands.{Standing, Stands};

use jn_store::Powered;

/// A page that goes bad or good again, and a fault that is to wait.
pub fn faults_that_befall_are_steps<S: Powered>()
    ensures decay { (x : Setup) (w : Standing S) (m : Moment) → Stands (λ s. S.view s) (λ s. S.device s) x w m → (q : ServerNo) (place : Place S) → slice_get w.places q.0 ≡ Some place
        → (slot : Slot S) → HasCounts (λ s. S.view s) q (counts_by place.counts) slot
        → WhereUp (λ s. S.view s) KeepsBeside place.slot slot → (lines : List Line) (more : List Task) (p : ℕ) (answer : Bool) → ActsNext x m (events.Decay q p) more
        → Befell (λ s. S.view s) (λ s. S.device s) (counts_by place.counts) (λ d e. Decays d p answer e) place.slot slot
        → IsStepTo (λ s. S.view s) (λ s. S.device s) x m (more ++ drop 1 m.state.tasks) (record w { places = slice_set w.places q.0 (record place { slot = slot }) }) lines
        (lines ++ lines_at (when_of m.state) (told_unless answer (says.Outside q (record { kind = faults.Decay p; page = p })))) }
    ensures revive { (x : Setup) (w : Standing S) (m : Moment) → Stands (λ s. S.view s) (λ s. S.device s) x w m → (q : ServerNo) (place : Place S) → slice_get w.places q.0 ≡ Some place
        → (slot : Slot S) → HasCounts (λ s. S.view s) q (counts_by place.counts) slot
        → WhereUp (λ s. S.view s) KeepsBeside place.slot slot → (lines : List Line) (more : List Task) (p : ℕ) → ActsNext x m (events.Revive q p) more
        → Befell (λ s. S.view s) (λ s. S.device s) (counts_by place.counts) (λ d e. Revives d p e) place.slot slot
        → IsStepTo (λ s. S.view s) (λ s. S.device s) x m (more ++ drop 1 m.state.tasks) (record w { places = slice_set w.places q.0 (record place { slot = slot }) }) lines lines }
    ensures arm { (x : Setup) (w : Standing S) (m : Moment) → Stands (λ s. S.view s) (λ s. S.device s) x w m → (q : ServerNo) (place : Place S) → slice_get w.places q.0 ≡ Some place
        → (slot : Slot S) → HasCounts (λ s. S.view s) q (counts_by place.counts) slot
        → WhereUp (λ s. S.view s) KeepsBeside place.slot slot → (lines : List Line) (more : List Task) (n : ℕ) (kind : FaultKind) (answer : Bool) → ActsNext x m (events.Arm q n kind) more
        → Befell (λ s. S.view s) (λ s. S.device s) (counts_by place.counts) (λ d e. Arms d n kind answer e) place.slot slot
        → IsStepTo (λ s. S.view s) (λ s. S.device s) x m (more ++ drop 1 m.state.tasks) (record w { places = slice_set w.places q.0 (record place { slot = slot }) }) lines
        (lines ++ lines_at (when_of m.state) (told_unless answer (says.RefusedEvent TooManyArmed))) }
{}
