//! Where a run starts, how its end begins, and what it leaves.

ghost use Rattle.std.specs.Prelude.{◌≡◌, ℕ, List, [], Some, slice_get};
ghost use Rattle.jn_base.specs.declared.names.ServerNo.{ServerNo};
ghost use Rattle.jn_order.specs.Files.{AllFiles};
ghost use Rattle.jn_place.specs.declared.place.Place.{Place};
ghost use Rattle.jn_report.specs.declared.line.Line.{Line};
ghost use Rattle.jn_schedule.specs.declared.Event.{Event};
ghost use Rattle.jn_machine.specs.Chances.{Setup};
ghost use Rattle.jn_machine.specs.Devices.{Devices, AreFound, AreRecoverable};
ghost use Rattle.jn_machine.specs.Runs.{Moment, Leads};
ghost use Rattle.jn_machine.specs.Tasks.{Dismisses, AtEnd, CutShort, next_task};
ghost use Rattle.jn_machine.specs.Whole.{closed_world, before, AreImages, IsWhole, IsLimited, IsPartOfRun};
ghost use Rattle.jn_world_refines.specs.Ending.{AreDisarmed, dismissed, BeginsEnd};
ghost use Rattle.jn_world_refines.specs.Going.{IsTold};
ghost use Rattle.jn_world_refines.specs.Stands.{Standing, Stands};
ghost use Rattle.jn_world_refines.specs.Starting.{IsFirst};
ghost use Rattle.jn_place.specs.Calls.{StandsOn};
ghost use Rattle.jn_world_refines.specs.Written.{IsReported};

use jn_store::Powered;

/// Servers that are down on stores with the images stand where a run starts, and the stores that servers stand on have the devices of the
/// moment.
pub fn a_run_starts_and_ends_on_its_stores<S: Powered>()
    ensures first { (x : Setup) (w : Standing S) (schedule : List Event) (files : AllFiles) (epochs : ServerNo → ℕ) (images : Devices) → IsFirst (λ s. S.device s) x images w
        → AreFound x (closed_world x.servers files epochs) images → AreRecoverable x images → Stands (λ s. S.view s) (λ s. S.device s) x w (record { state = before x schedule files epochs; devices = images }) }
    ensures closing { (x : Setup) (w : Standing S) (m : Moment) → Stands (λ s. S.view s) (λ s. S.device s) x w m → (n : ℕ) (p : Place S) (s : S) → slice_get w.places n ≡ Some p → StandsOn p.slot s
        → m.devices (record { 0 = n }) ≡ S.device s }
{}

/// Where no fault waits any more, clients have no transaction, and no message waits, the end has begun.
pub fn the_end_begins<S: Powered>()
    ensures { (x : Setup) (w : Standing S) (m : Moment) → Stands (λ s. S.view s) (λ s. S.device s) x w m → (places : List (Place S)) → AreDisarmed (λ s. S.view s) (λ s. S.device s) w.places places
        → (lines : List Line) → next_task m.state ≡ Some Dismisses → BeginsEnd (λ s. S.view s) (λ s. S.device s) x m (dismissed places w) lines }
{}

/// A report from its start on, and what it is at the end: of a whole run, of one that is cut short, or of a part of a run.
pub fn a_report_is_of_a_run()
    ensures first { (x : Setup) (schedule : List Event) (images : Devices) (files : AllFiles) (epochs : ServerNo → ℕ) → AreImages x files epochs images
        → IsReported x schedule images (record { state = before x schedule files epochs; devices = images }) [] }
    ensures further { (x : Setup) (schedule : List Event) (images : Devices) (m last : Moment) (a b : List Line) → IsReported x schedule images m a → Leads x m last → IsTold m last a b → IsReported x schedule images last b }
    ensures whole { (x : Setup) (schedule : List Event) (images : Devices) (m : Moment) (lines : List Line) → IsReported x schedule images m lines → m.state.stage ≡ AtEnd → m.state.tasks ≡ [] → IsWhole x schedule images m.devices lines }
    ensures limited { (x : Setup) (schedule : List Event) (images : Devices) (m : Moment) (lines : List Line) → IsReported x schedule images m lines → m.state.stage ≡ CutShort → IsLimited x schedule images lines }
    ensures part { (x : Setup) (schedule : List Event) (images : Devices) (m : Moment) (lines : List Line) → IsReported x schedule images m lines → IsPartOfRun x schedule images lines }
{}
