//! How many messages a settle hands over, in any run of the written machine: no more than 161 for each that waits as it begins and for each that a
//! client or a server may send again, and one for each work that goes.
#![tactic(auto)]

ghost use Rattle.std.specs.Prelude.{◌≡◌, ◌≤◌, ◌⊎◌, List, ◌++◌};
ghost use Rattle.jn_schedule.specs.declared.Event.{Event};
ghost use Rattle.jn_report.specs.declared.line.Line.{Line};
ghost use Rattle.jn_machine.specs.Chances.{Setup};
ghost use Rattle.jn_machine.specs.Tasks.{Task};
ghost use Rattle.jn_machine.specs.Events.{settling};
ghost use Rattle.jn_machine.specs.Devices.{Devices};
ghost use Rattle.jn_machine.specs.Runs.{Moment, Leads};
ghost use Rattle.jn_machine.specs.Whole.{before, IsWritten, IsWhole};
ghost use Rattle.jn_bounds.specs.Settles.{Settles, IsWithinBound, IsOver, IsUnderWay, HasItsSettles};

/// A settle of any run, as far as it has come, is within its bound, whatever befalls its devices: for at most 8 servers.
pub fn a_settle_is_bounded()
    ensures { (x : Setup) (schedule : List Event) (images : Devices) (a b : Moment) (behind : List Task) → x.servers ≤ 8 → IsWritten x schedule images a → Settles x behind a b
        → IsWithinBound x.servers a.state.course b.state.course }
{}

/// A run that comes to where a settle begins is within it as far as it goes, or comes to its end and goes on from there.
pub fn a_run_comes_through_its_settles()
    ensures { (x : Setup) (behind : List Task) (a now : Moment) → a.state.tasks ≡ settling x ++ behind → Leads x a now → IsUnderWay x behind a now ⊎ IsOver x behind a now }
{}

/// Every whole run has each settle of its schedule's events and that of its end, from its beginning to its end, and each is within its bound.
pub fn each_settle_of_a_whole_run_is_bounded()
    ensures { (x : Setup) (schedule : List Event) (images closing : Devices) (lines : List Line) → x.servers ≤ 8 → (run : IsWhole x schedule images closing lines)
        → HasItsSettles x schedule (record { state = before x schedule run.written.files run.written.epochs; devices = images }) run.last }
{}
