//! What holds at the moments of each run of the written machine, and so of the worlds that the code reaches: between any two steps of the
//! whole system; between any two events and after the end of the report and of what lies on the pages.
#![tactic(auto)]

ghost use Rattle.std.specs.Prelude.{◌≡◌, ◌≤◌, ◌++◌, List, [], map};
ghost use Rattle.std.specs.List.{AllByRecursion};
ghost use Rattle.jn_schedule.specs.declared.Event.{Event};
ghost use Rattle.jn_schedule.specs.Ranges.{EventInRange};
ghost use Rattle.jn_headline.specs.Headline.{IsTrueOfBegun};
ghost use Rattle.jn_machine.specs.Chances.{Setup};
ghost use Rattle.jn_machine.specs.Devices.{Devices};
ghost use Rattle.jn_machine.specs.Events.{ending};
ghost use Rattle.jn_machine.specs.Runs.{Moment};
ghost use Rattle.jn_machine.specs.Tasks.{Begins, InSchedule, AtEnd};
ghost use Rattle.jn_machine.specs.Whole.{IsWritten};
ghost use Rattle.jn_between.specs.Between.{IsConsistent, IsTrueBetween, IsTrueAtEnd};

/// At each moment of each run of the written machine, from its start on, whatever befalls its devices, the system is consistent, and the report
/// is true of the events that have begun; also where the run is cut short, but for a show in which it was. Between two events, where these are left, the
/// report is true of those that are done, and the pages are as their commits leave them; and after the end so is all of it, on every server.
pub fn moments_of_written_runs()
    ensures always { (x : Setup) (schedule : List Event) (images : Devices) (m : Moment) → x.servers ≤ 8 → AllByRecursion EventInRange schedule → (h : IsWritten x schedule images m)
        → IsConsistent h.files m.state.course.world × IsTrueOfBegun h.files schedule m.state.course.world.event m.state.lines }
    ensures between { (x : Setup) (schedule rest : List Event) (images : Devices) (m : Moment) → x.servers ≤ 8 → AllByRecursion EventInRange schedule → (h : IsWritten x schedule images m)
        → m.state.stage ≡ InSchedule → m.state.tasks ≡ map (λ (e : Event). Begins e) rest ++ ending x → (done : List Event) × (done ++ rest ≡ schedule) × IsTrueBetween x h.files done m }
    ensures at_the_end { (x : Setup) (schedule : List Event) (images : Devices) (m : Moment) → x.servers ≤ 8 → AllByRecursion EventInRange schedule → (h : IsWritten x schedule images m)
        → m.state.stage ≡ AtEnd → m.state.tasks ≡ [] → IsTrueAtEnd x h.files schedule m }
{}
