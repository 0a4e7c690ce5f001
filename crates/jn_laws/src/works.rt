//! What is found of the works of commits, in any run.

ghost use Rattle.std.specs.Prelude.{◌≤◌, List};
ghost use Rattle.std.specs.List.{AllByRecursion};
ghost use Rattle.jn_schedule.specs.declared.Event.{Event};
ghost use Rattle.jn_schedule.specs.Ranges.{EventInRange};
ghost use Rattle.jn_machine.specs.Chances.{Setup};
ghost use Rattle.jn_machine.specs.Devices.{Devices};
ghost use Rattle.jn_machine.specs.Runs.{Moment, Leads};
ghost use Rattle.jn_machine.specs.Whole.{IsWritten};
ghost use Rattle.jn_laws.specs.Works.{WorksHoldReads, AreTheirReads};

/// At each moment of each run the works of a flag and of a commit are found with their read units, until they are carried out. What a work has read is among
/// the read units that are found of it.
pub fn works_of_commits_keep_their_reads()
    ensures hold { (x : Setup) (schedule : List Event) (images : Devices) (m : Moment) → x.servers ≤ 8 → AllByRecursion EventInRange schedule → IsWritten x schedule images m
        → WorksHoldReads m.state.course.world }
    ensures reads { (x : Setup) (schedule : List Event) (images : Devices) (m later : Moment) → x.servers ≤ 8 → AllByRecursion EventInRange schedule → IsWritten x schedule images m → Leads x m later
        → AreTheirReads m.state.course.world later.state.course.world }
{}
