//! What shows print, in any run.

ghost use Rattle.std.specs.Prelude.{◌≡◌, ◌≤◌, List, None};
ghost use Rattle.std.specs.List.{AllByRecursion};
ghost use Rattle.jn_base.specs.declared.names.ServerNo.{ServerNo};
ghost use Rattle.jn_schedule.specs.declared.Event.{Event};
ghost use Rattle.jn_schedule.specs.Ranges.{EventInRange};
ghost use Rattle.jn_machine.specs.Chances.{Setup, prints_found};
ghost use Rattle.jn_machine.specs.Deeds.{Reads};
ghost use Rattle.jn_machine.specs.Devices.{Devices};
ghost use Rattle.jn_machine.specs.Events.{deed_of};
ghost use Rattle.jn_machine.specs.Runs.{Moment, DoesStep};
ghost use Rattle.jn_machine.specs.Whole.{IsWritten};
ghost use Rattle.jn_laws.specs.Shows.{ArePrintsInRange, ShowsInRange};

/// At each moment of each run, a server that is up has something to print of blocks below `MOST_BLOCKS` alone. No lock and no stored block has a
/// greater number.
pub fn printed_blocks_are_in_range()
    ensures { (x : Setup) (schedule : List Event) (images : Devices) (m : Moment) → x.servers ≤ 8 → AllByRecursion EventInRange schedule → IsWritten x schedule images m
        → ArePrintsInRange m.state.course.world }
{}

/// So a show that isn't stopped prints the files of its server, and of each one that is there its blocks, each of them below `MOST_BLOCKS`.
pub fn a_show_prints_the_blocks_of_its_files()
    ensures { (x : Setup) (schedule : List Event) (images : Devices) (m n : Moment) → x.servers ≤ 8 → AllByRecursion EventInRange schedule → IsWritten x schedule images m
        → (d : DoesStep x m n) (q : ServerNo) → (deed_of x d.chance d.task m.state).device ≡ Reads q → d.chance.stop ≡ None → ShowsInRange m.state.course.world q (prints_found d.chance.found) }
{}
