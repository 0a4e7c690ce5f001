//! Each run of the written machine is a run of the whole system under the events of its schedule, and reports its lines.
#![tactic(auto)]

ghost use Rattle.std.specs.Prelude.{◌≡◌, ◌⊎◌, ◌≤◌, ℕ, List};
ghost use Rattle.std.specs.List.{AllByRecursion};
ghost use Rattle.jn_base.specs.declared.names.ServerNo.{ServerNo};
ghost use Rattle.jn_order.specs.Files.{AllFiles};
ghost use Rattle.jn_schedule.specs.declared.Event.{Event};
ghost use Rattle.jn_schedule.specs.Ranges.{EventInRange};
ghost use Rattle.jn_machine.specs.Chances.{Setup};
ghost use Rattle.jn_machine.specs.Devices.{Devices};
ghost use Rattle.jn_machine.specs.Runs.{Moment};
ghost use Rattle.jn_machine.specs.Tasks.{AtEnd};
ghost use Rattle.jn_machine.specs.Whole.{AreImages, IsWritten};
ghost use Rattle.jn_machine_refines.specs.Retold.{IsRetold, IsRetoldInPart};

/// Each run so far is a run of the whole system, from servers that are all up: it is within its schedule, and then so many of its events
/// were done; or they all were, and then its end began. So it is where the blocks that a schedule names are in range.
pub fn a_run_so_far_is_retold()
    ensures { (x : Setup) (schedule : List Event) (images : Devices) (now : Moment) → x.servers ≤ 8 → AllByRecursion EventInRange schedule → IsWritten x schedule images now
        → (files : AllFiles) × (epochs : ServerNo → ℕ) × AreImages x files epochs images × (IsRetoldInPart x schedule files now ⊎ IsRetold x schedule files now) }
{}

/// And one that has come to its end has done its whole schedule.
pub fn a_done_schedule_is_retold()
    ensures { (x : Setup) (schedule : List Event) (images : Devices) (now : Moment) → x.servers ≤ 8 → AllByRecursion EventInRange schedule → IsWritten x schedule images now
        → now.state.stage ≡ AtEnd → (files : AllFiles) × (epochs : ServerNo → ℕ) × AreImages x files epochs images × IsRetold x schedule files now }
{}
