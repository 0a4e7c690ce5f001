//! The report of every run of the written machine is that of its commits: where the run has come to its end whole, and as far as it goes where
//! it is cut off anywhere.
#![tactic(auto)]

mod cut_reports;
mod whole_reports;

ghost use Rattle.std.specs.Prelude.{◌≡◌, ◌≤◌, ℕ, List, []};
ghost use Rattle.std.specs.List.{AllByRecursion};
ghost use Rattle.jn_base.specs.declared.names.ServerNo.{ServerNo};
ghost use Rattle.jn_order.specs.Files.{AllFiles};
ghost use Rattle.jn_schedule.specs.declared.Event.{Event};
ghost use Rattle.jn_schedule.specs.Ranges.{EventInRange};
ghost use Rattle.jn_report.specs.declared.line.Line.{Line};
ghost use Rattle.jn_aside.specs.Aside.{plain};
ghost use Rattle.jn_system.specs.WholeSystem.World.{opening, AreFilesOf};
ghost use Rattle.jn_system_reports.specs.Reporting.Reported.{world_of};
ghost use Rattle.jn_system_reports.specs.Reporting.Ending.{Ending, IsWholeRun, all_lines};
ghost use Rattle.jn_headline.specs.WholeReports.Whole.{IsSettledEnd};
ghost use Rattle.jn_headline.specs.CutReports.Cut.{CutEnd, IsCutEnd, cut_lines};
ghost use Rattle.jn_machine.specs.Chances.{Setup};
ghost use Rattle.jn_machine.specs.Devices.{Devices};
ghost use Rattle.jn_machine.specs.Tasks.{AtEnd};
ghost use Rattle.jn_machine.specs.Runs.{Moment};
ghost use Rattle.jn_machine.specs.Whole.{AreImages, IsWhole, IsLimited, IsPartOfRun};
ghost use Rattle.jn_machine_refines.specs.Retold.{IsRetold, IsRetoldInPart};
ghost use Rattle.jn_headline.specs.Headline.{IsTrueOfBegun, IsOfItsCommits};

pub use cut_reports::{a_run_is_cut_off, fronts_of_an_end_are_cut_ends, reports_are_true_so_far};
pub use whole_reports::{
    an_end_settles, reports_are_of_their_commits, reports_are_true_to_the_end,
};

/// Where the schedule of a run is retold, its end is: one that was done whole is an ending of the whole system that settles until nothing is
/// left to do, and one that isn't is an end that is cut off. The lines are theirs, but for those of servers that came up and of messages.
pub fn the_end_is_retold()
    ensures whole { (x : Setup) (schedule : List Event) (files : AllFiles) (now : Moment) → x.servers ≤ 8 → (r : IsRetold x schedule files now) → now.state.stage ≡ AtEnd → now.state.tasks ≡ []
        → (e : Ending) × IsWholeRun x.servers files r.epochs r.items e × IsSettledEnd x.servers e (world_of r.items (opening x.servers files r.epochs)) × (plain now.state.lines ≡ plain (all_lines x.servers files r.epochs r.items e)) }
    ensures cut { (x : Setup) (schedule : List Event) (files : AllFiles) (now : Moment) → (r : IsRetold x schedule files now) → (now.state.stage ≡ AtEnd → now.state.tasks ≡ [] → ⊥)
        → (e : CutEnd) × IsCutEnd e (world_of r.items (opening x.servers files r.epochs)) × (plain now.state.lines ≡ plain (cut_lines r.items e (opening x.servers files r.epochs))) }
{}

/// Where the schedule of a run is retold and its end was done whole, its report is that of its commits.
pub fn reports_of_whole_runs()
    ensures { (x : Setup) (schedule : List Event) (files : AllFiles) (now : Moment) → x.servers ≤ 8 → AreFilesOf x.servers files → IsRetold x schedule files now → now.state.stage ≡ AtEnd → now.state.tasks ≡ []
        → IsOfItsCommits files schedule now.state.lines }
{}

/// Where a run is retold as far as it goes, its report is true of the events that it has begun.
pub fn reports_of_runs_so_far()
    ensures in_its_schedule { (x : Setup) (schedule : List Event) (files : AllFiles) (now : Moment) → IsRetoldInPart x schedule files now → IsTrueOfBegun files schedule now.state.course.world.event now.state.lines }
    ensures in_its_end { (x : Setup) (schedule : List Event) (files : AllFiles) (now : Moment) → IsRetold x schedule files now → (now.state.stage ≡ AtEnd → now.state.tasks ≡ [] → ⊥)
        → IsTrueOfBegun files schedule now.state.course.world.event now.state.lines }
    ensures to_its_end { (x : Setup) (schedule : List Event) (files : AllFiles) (now : Moment) → x.servers ≤ 8 → AreFilesOf x.servers files → IsRetold x schedule files now
        → IsTrueOfBegun files schedule now.state.course.world.event now.state.lines }
{}

/// The report of every whole run of the written machine is that of its commits, from the files of its images; and so is, of the events that
/// it has begun, that of every run so far, and of every one for which messages or epochs are used up: whatever befalls its devices, for at
/// most 8 servers, from images without works and flags, where what a schedule names is in range.
pub fn reports_of_written_runs()
    ensures whole { (x : Setup) (schedule : List Event) (images closing : Devices) (lines : List Line) → x.servers ≤ 8 → AllByRecursion EventInRange schedule → IsWhole x schedule images closing lines
        → (files : AllFiles) × (epochs : ServerNo → ℕ) × AreImages x files epochs images × IsOfItsCommits files schedule lines }
    ensures so_far { (x : Setup) (schedule : List Event) (images : Devices) (lines : List Line) → x.servers ≤ 8 → AllByRecursion EventInRange schedule → (h : IsPartOfRun x schedule images lines)
        → (files : AllFiles) × (epochs : ServerNo → ℕ) × AreImages x files epochs images × IsTrueOfBegun files schedule h.now.state.course.world.event lines }
    ensures limited { (x : Setup) (schedule : List Event) (images : Devices) (lines : List Line) → x.servers ≤ 8 → AllByRecursion EventInRange schedule → (h : IsLimited x schedule images lines)
        → (files : AllFiles) × (epochs : ServerNo → ℕ) × AreImages x files epochs images × IsTrueOfBegun files schedule h.last.state.course.world.event lines }
{}
