//! What the lines of each run of the whole system say of its schedule: each answer answers a command, outcomes are reported as
//! they are, and each stop and refused fault has an event that can have given it.

ghost use Rattle.std.specs.Prelude.{◌≡◌, ℕ, List};
ghost use Rattle.jn_base.specs.declared.names.ServerNo.{ServerNo};
ghost use Rattle.jn_order.specs.Files.{AllFiles};
ghost use Rattle.jn_serial.specs.Follows.{Follows};
ghost use Rattle.jn_serial.specs.Told.{Told};
ghost use Rattle.jn_system.specs.WholeSystem.Example.{start};
ghost use Rattle.jn_system.specs.WholeSystem.World.{opening};
ghost use Rattle.jn_system_reports.specs.Reporting.Reported.{Item, events_of, lines_of, IsReported};
ghost use Rattle.jn_system_reports.specs.Reporting.Armed.{AreArmed};
ghost use Rattle.jn_system_reports.specs.Reporting.Example.{a_run, its_lines};

/// Whatever is done under the events of a schedule, stops and restarts among it: each answer to a client answers its
/// outstanding command, in a form of that command.
pub fn answers_follow()
    ensures { (servers : ℕ) (files : AllFiles) (epochs : ServerNo → ℕ) (items : List Item) → IsReported items (opening servers files epochs)
        → Follows (events_of items) (lines_of items (opening servers files epochs)) }
{}

/// Whatever is done under the events of a schedule, stops and restarts among it: no commit is named twice, each that a client
/// is told of is named before, and no transaction is named that a client is told is aborted, or that a broken work was of.
pub fn outcomes_are_told()
    ensures { (servers : ℕ) (files : AllFiles) (epochs : ServerNo → ℕ) (items : List Item) → IsReported items (opening servers files epochs)
        → Told (lines_of items (opening servers files epochs)) }
{}

/// Whatever is done under the events of a schedule: each stop of a server has an arm of a stop before it that was accepted, of
/// its own, and each fault that is refused has an arm before it, or a decay as its event.
pub fn stops_and_faults_are_armed()
    ensures { (servers : ℕ) (files : AllFiles) (epochs : ServerNo → ℕ) (items : List Item) → IsReported items (opening servers files epochs)
        → AreArmed (events_of items) (lines_of items (opening servers files epochs)) }
{}

/// A client makes a file and ends; its server is stopped while it puts the flag, and names the commit at its restart.
pub fn a_commit_is_reported()
    ensures reported { IsReported a_run start }
    ensures lines { lines_of a_run start ≡ its_lines }
{}
