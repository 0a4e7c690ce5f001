//! Settling: the whole system goes on until nothing is left to do. It ends, after a number of messages that is bounded; and
//! runs by schedules, with a settle after each command, report what they must.

mod rows;

ghost use Rattle.std.specs.Prelude.{◌≡◌, ◌≤◌, ◌+◌, ℕ, List, Some};
ghost use Rattle.jn_base.specs.declared.names.ServerNo.{ServerNo};
ghost use Rattle.jn_order.specs.Files.{AllFiles};
ghost use Rattle.jn_system.specs.WholeSystem.World.{opening, servers_from};
ghost use Rattle.jn_system.specs.WholeSystem.Steps.{Step, run, IsRun};
ghost use Rattle.jn_system.specs.WholeSystem.Course.{opening_course, go, go_on};
ghost use Rattle.jn_system.specs.WholeSystem.Settle.{Chance, Chances, first_busy, next_step};
ghost use Rattle.jn_system_settling.specs.Settling.Events.{Event, AreSteps, told_by};
ghost use Rattle.jn_system_settling.specs.Settling.Weights.{burden};
ghost use Rattle.jn_system_settling.specs.Settling.Sizes.{Sizes};
ghost use Rattle.jn_system_settling.specs.Settling.Bounds.{one_if_delivery, IsCourse, IsSettle, Ends};

pub use rows::{
    a_commit_is_named_at_a_restart, a_prepare_is_stopped, a_reader_gives_way,
    a_stopped_commit_is_found_or_not, a_stopped_prepare_is_found_or_not,
    a_write_waits_for_a_reader, one_client_writes, two_clients_wait,
};

/// Whatever steps come one after another, stops and restarts among them: each End and Abort names no more works than there
/// are servers, at these, and each server has at most 64 works and 64 transactions.
pub fn tables_stay_small()
    ensures { (servers : ℕ) (files : AllFiles) (epochs : ServerNo → ℕ) (steps : List Step) → servers ≤ 8 → IsRun steps (opening servers files epochs)
        → Sizes servers (run steps (opening servers files epochs)) }
{}

/// A run with what waits beside it is that run.
pub fn courses_are_runs()
    ensures world { (servers : ℕ) (files : AllFiles) (epochs : ServerNo → ℕ) (steps : List Step)
        → (go_on steps (opening_course servers files epochs)).world ≡ run steps (opening servers files epochs) }
    ensures steps { (servers : ℕ) (files : AllFiles) (epochs : ServerNo → ℕ) (steps : List Step)
        → (go_on steps (opening_course servers files epochs)).steps ≡ steps }
{}

/// What comes next in a settle raises the weight of what waits and goes by nothing, and lowers it where a message is handed
/// over, whatever befalls that step.
pub fn deliveries_lighten()
    ensures { (servers : ℕ) (files : AllFiles) (epochs : ServerNo → ℕ) (steps : List Step) → servers ≤ 8 → IsRun steps (opening servers files epochs)
        → (chance : Chance) (step : Step) → next_step chance (go_on steps (opening_course servers files epochs)).waiting (first_busy (go_on steps (opening_course servers files epochs)).world (servers_from 0 servers)) ≡ Some step
        → burden (servers_from 0 servers) (go step (go_on steps (opening_course servers files epochs))) + one_if_delivery step ≤ burden (servers_from 0 servers) (go_on steps (opening_course servers files epochs)) }
{}

/// Events whose steps may come are a run.
pub fn events_are_runs()
    ensures { (servers : ℕ) (files : AllFiles) (epochs : ServerNo → ℕ) (events : List Event) → servers ≤ 8 → AreSteps servers events (opening_course servers files epochs)
        → IsCourse (opening servers files epochs) (told_by servers events (opening_course servers files epochs)).course }
{}

/// A settle after any run is a run too, and hands over and sends no more messages than its bound, whatever befalls its steps.
pub fn settling_is_bounded()
    ensures { (servers : ℕ) (files : AllFiles) (epochs : ServerNo → ℕ) (steps : List Step) → servers ≤ 8 → IsRun steps (opening servers files epochs)
        → (chances : Chances) → IsSettle servers (opening servers files epochs) chances (go_on steps (opening_course servers files epochs)) }
{}

/// A settle after any run ends, whatever befalls its steps: no message waits then, and no work of a server that is up goes.
pub fn settling_ends()
    ensures { (servers : ℕ) (files : AllFiles) (epochs : ServerNo → ℕ) (steps : List Step) → servers ≤ 8 → IsRun steps (opening servers files epochs)
        → (first second : ℕ → Chance) → Ends servers first second (go_on steps (opening_course servers files epochs)) }
{}
