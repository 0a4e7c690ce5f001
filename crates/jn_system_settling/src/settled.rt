//! What a settle leaves behind where all of so many servers are up.

ghost use Rattle.std.specs.Prelude.{◌≤◌, ℕ, List};
ghost use Rattle.jn_base.specs.declared.names.ServerNo.{ServerNo};
ghost use Rattle.jn_order.specs.Files.{AllFiles};
ghost use Rattle.jn_system.specs.WholeSystem.World.{opening};
ghost use Rattle.jn_system.specs.WholeSystem.Steps.{Step, IsRun};
ghost use Rattle.jn_system.specs.WholeSystem.Course.{opening_course, go_on};
ghost use Rattle.jn_system.specs.WholeSystem.Settle.{Chance};
ghost use Rattle.jn_system_settling.specs.AtRest.Settled.{AreDecided, IsSettled, LeavesBetween};
ghost use Rattle.jn_system_settling.specs.AtRest.Example.{forgotten_work};

/// A settle that ends with all servers up settles, whatever ran before and whatever befalls its steps: no message waits and no
/// work goes; no client waits for anything but an End, which it was told waits; no flag is left at any server, so each transaction
/// that has committed is carried out and forgotten; and a work that is live then and was before is of a transaction that is
/// undecided, or whose commit or abort was reported in this settle.
pub fn a_settle_settles()
    ensures { (servers : ℕ) (files : AllFiles) (epochs : ServerNo → ℕ) (steps : List Step) → servers ≤ 8 → IsRun steps (opening servers files epochs)
        → (first second : ℕ → Chance) → LeavesBetween servers first second (go_on steps (opening_course servers files epochs)) (IsSettled servers) }
{}

/// A work of a transaction that no one holds or reports isn't left by it.
pub fn a_forgotten_work_is_not_settled()
    ensures { (files : AllFiles) (epochs : ServerNo → ℕ) → AreDecided 1 (forgotten_work files epochs) (forgotten_work files epochs) → ⊥ }
{}
