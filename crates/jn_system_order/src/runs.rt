//! Every run of the whole system is a run of the machine of small steps, so its commits are in order.

ghost use Rattle.std.specs.Prelude.{ℕ, List, []};
ghost use Rattle.jn_base.specs.declared.names.ServerNo.{ServerNo};
ghost use Rattle.jn_order.specs.Files.{AllFiles};
ghost use Rattle.jn_system.specs.WholeSystem.World.{opening};
ghost use Rattle.jn_system.specs.WholeSystem.Steps.{Step, run, IsRun};
ghost use Rattle.jn_system_order.specs.Ordering.Runs.{IsMoves, IsInOrder, AreNamed};

/// Whatever steps come one after another, stops and restarts among them, there are steps of the machine that may come, and
/// that stand where the whole system does.
pub fn runs_are_moves()
    ensures { (servers : ℕ) (files : AllFiles) (epochs : ServerNo → ℕ) (steps : List Step) → IsRun steps (opening servers files epochs)
        → IsMoves files epochs (run steps (opening servers files epochs)) }
{}

/// Whatever steps come one after another, the commits that the lines report are in order: they have a history in which each is
/// answered what those before it left, and each unit of a running server that no work holds for commit is as they leave it.
pub fn commits_are_in_order()
    ensures { (servers : ℕ) (files : AllFiles) (epochs : ServerNo → ℕ) (steps : List Step) → IsRun steps (opening servers files epochs)
        → IsInOrder files (run steps (opening servers files epochs)) }
{}

/// Whatever steps come one after another, no client is told that its transaction has committed before the commit's line.
pub fn acknowledged_commits_are_named()
    ensures { (servers : ℕ) (files : AllFiles) (epochs : ServerNo → ℕ) (steps : List Step) → IsRun steps (opening servers files epochs)
        → AreNamed [] (run steps (opening servers files epochs)).lines }
{}
