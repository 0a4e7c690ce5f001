//! After the end of a run nothing is left: no work, no transaction and no flag, so nothing is locked. What is left is what was
//! committed.

ghost use Rattle.std.specs.Prelude.{◌≡◌, ◌≤◌, ℕ, true, List, Some, is_some};
ghost use Rattle.jn_base.specs.declared.names.ServerNo.{ServerNo};
ghost use Rattle.jn_base.specs.declared.names.LockUnit.TheVariants.{File};
ghost use Rattle.jn_order.specs.Files.{AllFiles, there};
ghost use Rattle.jn_rows.specs.Stable.{Pick};
ghost use Rattle.jn_system.specs.WholeSystem.World.{opening, servers_from};
ghost use Rattle.jn_system.specs.WholeSystem.Steps.{Step, run, IsRun};
ghost use Rattle.jn_system.specs.WholeSystem.Example.{the_server, the_file, start};
ghost use Rattle.jn_system.specs.WholeSystem.Course.{Course, opening_course, go_on};
ghost use Rattle.jn_system.specs.WholeSystem.Settle.{Chance};
ghost use Rattle.jn_system_settling.specs.Closing.Example.{with_a_flag, finds_both, the_last};
ghost use Rattle.jn_system_settling.specs.Closing.Ending.{Start, end_steps, ended, IsClosed, IsAsCommitted, Leaves};

/// After the end of any run and a settle that ends with all servers up: no message waits, no server has a work or a
/// transaction, and no pick finds a work or a flag, whatever ran before, whatever the restarts find and whatever befalls the settle.
pub fn an_end_leaves_nothing()
    ensures { (servers : ℕ) (files : AllFiles) (epochs : ServerNo → ℕ) (steps : List Step) → servers ≤ 8 → IsRun steps (opening servers files epochs)
        → (starts : ServerNo → Start) → IsRun (end_steps starts (servers_from 0 servers)) (run steps (opening servers files epochs))
        → (first second : ℕ → Chance) → Leaves IsClosed servers first second (ended servers starts (go_on steps (opening_course servers files epochs))) }
{}

/// And each register of each state that may be found at a server is as the commits that the lines report leave it, one after
/// another, none of it still to be carried out.
pub fn an_end_leaves_what_was_committed()
    ensures { (servers : ℕ) (files : AllFiles) (epochs : ServerNo → ℕ) (steps : List Step) → servers ≤ 8 → IsRun steps (opening servers files epochs)
        → (starts : ServerNo → Start) → IsRun (end_steps starts (servers_from 0 servers)) (run steps (opening servers files epochs))
        → (first second : ℕ → Chance) → Leaves (λ c. IsAsCommitted files c.world) servers first second (ended servers starts (go_on steps (opening_course servers files epochs))) }
{}

/// A run ends where its server was stopped while it committed: the restart finds the work and the flag, and carries it out.
pub fn a_stopped_commit_ends()
    ensures steps { IsRun (end_steps finds_both (servers_from 0 1)) (run with_a_flag start) }
    ensures up { is_some (the_last.world.memory the_server) ≡ true }
    ensures file { (c : Pick) → (the_last.world.found the_server c).files (File the_file) ≡ Some there }
{}
