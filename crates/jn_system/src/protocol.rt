//! The whole system as steps of its clients and servers by their rows, and what holds after any list of them.

mod wrong;

ghost use Rattle.std.specs.Prelude.{◌≡◌, ℕ, true, List, [], ◌∷◌, ◌++◌, Some, None};
ghost use Rattle.jn_base.specs.declared.names.ServerNo.{ServerNo};
ghost use Rattle.jn_base.specs.declared.names.LockUnit.TheVariants.{File};
ghost use Rattle.jn_order.specs.Files.{AllFiles, there};
ghost use Rattle.jn_report.specs.declared.line.Text.TheVariants as says;
ghost use Rattle.jn_rows.specs.Stable.{Pick};
ghost use Rattle.jn_system.specs.WholeSystem.World.{World, opening};
ghost use Rattle.jn_system.specs.WholeSystem.Steps.{Step, after, run, IsStep, IsRun};
ghost use Rattle.jn_system.specs.WholeSystem.Numbers.{plain_world};
ghost use Rattle.jn_system.specs.WholeSystem.LockFacts.{LockFacts};
ghost use Rattle.jn_system.specs.WholeSystem.Example.{the_server, the_client, the_file, the_transaction, the_work, start, to_the_vote, to_the_end, with_a_stop, the_end};

pub use wrong::{wrong_rows_lose_a_commit, wrong_rows_mix_the_order};

/// A client makes a file: each step by its row, up to the moment when nothing of the transaction is left.
pub fn a_transaction_commits()
    ensures lines { (run (to_the_vote ++ to_the_end) start).lines
        ≡ says.Begun the_client 1 the_transaction ∷ says.Opened the_client 2 the_server ∷ says.Did the_client 3
        ∷ says.Commit the_transaction ∷ says.Committed the_client 4 the_transaction ∷ [] }
    ensures file { (c : Pick) → ((run (to_the_vote ++ to_the_end) start).found the_server c).files (File the_file) ≡ Some there }
    ensures work { (c : Pick) → ((run (to_the_vote ++ to_the_end) start).found the_server c).works the_work ≡ None }
    ensures flag { (c : Pick) → ((run (to_the_vote ++ to_the_end) start).found the_server c).flags the_transaction ≡ None }
{}

/// The server stops while it puts the flag, finds it at its restart, and stops again while it carries the work out.
pub fn a_commit_is_found_again()
    ensures steps { IsRun (to_the_vote ++ with_a_stop) start }
    ensures lines { (run (to_the_vote ++ with_a_stop) start).lines
        ≡ says.Begun the_client 1 the_transaction ∷ says.Opened the_client 2 the_server ∷ says.Did the_client 3
        ∷ says.Stopped the_server ∷ says.Up the_server 1 ∷ says.Commit the_transaction ∷ says.Down the_server ∷ says.Up the_server 2 ∷ [] }
    ensures file { (c : Pick) → ((run (to_the_vote ++ with_a_stop) start).found the_server c).files (File the_file) ≡ Some there }
    ensures work { (c : Pick) → ((run (to_the_vote ++ with_a_stop) start).found the_server c).works the_work ≡ None }
{}

/// That run ends: its client never heard of the commit, and nothing of the transaction is left.
pub fn an_end_forgets()
    ensures steps { IsRun the_end (run (to_the_vote ++ with_a_stop) start) }
    ensures file { (c : Pick) → ((run (to_the_vote ++ with_a_stop ++ the_end) start).found the_server c).files (File the_file) ≡ Some there }
    ensures flag { (c : Pick) → ((run (to_the_vote ++ with_a_stop ++ the_end) start).found the_server c).flags the_transaction ≡ None }
{}

/// Whatever steps come one after another, stops and restarts among them: at each server each work's name stands once, no
/// two works hold a unit in modes that don't go together, each active work holds what its intentions write, each work
/// reads the file of each unit that it reads or writes, and the prepared works are the stable ones.
pub fn locks_go_together()
    ensures { (servers : ℕ) (files : AllFiles) (epochs : ServerNo → ℕ) (steps : List Step) → IsRun steps (opening servers files epochs)
        → LockFacts (run steps (opening servers files epochs)) }
{}

/// The numbers of events change nothing, nor do the lines so far: worlds that are the same but for both may make the same steps,
/// and are then the same but for both.
pub fn numbers_change_nothing()
    ensures may { (step : Step) (v w : World) → plain_world v ≡ plain_world w → IsStep step v → IsStep step w }
    ensures same { (step : Step) (v w : World) → plain_world v ≡ plain_world w → plain_world (after step v) ≡ plain_world (after step w) }
{}
