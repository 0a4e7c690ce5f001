//! The report of every run of the whole system, from its opening to its end, is that of its commits.

ghost use Rattle.std.specs.Prelude.{◌≤◌, ℕ, List};
ghost use Rattle.jn_base.specs.declared.names.ServerNo.{ServerNo};
ghost use Rattle.jn_order.specs.Files.{AllFiles, no_files};
ghost use Rattle.jn_serial.specs.Told.{Told};
ghost use Rattle.jn_serial.specs.Follows.{Follows};
ghost use Rattle.jn_serial.specs.Caused.{Caused};
ghost use Rattle.jn_system.specs.WholeSystem.World.{opening, AreFilesOf};
ghost use Rattle.jn_system_reports.specs.Reporting.Reported.{Item, events_of, world_of};
ghost use Rattle.jn_system_reports.specs.Reporting.Ending.{Ending, IsWholeRun, all_lines};
ghost use Rattle.jn_system.specs.WholeSystem.Example.{start};
ghost use Rattle.jn_system_reports.specs.Showing.Example.{a_commit_is_named};
ghost use Rattle.jn_headline.specs.WholeReports.Example.{an_end_that_settles};
ghost use Rattle.jn_headline.specs.WholeReports.Whole.{IsSettledEnd};
ghost use Rattle.jn_headline.specs.Headline.{IsOfItsCommits};

/// Whatever is done under the events of a schedule and at its end, stops and restarts among it: no commit is named twice, each
/// that a client is told of is named before, and no transaction is named that a client is told is aborted, or that a broken work
/// was of; each answer to a client answers its outstanding command, and none is given at the end; each abort, stop and refused
/// fault has its cause before it.
pub fn reports_are_true_to_the_end()
    ensures told { (servers : ℕ) (files : AllFiles) (epochs : ServerNo → ℕ) (items : List Item) (e : Ending) → IsWholeRun servers files epochs items e
        → Told (all_lines servers files epochs items e) }
    ensures follows { (servers : ℕ) (files : AllFiles) (epochs : ServerNo → ℕ) (items : List Item) (e : Ending) → IsWholeRun servers files epochs items e
        → Follows (events_of items) (all_lines servers files epochs items e) }
    ensures caused { (servers : ℕ) (files : AllFiles) (epochs : ServerNo → ℕ) (items : List Item) (e : Ending) → IsWholeRun servers files epochs items e
        → Caused (events_of items) (all_lines servers files epochs items e) }
{}

/// The report of every run whose end settles until nothing is left to do is that of its commits: whatever is done under the events
/// of its schedule and whatever befalls its servers, what committed transactions are answered and what is printed is what the
/// commits leave, one after another.
pub fn reports_are_of_their_commits()
    ensures { (servers : ℕ) (files : AllFiles) (epochs : ServerNo → ℕ) (items : List Item) (e : Ending) → servers ≤ 8 → AreFilesOf servers files
        → IsWholeRun servers files epochs items e → IsSettledEnd servers e (world_of items (opening servers files epochs)) → IsOfItsCommits files (events_of items) (all_lines servers files epochs items e) }
{}

/// There are such runs: here the commit that the restart finds is carried out while the world settles.
pub fn an_end_settles()
    ensures run { IsWholeRun 1 no_files (λ s. 0) a_commit_is_named an_end_that_settles }
    ensures settles { IsSettledEnd 1 an_end_that_settles (world_of a_commit_is_named start) }
{}
