//! What holds between any two steps of the whole system, of names, doubt, works, commits, drops and answers.

ghost use Rattle.std.specs.Prelude.{ℕ, List};
ghost use Rattle.jn_base.specs.declared.names.ServerNo.{ServerNo};
ghost use Rattle.jn_order.specs.Files.{AllFiles};
ghost use Rattle.jn_system.specs.WholeSystem.World.{opening};
ghost use Rattle.jn_system.specs.WholeSystem.Steps.{Step, run, IsRun};
ghost use Rattle.jn_system.specs.WholeSystem.Example.{the_transaction, the_work, start};
ghost use Rattle.jn_system_reports.specs.Reporting.Reported.{Item, events_of, lines_of, world_of, IsReported};
ghost use Rattle.jn_system_reports.specs.BetweenSteps.Names.{AreMadeOnce};
ghost use Rattle.jn_system_reports.specs.BetweenSteps.Doubt.{IsInDoubt, IsDownInDoubt};
ghost use Rattle.jn_system_reports.specs.BetweenSteps.Works.{IsFlagged, DoWorksStay, AreAsPrepared, AreReadsKept};
ghost use Rattle.jn_system_reports.specs.BetweenSteps.Commits.{AreToldAfter};
ghost use Rattle.jn_system_reports.specs.BetweenSteps.Drops.{AreOfThePast};
ghost use Rattle.jn_system_reports.specs.BetweenSteps.Answers.{DoAnswersStand};
ghost use Rattle.jn_system_reports.specs.BetweenSteps.Lines.{DoLinesStand};
ghost use Rattle.jn_system_reports.specs.BetweenSteps.Example.{to_the_stop};

/// Whatever steps come one after another, stops and restarts among them: no name of a transaction or of a work is made twice,
/// and none that was made will be made again.
pub fn names_are_made_once()
    ensures { (servers : ℕ) (files : AllFiles) (epochs : ServerNo → ℕ) (steps : List Step) → IsRun steps (opening servers files epochs)
        → AreMadeOnce (run steps (opening servers files epochs)) }
{}

/// Whatever steps come one after another: where a transaction's flag may be found and its commit has no line, its coordinator
/// is down.
pub fn doubt_is_of_servers_that_are_down()
    ensures { (servers : ℕ) (files : AllFiles) (epochs : ServerNo → ℕ) (steps : List Step) → IsRun steps (opening servers files epochs)
        → IsDownInDoubt (run steps (opening servers files epochs)) }
{}

/// Whatever steps come one after another: each work of a flag that may be found, and of a named transaction's end, is prepared
/// in whatever is found at its server, or is carried out wherever it is still found. What is found of a prepared work never
/// changes, and what an active one has read it has read for good.
pub fn works_of_commits_stay()
    ensures stay { (servers : ℕ) (files : AllFiles) (epochs : ServerNo → ℕ) (steps : List Step) → IsRun steps (opening servers files epochs)
        → DoWorksStay (run steps (opening servers files epochs)) }
    ensures as_prepared { (servers : ℕ) (files : AllFiles) (epochs : ServerNo → ℕ) (steps more : List Step) → IsRun steps (opening servers files epochs)
        → IsRun more (run steps (opening servers files epochs)) → AreAsPrepared (run steps (opening servers files epochs)) (run more (run steps (opening servers files epochs))) }
    ensures reads { (servers : ℕ) (files : AllFiles) (epochs : ServerNo → ℕ) (steps more : List Step) → IsRun steps (opening servers files epochs)
        → IsRun more (run steps (opening servers files epochs)) → AreReadsKept (run steps (opening servers files epochs)) (run more (run steps (opening servers files epochs))) }
{}

/// Whatever steps come one after another: no work and no client is told of a commit that has no line.
pub fn commits_are_told_after_their_line()
    ensures { (servers : ℕ) (files : AllFiles) (epochs : ServerNo → ℕ) (steps : List Step) → IsRun steps (opening servers files epochs)
        → AreToldAfter (run steps (opening servers files epochs)) }
{}

/// Whatever steps come one after another: of a transaction whose commit has its line, only works that are over, or aren't in its
/// end, are told to drop, and only a client that is past it is told that it isn't known.
pub fn drops_are_of_works_that_are_over()
    ensures { (servers : ℕ) (files : AllFiles) (epochs : ServerNo → ℕ) (steps : List Step) → IsRun steps (opening servers files epochs)
        → AreOfThePast (run steps (opening servers files epochs)) }
{}

/// Whatever steps come one after another: each work that is active, or that may be found prepared while its transaction's commit
/// has no line, would be answered by the files that the commits so far leave as it was. So what the lines of a report say of such
/// a work's operations is what those files answer.
pub fn answers_stand_until_the_commit()
    ensures did { (servers : ℕ) (files : AllFiles) (epochs : ServerNo → ℕ) (steps : List Step) → IsRun steps (opening servers files epochs)
        → DoAnswersStand files (run steps (opening servers files epochs)) }
    ensures lines { (servers : ℕ) (files : AllFiles) (epochs : ServerNo → ℕ) (items : List Item) → IsReported items (opening servers files epochs)
        → DoLinesStand files (events_of items) (lines_of items (opening servers files epochs)) (world_of items (opening servers files epochs)) }
{}

/// There are such transactions: here a server stops while it puts a flag, and some of what may be found there has it.
pub fn a_transaction_may_be_in_doubt()
    ensures run { IsRun to_the_stop start }
    ensures doubt { IsInDoubt (run to_the_stop start) the_transaction }
    ensures work { IsFlagged (run to_the_stop start) the_transaction the_work }
{}
