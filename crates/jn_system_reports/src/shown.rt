//! What the shows of each run of the whole system print is what the commits before them leave.

ghost use Rattle.std.specs.Prelude.{◌≡◌, ◌<◌, ℕ, false, List, [], ◌∷◌, None};
ghost use Rattle.jn_base.specs.declared.names.ServerNo.{ServerNo};
ghost use Rattle.jn_base.specs.declared.names.LockUnit.TheVariants.{File};
ghost use Rattle.jn_order.specs.Files.{AllFiles, no_files};
ghost use Rattle.jn_report.specs.declared.line.When.TheVariants.{Event as AtEvent, End as AtEnd};
ghost use Rattle.jn_report.specs.declared.line.Text.TheVariants as lines;
ghost use Rattle.jn_rows.specs.Stable.{stable};
ghost use Rattle.jn_serial.specs.Lines.{lines_at, says, history_of};
ghost use Rattle.jn_serial.specs.Order.{replay_operations, OperationsAgree};
ghost use Rattle.jn_serial.specs.Shown.{ShowsFiles, OperationsShownSoFar, OperationsShown};
ghost use Rattle.jn_report.specs.Kinds.{is_locked};
ghost use Rattle.jn_system.specs.WholeSystem.World.{opening, AreFilesOf};
ghost use Rattle.jn_system.specs.WholeSystem.Example.{the_server, the_file, the_transaction, start};
ghost use Rattle.jn_system_reports.specs.Reporting.Reported.{Item, events_of, lines_of, world_of, IsReported};
ghost use Rattle.jn_system_reports.specs.Reporting.Ending.{Ending, IsWholeRun, all_lines};
ghost use Rattle.jn_system_reports.specs.Showing.Example.{a_commit_is_named, a_file_is_shown, locks_are_passed, an_end};

/// Whatever is done under the events of a schedule, stops and restarts among it: each show that isn't refused or stopped
/// prints of its server the files and blocks that the commits before it leave, run one after another from the opening files,
/// but for those that it names as locked.
pub fn shows_are_of_commits()
    ensures { (servers : ℕ) (files : AllFiles) (epochs : ServerNo → ℕ) (items : List Item) → IsReported items (opening servers files epochs)
        → OperationsShownSoFar files (events_of items) (lines_of items (opening servers files epochs)) }
{}

/// With the end of such a run: each show prints so by all lines, and the end prints of each server the files and blocks that
/// all commits leave, but for those that it names as locked. With the end's lines too each committed transaction is answered
/// what those before it left.
pub fn the_end_is_of_commits()
    ensures shown { (servers : ℕ) (files : AllFiles) (epochs : ServerNo → ℕ) (items : List Item) (e : Ending) → IsWholeRun servers files epochs items e → (s : ServerNo) → s.0 < servers
        → ShowsFiles (replay_operations files (events_of items) (all_lines servers files epochs items e) (history_of (all_lines servers files epochs items e))) s (lines_at AtEnd (all_lines servers files epochs items e)) }
    ensures all { (servers : ℕ) (files : AllFiles) (epochs : ServerNo → ℕ) (items : List Item) (e : Ending) → IsWholeRun servers files epochs items e → AreFilesOf servers files → (s : ServerNo)
        → ShowsFiles (replay_operations files (events_of items) (all_lines servers files epochs items e) (history_of (all_lines servers files epochs items e))) s (lines_at AtEnd (all_lines servers files epochs items e)) }
    ensures so_far { (servers : ℕ) (files : AllFiles) (epochs : ServerNo → ℕ) (items : List Item) (e : Ending) → IsWholeRun servers files epochs items e → OperationsShownSoFar files (events_of items) (all_lines servers files epochs items e) }
    ensures whole { (servers : ℕ) (files : AllFiles) (epochs : ServerNo → ℕ) (items : List Item) (e : Ending) → IsWholeRun servers files epochs items e → AreFilesOf servers files
        → says is_locked (lines_at AtEnd (all_lines servers files epochs items e)) ≡ false → OperationsShown files (events_of items) (all_lines servers files epochs items e) }
    ensures agrees { (servers : ℕ) (files : AllFiles) (epochs : ServerNo → ℕ) (items : List Item) (e : Ending) → IsWholeRun servers files epochs items e → OperationsAgree files (events_of items) (all_lines servers files epochs items e) }
{}

/// There are such runs: here a client makes a file and its transaction is named; a show before it is carried out prints the
/// file as locked, and one after it prints the file.
pub fn a_file_is_shown_after_it_is_locked()
    ensures run { IsReported a_file_is_shown start }
    ensures locked { lines_at (AtEvent 14) (lines_of a_file_is_shown start) ≡ record { when = AtEvent 14; text = lines.Locked the_server (File the_file) the_transaction } ∷ [] }
    ensures there { lines_at (AtEvent 16) (lines_of a_file_is_shown start) ≡ record { when = AtEvent 16; text = lines.File the_server the_file } ∷ [] }
{}

/// There are such ends: here the client never hears of its commit, and the file is printed once it is made.
pub fn a_run_ends()
    ensures run { IsWholeRun 1 no_files (λ s. 0) a_commit_is_named an_end }
    ensures lines { lines_at AtEnd (all_lines 1 no_files (λ s. 0) a_commit_is_named an_end)
        ≡ record { when = AtEnd; text = lines.Down the_server } ∷ record { when = AtEnd; text = lines.Up the_server 1 } ∷ record { when = AtEnd; text = lines.File the_server the_file } ∷ record { when = AtEnd; text = lines.Commits 1 } ∷ [] }
{}

/// A show that looks at no locks is wrong: what is found at the server isn't what the commits leave, while one of them is
/// still to be carried out.
pub fn shows_need_locks()
    ensures found { (stable ((world_of a_commit_is_named start).found the_server)).files (File the_file) ≡ None }
    ensures wrong { OperationsShownSoFar no_files (events_of locks_are_passed) (lines_of locks_are_passed start) → ⊥ }
{}
