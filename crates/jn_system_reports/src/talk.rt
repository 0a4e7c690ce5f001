//! What the lines of each run of the whole system report of its transactions is what their works did, so the order of commits
//! gives each committed transaction the answers that were reported.

ghost use Rattle.std.specs.Prelude.{◌≡◌, ℕ, List, [], ◌∷◌, ◌++◌};
ghost use Rattle.jn_base.specs.declared.names.ServerNo.{ServerNo};
ghost use Rattle.jn_base.specs.declared.op.Op.TheVariants as ops;
ghost use Rattle.jn_base.specs.declared.op.Answer.TheVariants as answers;
ghost use Rattle.jn_order.specs.Files.{AllFiles, no_files};
ghost use Rattle.jn_serial.specs.Lines.{history_of};
ghost use Rattle.jn_serial.specs.Order.{operations_of, OperationsAgree};
ghost use Rattle.jn_system.specs.WholeSystem.World.{opening};
ghost use Rattle.jn_system.specs.WholeSystem.Example.{the_server, the_file, the_transaction, start};
ghost use Rattle.jn_system_reports.specs.Reporting.Reported.{Item, events_of, lines_of, world_of, IsReported};
ghost use Rattle.jn_system_reports.specs.Telling.Agreement.{AreAsTold};
ghost use Rattle.jn_system_reports.specs.Telling.Example.{a_file_is_made};
ghost use Rattle.jn_system_reports.specs.Telling.WrongRuns.{lines_in, gives, two_operations, told_an_old_answer, one_operation, answered_and_lost};

/// Whatever is done under the events of a schedule, stops and restarts among it: the transactions that the lines name as
/// committed, run one after another from the opening files, give each of them the answers from the files that its lines
/// report, and the files that are found at each server, but for what is still to be carried out. So it is after each event of
/// the run, and no later line changes what was reported of those commits.
pub fn commits_are_as_told()
    ensures agrees { (servers : ℕ) (files : AllFiles) (epochs : ServerNo → ℕ) (items : List Item) → IsReported items (opening servers files epochs)
        → OperationsAgree files (events_of items) (lines_of items (opening servers files epochs)) }
    ensures all { (servers : ℕ) (files : AllFiles) (epochs : ServerNo → ℕ) (items : List Item) → IsReported items (opening servers files epochs)
        → AreAsTold files (events_of items) (lines_of items (opening servers files epochs)) (lines_of items (opening servers files epochs)) (world_of items (opening servers files epochs)) }
    ensures so_far { (servers : ℕ) (files : AllFiles) (epochs : ServerNo → ℕ) (items more : List Item) → IsReported (items ++ more) (opening servers files epochs)
        → AreAsTold files (events_of (items ++ more)) (lines_of (items ++ more) (opening servers files epochs)) (lines_of items (opening servers files epochs)) (world_of items (opening servers files epochs)) }
{}

/// There are such runs: here a client makes a file, and its transaction is named with that operation.
pub fn a_transaction_is_told()
    ensures run { IsReported a_file_is_made start }
    ensures commits { history_of (lines_of a_file_is_made start) ≡ the_transaction ∷ [] }
    ensures operations { operations_of (events_of a_file_is_made) (lines_of a_file_is_made start) the_transaction
        ≡ record { server = the_server; op = ops.Create the_file; answer = answers.Did } ∷ [] }
{}

/// Wrong rows report otherwise: where a client takes the answer to an earlier request there is a run whose committed
/// transaction is reported with what no files give, and where a worker answers without keeping what it did, one whose files are lost.
pub fn wrong_rows_tell_otherwise()
    ensures old_answer { OperationsAgree no_files (gives two_operations) (lines_in told_an_old_answer) → ⊥ }
    ensures lost { AreAsTold no_files (gives one_operation) (lines_in answered_and_lost) (lines_in answered_and_lost) answered_and_lost → ⊥ }
{}
