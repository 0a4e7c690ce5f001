//! What holds of reports without calls, and short reports written by hand.

ghost use Rattle.std.specs.Prelude.{◌≡◌, ◌↔◌, false, List, [], ◌∷◌, map};
ghost use Rattle.std.specs.List.{list_any};
ghost use Rattle.jn_base.specs.declared.names.Tid.{Tid};
ghost use Rattle.jn_order.specs.Files.{AllFiles};
ghost use Rattle.jn_schedule.specs.declared.Event.{Event};
ghost use Rattle.jn_report.specs.declared.line.Line.{Line};
ghost use Rattle.jn_serial.specs.Caused.{Caused};
ghost use Rattle.jn_serial.specs.Example.{one_transaction, made_and_removed, told_twice, told_backwards, both_operations, begun_line, opened_again, opened_and_down, lost_after, opened_line, refused_line};
ghost use Rattle.jn_serial.specs.Follows.{Follows};
ghost use Rattle.jn_serial.specs.Shown.{ShownSoFar, ShownAtEnd, OperationsShownSoFar, OperationsShownAtEnd};
ghost use Rattle.jn_serial.specs.Order.{operations_of, replay_operations, OperationsAgree, done_of, replay, Agrees, is_call, as_replied};

/// An operation counts once, however many lines answer it, and in the order of the commands.
pub fn an_operation_counts_once()
    ensures twice { operations_of made_and_removed told_twice one_transaction ≡ both_operations }
    ensures backwards { operations_of made_and_removed told_backwards one_transaction ≡ both_operations }
{}

/// A transaction is lost with a server that it came to. By an opening that its client refused it came to none.
pub fn a_refused_opening_loses_nothing()
    ensures opened { Caused opened_and_down (lost_after opened_line) }
    ensures refused { Caused opened_and_down (lost_after refused_line) → ⊥ }
{}

/// A command that its client refuses is refused once. A report that has it twice doesn't follow its commands.
pub fn a_command_is_refused_once()
    ensures once { Follows opened_again (begun_line ∷ refused_line ∷ []) }
    ensures twice { Follows opened_again (begun_line ∷ refused_line ∷ refused_line ∷ []) → ⊥ }
{}

/// Where no event is a call, what transactions did is their operations, each as one that was replied. So the commits leave the same
/// files, give the answers, and are shown as they are operation by operation.
pub fn without_calls_all_is_operations()
    ensures done { (events : List Event) (lines : List Line) (t : Tid) → list_any is_call events ≡ false → done_of events lines t ≡ map as_replied (operations_of events lines t) }
    ensures files { (files : AllFiles) (events : List Event) (lines : List Line) (ts : List Tid) → list_any is_call events ≡ false → replay files events lines ts ≡ replay_operations files events lines ts }
    ensures agrees { (files : AllFiles) (events : List Event) (lines : List Line) → list_any is_call events ≡ false → Agrees files events lines ↔ OperationsAgree files events lines }
    ensures shown { (files : AllFiles) (events : List Event) (lines : List Line) → list_any is_call events ≡ false → ShownSoFar files events lines ↔ OperationsShownSoFar files events lines }
    ensures at_end { (files : AllFiles) (events : List Event) (lines : List Line) → list_any is_call events ≡ false → ShownAtEnd files events lines ↔ OperationsShownAtEnd files events lines }
{}
