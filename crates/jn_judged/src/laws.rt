//! A report keeps a promise as a whole exactly where no line is at fault by its rule.

ghost use Rattle.std.specs.Prelude.{◌↔◌, ◌≡◌, ℕ, List};
ghost use Rattle.jn_order.specs.Files.{AllFiles};
ghost use Rattle.jn_schedule.specs.declared.Event.{Event};
ghost use Rattle.jn_report.specs.declared.line.Line.{Line};
ghost use Rattle.jn_serial.specs.Order.{Agrees};
ghost use Rattle.jn_serial.specs.Shown.{Shown};
ghost use Rattle.jn_serial.specs.Told.{Told};
ghost use Rattle.jn_serial.specs.Caused.{Caused};
ghost use Rattle.jn_serial.specs.Follows.{Follows};
ghost use Rattle.jn_judged.specs.Faults.{Keeps, IsFaultless, IsLeastFault, CountsCommits, KeepsAll};

/// Rule 10: the answers from the files are those of the commits run one after another.
pub fn answers_agree_line_by_line()
    ensures { (files : AllFiles) (events : List Event) (lines : List Line) → Keeps files events lines 10 ↔ Agrees files events lines }
{}

/// Rule 11: each show that printed, and the end, show the files after the commits before them, and the last line, if it is a
/// `commits` line, counts the commits.
pub fn files_are_shown_line_by_line()
    ensures { (files : AllFiles) (events : List Event) (lines : List Line) → Keeps files events lines 11 ↔ (Shown files events lines × CountsCommits lines) }
{}

/// Rule 12: each acknowledged commit is named once, before, and none that is reported aborted or broken is named.
pub fn outcomes_are_reported_line_by_line()
    ensures { (files : AllFiles) (events : List Event) (lines : List Line) → Keeps files events lines 12 ↔ Told lines }
{}

/// Rule 13: each abort has its cause, and each stop and each refused fault an event of its own.
pub fn causes_come_line_by_line()
    ensures { (files : AllFiles) (events : List Event) (lines : List Line) → Keeps files events lines 13 ↔ Caused events lines }
{}

/// Rule 14: each answer to a client answers its outstanding command, in a form of that command.
pub fn answers_follow_line_by_line()
    ensures { (files : AllFiles) (events : List Event) (lines : List Line) → Keeps files events lines 14 ↔ Follows events lines }
{}

/// A report has no fault exactly where it keeps all that a report promises, and its last line, if it is a `commits` line,
/// counts the commits.
pub fn a_report_is_faultless_where_all_is_kept()
    ensures { (files : AllFiles) (events : List Event) (lines : List Line) → IsFaultless files events lines ↔ KeepsAll files events lines }
{}

/// A report is faultless exactly where it has no least fault. So one that isn't faultless can't lack a least fault.
pub fn a_faulty_report_has_a_least_fault()
    ensures { (files : AllFiles) (events : List Event) (lines : List Line) → IsFaultless files events lines ↔ ((line rule : ℕ) → IsLeastFault files events lines line rule → ⊥) }
{}

/// Two least faults of one report are the same line, by the same rule.
pub fn a_report_has_one_least_fault()
    ensures { (files : AllFiles) (events : List Event) (lines : List Line) (line rule other other_rule : ℕ) → IsLeastFault files events lines line rule → IsLeastFault files events lines other other_rule
        → (line ≡ other) × (rule ≡ other_rule) }
{}
