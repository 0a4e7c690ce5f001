//! Lines that report a server that came up, or a message that was sent, change nothing of what a report promises: where two
//! reports are one but for such lines, wherever these stand, each promise holds of both or of neither.
#![tactic(auto)]

ghost use Rattle.std.specs.Prelude.{◌≡◌, ◌+◌, true, false, List, [], ◌∷◌, ◌++◌, length};
ghost use Rattle.std.specs.List.{list_all};
ghost use Rattle.jn_order.specs.Files.{AllFiles};
ghost use Rattle.jn_schedule.specs.declared.Event.{Event};
ghost use Rattle.jn_report.specs.declared.line.When.TheVariants.{Event as AtEvent};
ghost use Rattle.jn_report.specs.declared.line.Line.{Line};
ghost use Rattle.jn_serial.specs.Lines.{lines_at};
ghost use Rattle.jn_serial.specs.Caused.{Caused};
ghost use Rattle.jn_serial.specs.Follows.{Follows};
ghost use Rattle.jn_serial.specs.Order.{Agrees};
ghost use Rattle.jn_serial.specs.Shown.{ShownSoFar, ShownAtEnd};
ghost use Rattle.jn_serial.specs.Told.{Told};
ghost use Rattle.jn_aside.specs.Aside.{is_aside, is_show, plain};

/// The answers from the files are those of the commits run one after another.
pub fn answers_agree_aside()
    ensures { (files : AllFiles) (events : List Event) (a b : List Line) → plain a ≡ plain b → Agrees files events a → Agrees files events b }
{}

/// Each show that printed, and the end, show the files after the commits before them.
pub fn files_are_shown_aside()
    ensures so_far { (files : AllFiles) (events : List Event) (a b : List Line) → plain a ≡ plain b → ShownSoFar files events a → ShownSoFar files events b }
    ensures at_end { (files : AllFiles) (events : List Event) (a b : List Line) → plain a ≡ plain b → ShownAtEnd files events a → ShownAtEnd files events b }
{}

/// Each acknowledged commit is named once, before, and none that is reported aborted or broken is named.
pub fn outcomes_are_told_aside()
    ensures { (a b : List Line) → plain a ≡ plain b → Told a → Told b }
{}

/// Each abort has its cause, and each stop and each refused fault an event of its own.
pub fn causes_stand_aside()
    ensures { (events : List Event) (a b : List Line) → plain a ≡ plain b → Caused events a → Caused events b }
{}

/// Each answer to a client answers its outstanding command, in a form of that command.
pub fn answers_follow_aside()
    ensures { (events : List Event) (a b : List Line) → plain a ≡ plain b → Follows events a → Follows events b }
{}

/// Of lines that are joined, those aside are left out of each part; a part that has only such lines is left out whole.
pub fn parts_are_plain()
    ensures joined { (a b : List Line) → plain (a ++ b) ≡ plain a ++ plain b }
    ensures aside { (lines : List Line) → list_all (λ (l : Line). is_aside l.text) lines ≡ true → plain lines ≡ [] }
{}

/// With one more event, that is no show and that no line reports, as it may be where a run is cut off in its last event, each
/// promise still holds.
pub fn a_silent_event_changes_nothing()
    ensures agrees { (files : AllFiles) (events : List Event) (e : Event) (lines : List Line) → Follows events lines → Agrees files events lines → Agrees files (events ++ e ∷ []) lines }
    ensures so_far { (files : AllFiles) (events : List Event) (e : Event) (lines : List Line) → Follows events lines → is_show e ≡ false → ShownSoFar files events lines → ShownSoFar files (events ++ e ∷ []) lines }
    ensures caused { (events : List Event) (e : Event) (lines : List Line) → Caused events lines → Caused (events ++ e ∷ []) lines }
    ensures follows { (events : List Event) (e : Event) (lines : List Line) → lines_at (AtEvent (1 + length events)) lines ≡ [] → Follows events lines → Follows (events ++ e ∷ []) lines }
{}
