//! What a settle does, in any run: it hands each message over once, and leaves nothing to do.

ghost use Rattle.std.specs.Prelude.{◌≡◌, ◌≢◌, ℕ, List, ◌∷◌, ◌++◌};
ghost use Rattle.jn_base.specs.declared.names.ServerNo.{ServerNo};
ghost use Rattle.jn_order.specs.Files.{AllFiles};
ghost use Rattle.jn_schedule.specs.declared.Event.{Event};
ghost use Rattle.jn_schedule.specs.declared.Event.TheVariants.{Settle};
ghost use Rattle.jn_machine.specs.Chances.{Setup};
ghost use Rattle.jn_machine.specs.Events.{settling};
ghost use Rattle.jn_machine.specs.Runs.{Moment, MayLead, Leads};
ghost use Rattle.jn_machine.specs.Tasks.{Task, Meets, CutShort, State};
ghost use Rattle.jn_machine.specs.Whole.{before};
ghost use Rattle.jn_wrong.specs.Settles.{HandsOver, ComesToRest};

/// A message that a settle has handed over is handed over by no settle again, that one or a later one, whatever befalls the run.
pub fn a_message_is_handed_over_once()
    ensures { (x : Setup) (schedule : List Event) (files : AllFiles) (epochs : ServerNo → ℕ) (k : ℕ) (s t u v : State)
        → MayLead x (before x schedule files epochs) s → HandsOver x k s t → MayLead x t u → HandsOver x k u v → ⊥ }
{}

/// A run comes behind a settle, that of an event or that of the end, only where no message waits and no server that is up has anything to do.
pub fn a_settle_leaves_nothing_to_do()
    ensures of_an_event { (x : Setup) (rest : List Task) (a b : Moment) → a.state.tasks ≡ Meets Settle ∷ rest → Leads x a b → b.state.tasks ≡ rest → b.state.stage ≢ CutShort → ComesToRest x rest a b }
    ensures of_the_end { (x : Setup) (rest : List Task) (a b : Moment) → a.state.tasks ≡ settling x ++ rest → Leads x a b → b.state.tasks ≡ rest → b.state.stage ≢ CutShort → ComesToRest x rest a b }
{}
