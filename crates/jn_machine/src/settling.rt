//! What one step of a settle does, and one event that is refused or done.

ghost use Rattle.std.specs.Prelude.{◌≡◌, ◌≢◌, ◌∷◌, true, false, nat_lt, length, [], drop, Some, None};
ghost use Rattle.std.specs.List.{list_all};
ghost use Rattle.jn_schedule.specs.declared.Event.{Event};
ghost use Rattle.jn_report.specs.declared.line.EventRefusal.{EventRefusal};
ghost use Rattle.jn_report.specs.declared.line.Text.TheVariants.{RefusedEvent};
ghost use Rattle.jn_system.specs.WholeSystem.Course.{go_on};
ghost use Rattle.jn_machine.specs.Chances.{Setup, Chance};
ghost use Rattle.jn_machine.specs.Tasks.{Task, State, Meets, Rests, CutShort, begun};
ghost use Rattle.jn_machine.specs.Deeds.{tells};
ghost use Rattle.jn_machine.specs.Refusals.{refusal_of};
ghost use Rattle.jn_machine.specs.Events.{next_in, acted, deed_of};
ghost use Rattle.jn_machine.specs.Steps.{texts_of, most_messages, done, made};
ghost use Rattle.jn_machine.specs.Kinds.{cause_of};
ghost use Rattle.jn_report.specs.Kinds.{no_refusal};
ghost use Rattle.jn_machine.specs.Wrong.{IsAtRest};

/// A rest is over only where no message waits and no server that is up has a going work or a rubbish record.
pub fn a_rest_ends_where_nothing_is_left()
    ensures { (x : Setup) (h : Chance) (s : State) → (done x h Rests s).stage ≢ CutShort → (done x h Rests s).tasks ≡ drop 1 s.tasks → IsAtRest x h.rubbish s.course }
{}

/// Where nothing is left to do, a rest is over, and all else stays.
pub fn a_rest_is_over_where_nothing_is_left()
    ensures { (x : Setup) (h : Chance) (s : State) → nat_lt most_messages (length s.course.world.sent) ≡ false → next_in x h.rubbish s.course ≡ None
        → done x h Rests s ≡ begun Rests s }
{}

/// Else the next event is done, and the rest goes on.
pub fn a_rest_goes_on()
    ensures { (x : Setup) (h : Chance) (s : State) (event : Event) → next_in x h.rubbish s.course ≡ Some event
        → done x h Rests s ≡ made x h (record (acted x h event s.callers s.course.world) { tasks = Rests ∷ [] }) (begun Rests s) }
{}

/// An event that has a cause to be refused is refused, and does nothing else.
pub fn an_event_with_a_cause_is_refused()
    ensures { (x : Setup) (h : Chance) (s : State) (event : Event) (refusal : EventRefusal) → refusal_of x s.course.world event ≡ Some refusal
        → done x h (Meets event) s ≡ made x h (tells (RefusedEvent refusal ∷ [])) (begun (Meets event) s) }
{}

/// Any other does its step.
pub fn an_event_without_a_cause_is_done()
    ensures { (x : Setup) (h : Chance) (s : State) (event : Event) → refusal_of x s.course.world event ≡ None
        → done x h (Meets event) s ≡ made x h (acted x h event s.callers s.course.world) (begun (Meets event) s) }
{}

/// Whatever else is done, a refusal is reported only where its cause holds.
pub fn a_refusal_has_its_cause()
    ensures { (x : Setup) (h : Chance) (task : Task) (s : State) → cause_of x h task s.course.world ≡ None
        → list_all no_refusal (texts_of x h (deed_of x h task s) s.course.world (go_on (deed_of x h task s).steps s.course).world) ≡ true }
{}
