//! Which event the next task does, and tasks in which no server and no client does anything.

ghost use Rattle.std.specs.Prelude.{◌≡◌, ◌∷◌, ◌++◌, ◌+◌, [], false, List, Some, None, drop};
ghost use Rattle.jn_base.specs.declared.names.ServerNo.{ServerNo};
ghost use Rattle.jn_report.specs.declared.line.EventRefusal.{EventRefusal};
ghost use Rattle.jn_report.specs.declared.line.Line.{Line};
ghost use Rattle.jn_report.specs.declared.line.Text.TheVariants as says;
ghost use Rattle.jn_schedule.specs.declared.Event.{Event};
ghost use Rattle.jn_schedule.specs.declared.Event.TheVariants as events;
ghost use Rattle.jn_machine.specs.Chances.{Setup};
ghost use Rattle.jn_machine.specs.Events.{settling};
ghost use Rattle.jn_machine.specs.Refusals.{refusal_of};
ghost use Rattle.jn_machine.specs.Runs.{Moment, Leads};
ghost use Rattle.jn_machine.specs.Tasks.{Task, Begins, Meets, Acts, GoesDown, CountsCommits, when_of, next_task};
ghost use Rattle.jn_world_refines.specs.Going.{ActsNext, Limit, WentOn, WasCut, IsStepTo};
ghost use Rattle.jn_world_refines.specs.Meeting.{is_settle, begun_by, begins_in};
ghost use Rattle.jn_world_refines.specs.Stands.{Standing, Stands};

use jn_store::Powered;

/// An event of the schedule that isn't refused is done next, and so is one of a settle or of the end; there a server goes down as by a crash.
pub fn an_event_is_what_comes_next()
    ensures meets { (x : Setup) (m : Moment) (event : Event) → next_task m.state ≡ Some (Meets event) → is_settle event ≡ false → refusal_of x m.state.course.world event ≡ None → ActsNext x m event [] }
    ensures acts { (x : Setup) (m : Moment) (event : Event) → next_task m.state ≡ Some (Acts event) → is_settle event ≡ false → ActsNext x m event [] }
    ensures down { (x : Setup) (m : Moment) (q : ServerNo) → next_task m.state ≡ Some (GoesDown q) → ActsNext x m (events.Crash q) [] }
{}

/// An event begins, is refused, or settles; and commits are counted.
pub fn steps_without_servers<S: Powered>()
    ensures begins { (x : Setup) (w : Standing S) (m : Moment) (event : Event) (lines : List Line) → Stands (λ s. S.view s) (λ s. S.device s) x w m → next_task m.state ≡ Some (Begins event)
        → IsStepTo (λ s. S.view s) (λ s. S.device s) x m (Meets event ∷ drop 1 m.state.tasks) w lines lines }
    ensures refused { (x : Setup) (w : Standing S) (m : Moment) (event : Event) (refusal : EventRefusal) (lines : List Line) → Stands (λ s. S.view s) (λ s. S.device s) x w m
        → next_task m.state ≡ Some (Meets event) → refusal_of x m.state.course.world event ≡ Some refusal
        → IsStepTo (λ s. S.view s) (λ s. S.device s) x m (drop 1 m.state.tasks) w lines (lines ++ record { when = when_of m.state; text = says.RefusedEvent refusal } ∷ []) }
    ensures settles { (x : Setup) (w : Standing S) (m : Moment) (lines : List Line) → Stands (λ s. S.view s) (λ s. S.device s) x w m → next_task m.state ≡ Some (Meets events.Settle)
        → IsStepTo (λ s. S.view s) (λ s. S.device s) x m (settling x ++ drop 1 m.state.tasks) w lines lines }
    ensures counts { (x : Setup) (w : Standing S) (m : Moment) (lines : List Line) → Stands (λ s. S.view s) (λ s. S.device s) x w m → next_task m.state ≡ Some CountsCommits
        → IsStepTo (λ s. S.view s) (λ s. S.device s) x m (drop 1 m.state.tasks) w lines (lines ++ record { when = when_of m.state; text = says.Commits w.commits } ∷ []) }
{}

/// Where the machine went on, lines stand at the event at which they stood, unless the next one begins.
pub fn the_event_under_way_stays<S: Powered>()
    ensures same { (x : Setup) (m : Moment) (w : Standing S) (lines lines' : List Line) (task : Task) → next_task m.state ≡ Some task → (tasks : List Task)
        (went : WentOn (λ s. S.view s) (λ s. S.device s) x m (tasks ++ drop 1 m.state.tasks) w lines lines') → begun_by task ≡ 0 → begins_in tasks ≡ 0 → when_of went.last.state ≡ when_of m.state }
    ensures next { (x : Setup) (m : Moment) (w : Standing S) (lines lines' : List Line) (event : Event) → next_task m.state ≡ Some (Begins event)
        → (went : WentOn (λ s. S.view s) (λ s. S.device s) x m (Meets event ∷ drop 1 m.state.tasks) w lines lines') → went.last.state.course.world.event ≡ m.state.course.world.event + 1 }
{}

/// Calls of the code one after another: the machine goes on, or the run is cut short.
pub fn calls_go_on_one_after_another<S: Powered>()
    ensures nowhere { (x : Setup) (m : Moment) (w : Standing S) → Stands (λ s. S.view s) (λ s. S.device s) x w m → (lines : List Line) → WentOn (λ s. S.view s) (λ s. S.device s) x m m.state.tasks w lines lines }
    ensures further { (x : Setup) (m : Moment) (rest : List Task) (w : Standing S) (a b c : List Line) (first : WentOn (λ s. S.view s) (λ s. S.device s) x m rest w a b) (less : List Task) (w' : Standing S)
        → WentOn (λ s. S.view s) (λ s. S.device s) x first.last less w' b c → WentOn (λ s. S.view s) (λ s. S.device s) x m less w' a c }
    ensures cut { (x : Setup) (m : Moment) (rest : List Task) (w : Standing S) (a b c : List Line) (first : WentOn (λ s. S.view s) (λ s. S.device s) x m rest w a b) (limit : Limit) → WasCut x first.last limit b c → WasCut x m limit a c }
    ensures cut_leads { (x : Setup) (m : Moment) (limit : Limit) (a b : List Line) (short : WasCut x m limit a b) → Leads x m short.last }
{}
