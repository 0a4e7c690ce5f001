//! Steps of servers.

ghost use Rattle.std.specs.Prelude.{◌≡◌, ◌<◌, ◌++◌, ℕ, Bool, false, List, [], ◌∷◌, length, drop, slice_get, slice_set, Option, Some, None};
ghost use Rattle.jn_base.specs.declared.names.ServerNo.{ServerNo};
ghost use Rattle.jn_base.specs.declared.names.Tid.{Tid};
ghost use Rattle.jn_base.specs.declared.names.Party.TheVariants.{Server};
ghost use Rattle.jn_msgs.specs.Collected.{Collected};
ghost use Rattle.jn_net.specs.declared.Sent.{Sent as Posted};
ghost use Rattle.jn_net.specs.Carried.{with_delivered};
ghost use Rattle.jn_place.specs.declared.place.Place.{Place};
ghost use Rattle.jn_place.specs.declared.place.Slot.{Slot};
ghost use Rattle.jn_place.specs.declared.place.Slot.TheVariants.{Down};
ghost use Rattle.jn_place.specs.Exact.{Took, WorkedBy, AsksAgain, TimedOut, has_work_at, WhereUp, TakeLeaves, WorkLeaves};
ghost use Rattle.jn_recovery.specs.Counts.{counts_by};
ghost use Rattle.jn_report.specs.declared.line.Text.TheVariants as says;
ghost use Rattle.jn_report.specs.declared.line.Line.{Line};
ghost use Rattle.jn_schedule.specs.declared.Event.TheVariants as events;
ghost use Rattle.jn_machine.specs.Chances.{Setup};
ghost use Rattle.jn_machine.specs.Runs.{Moment};
ghost use Rattle.jn_report.specs.Lines.{lines_at};
ghost use Rattle.jn_machine.specs.Tasks.{Task, when_of};
ghost use Rattle.jn_world_refines.specs.Stands.{Standing, Stands, texts_sent, with_answer};
ghost use Rattle.jn_world_refines.specs.Pages.{HasCounts, ReadsPages};
ghost use Rattle.jn_world_refines.specs.Going.{ActsNext, IsStepTo};

use jn_store::Powered;

/// A server that is up takes a message: it is done, or the server is stopped.
pub fn a_message_at_a_server_is_a_step<S: Powered>()
    ensures { (x : Setup) (w : Standing S) (m : Moment) → Stands (λ s. S.view s) (λ s. S.device s) x w m
        → (k : ℕ) (one : Posted) → slice_get w.net.sent k ≡ Some one → (q : ServerNo) → one.to ≡ Server q
        → (place : Place S) → slice_get w.places q.0 ≡ Some place → ReadsPages (λ s. S.view s) (λ s. S.device s) (counts_by place.counts) place.slot
        → (more : List Task) → ActsNext x m (events.Deliver k) more
        → (answer : Option Collected) (slot : Slot S) (told : List Line) → Took (λ s. S.view s) (λ s. S.device s) q (counts_by place.counts) (when_of m.state) one.message place.slot answer slot [] told
        → HasCounts (λ s. S.view s) q (counts_by place.counts) slot → WhereUp (λ s. S.view s) (TakeLeaves one.message) place.slot slot → (lines : List Line)
        → IsStepTo (λ s. S.view s) (λ s. S.device s) x m (more ++ drop 1 m.state.tasks)
        (with_answer q (Some k) answer (record w { places = slice_set w.places q.0 (record place { slot = slot }); net = record w.net { sent = with_delivered k w.net.sent } }))
        lines (lines ++ told ++ lines_at (when_of m.state) (texts_sent q (Some k) w.trace (length w.net.sent) answer)) }
{}

/// It makes its next background step, or is stopped in it; with nothing to do it does nothing.
pub fn a_background_step_is_a_step<S: Powered>()
    ensures works { (x : Setup) (w : Standing S) (m : Moment) → Stands (λ s. S.view s) (λ s. S.device s) x w m
        → (q : ServerNo) (place : Place S) → slice_get w.places q.0 ≡ Some place → ReadsPages (λ s. S.view s) (λ s. S.device s) (counts_by place.counts) place.slot
        → (more : List Task) → ActsNext x m (events.Step q) more
        → (answer : Option Collected) (slot : Slot S) (told : List Line) → WorkedBy (λ s. S.view s) (λ s. S.device s) q (counts_by place.counts) (when_of m.state) place.slot answer slot [] told
        → HasCounts (λ s. S.view s) q (counts_by place.counts) slot → WhereUp (λ s. S.view s) WorkLeaves place.slot slot → (lines : List Line)
        → IsStepTo (λ s. S.view s) (λ s. S.device s) x m (more ++ drop 1 m.state.tasks)
        (with_answer q None answer (record w { places = slice_set w.places q.0 (record place { slot = slot }) }))
        lines (lines ++ told ++ lines_at (when_of m.state) (texts_sent q None w.trace (length w.net.sent) answer)) }
    ensures idle { (x : Setup) (w : Standing S) (m : Moment) → Stands (λ s. S.view s) (λ s. S.device s) x w m
        → (q : ServerNo) (place : Place S) → slice_get w.places q.0 ≡ Some place → ReadsPages (λ s. S.view s) (λ s. S.device s) (counts_by place.counts) place.slot
        → (more : List Task) → ActsNext x m (events.Step q) more → has_work_at (λ s. S.view s) place.slot ≡ false → (lines : List Line)
        → IsStepTo (λ s. S.view s) (λ s. S.device s) x m (more ++ drop 1 m.state.tasks) w lines lines }
{}

/// A server that is down loses a message. There is none for a server that isn't there.
pub fn a_message_that_is_lost_is_a_step<S: Powered>()
    ensures lost { (x : Setup) (w : Standing S) (m : Moment) → Stands (λ s. S.view s) (λ s. S.device s) x w m
        → (k : ℕ) (one : Posted) → slice_get w.net.sent k ≡ Some one → (q : ServerNo) → one.to ≡ Server q
        → (place : Place S) (s : S) → slice_get w.places q.0 ≡ Some place → place.slot ≡ Down s
        → (more : List Task) → ActsNext x m (events.Deliver k) more → (lines : List Line)
        → IsStepTo (λ s. S.view s) (λ s. S.device s) x m (more ++ drop 1 m.state.tasks) (record w { net = record w.net { sent = with_delivered k w.net.sent } })
        lines (lines ++ lines_at (when_of m.state) (says.Lost k ∷ [])) }
    ensures there { (x : Setup) (w : Standing S) (m : Moment) → Stands (λ s. S.view s) (λ s. S.device s) x w m
        → (k : ℕ) (one : Posted) → slice_get w.net.sent k ≡ Some one → (q : ServerNo) → one.to ≡ Server q → q.0 < length w.places }
{}

/// A server that is up sends again what waits for an answer; one that is down sends nothing.
pub fn a_nudge_is_a_step<S: Powered>()
    ensures up { (x : Setup) (w : Standing S) (m : Moment) → Stands (λ s. S.view s) (λ s. S.device s) x w m
        → (q : ServerNo) (place : Place S) → slice_get w.places q.0 ≡ Some place
        → (more : List Task) → ActsNext x m (events.Nudge q) more → (out : Collected) → AsksAgain (λ s. S.view s) place.slot out → (lines : List Line)
        → IsStepTo (λ s. S.view s) (λ s. S.device s) x m (more ++ drop 1 m.state.tasks) (with_answer q None (Some out) w)
        lines (lines ++ lines_at (when_of m.state) (texts_sent q None w.trace (length w.net.sent) (Some out))) }
    ensures down { (x : Setup) (w : Standing S) (m : Moment) → Stands (λ s. S.view s) (λ s. S.device s) x w m
        → (q : ServerNo) (place : Place S) → slice_get w.places q.0 ≡ Some place → (s : S) → place.slot ≡ Down s
        → (more : List Task) → ActsNext x m (events.Nudge q) more → (lines : List Line)
        → IsStepTo (λ s. S.view s) (λ s. S.device s) x m (more ++ drop 1 m.state.tasks) w lines lines }
{}

/// A work of the transaction may be broken from now on.
pub fn a_timeout_is_a_step<S: Powered>()
    ensures { (x : Setup) (w : Standing S) (m : Moment) → Stands (λ s. S.view s) (λ s. S.device s) x w m
        → (q : ServerNo) (place : Place S) → slice_get w.places q.0 ≡ Some place
        → (T : Tid) (more : List Task) → ActsNext x m (events.Timeout q T) more
        → (answer : Bool) (slot : Slot S) → TimedOut (λ s. S.view s) T place.slot answer slot → HasCounts (λ s. S.view s) q (counts_by place.counts) slot → (lines : List Line)
        → IsStepTo (λ s. S.view s) (λ s. S.device s) x m (more ++ drop 1 m.state.tasks) (record w { places = slice_set w.places q.0 (record place { slot = slot }) }) lines lines }
{}
