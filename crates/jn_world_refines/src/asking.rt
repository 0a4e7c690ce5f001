//! Steps of clients.

ghost use Rattle.std.specs.Prelude.{◌≡◌, ◌++◌, ◌-◌, ℕ, true, false, List, length, drop, slice_get, Some};
ghost use Rattle.jn_base.specs.declared.names.ClientNo.{ClientNo};
ghost use Rattle.jn_base.specs.declared.names.Party.TheVariants.{Client};
ghost use Rattle.jn_base.specs.declared.op.Command.{Command};
ghost use Rattle.jn_net.specs.declared.Sent.{Sent as Posted};
ghost use Rattle.jn_net.specs.Carried.{with_delivered};
ghost use Rattle.jn_system.specs.WholeSystem.Steps.{sent_now};
ghost use Rattle.jn_report.specs.declared.line.Line.{Line};
ghost use Rattle.jn_rows.specs.Client.{ClientTable, new_table, Commanded, command_row, take_row, again_row};
ghost use Rattle.jn_schedule.specs.declared.Event.TheVariants as events;
ghost use Rattle.jn_row_ranges.specs.Taking.{sent_for};
ghost use Rattle.jn_machine.specs.Chances.{Setup};
ghost use Rattle.jn_machine.specs.Runs.{Moment};
ghost use Rattle.jn_machine.specs.Steps.{message_texts, traced};
ghost use Rattle.jn_report.specs.Lines.{lines_at};
ghost use Rattle.jn_machine.specs.Tasks.{Task, when_of};
ghost use Rattle.jn_world_refines.specs.Stands.{Standing, is_client_number, Stands, posted_by, with_sent};
ghost use Rattle.jn_machine.specs.Deeds.{texts_taken, texts_commanded};
ghost use Rattle.jn_world_refines.specs.Clients.{with_client, sent_commanded};
ghost use Rattle.jn_rows.specs.ClientLaws.{after_command};
ghost use Rattle.jn_world_refines.specs.Going.{ActsNext, IsStepTo};

use jn_store::Powered;

/// One of the eight clients takes a message; another client is as new, and stays so.
pub fn a_message_at_a_client_is_a_step<S: Powered>()
    ensures own { (x : Setup) (w : Standing S) (m : Moment) → Stands (λ s. S.view s) (λ s. S.device s) x w m
        → (k : ℕ) (one : Posted) → slice_get w.net.sent k ≡ Some one → (c : ClientNo) → one.to ≡ Client c
        → is_client_number c.0 ≡ true → (t : ClientTable) → slice_get w.clients (c.0 - 1) ≡ Some t
        → (more : List Task) → ActsNext x m (events.Deliver k) more → (lines : List Line)
        → IsStepTo (λ s. S.view s) (λ s. S.device s) x m (more ++ drop 1 m.state.tasks)
        (with_sent (posted_by (Client c) (sent_for (take_row t one.message).1)) (with_client c (take_row t one.message).0 (record w { net = record w.net { sent = with_delivered k w.net.sent } })))
        lines (lines ++ lines_at (when_of m.state) (texts_taken k (take_row t one.message).1 ++ traced w.trace (message_texts (Client c) (length w.net.sent) (sent_for (take_row t one.message).1)))) }
    ensures other { (x : Setup) (w : Standing S) (m : Moment) → Stands (λ s. S.view s) (λ s. S.device s) x w m
        → (k : ℕ) (one : Posted) → slice_get w.net.sent k ≡ Some one → (c : ClientNo) → one.to ≡ Client c
        → is_client_number c.0 ≡ false → (more : List Task) → ActsNext x m (events.Deliver k) more → (lines : List Line)
        → IsStepTo (λ s. S.view s) (λ s. S.device s) x m (more ++ drop 1 m.state.tasks)
        (with_sent (posted_by (Client c) (sent_for (take_row (new_table c x.servers) one.message).1)) (record w { net = record w.net { sent = with_delivered k w.net.sent } }))
        lines (lines ++ lines_at (when_of m.state) (texts_taken k (take_row (new_table c x.servers) one.message).1 ++ traced w.trace (message_texts (Client c) (length w.net.sent) (sent_for (take_row (new_table c x.servers) one.message).1)))) }
{}

/// A client is told a command, which is refused with its line or sent; or it sends its outstanding message once more.
pub fn a_command_is_a_step<S: Powered>()
    ensures told { (x : Setup) (w : Standing S) (m : Moment) → Stands (λ s. S.view s) (λ s. S.device s) x w m
        → (c : ClientNo) → is_client_number c.0 ≡ true → (t : ClientTable) → slice_get w.clients (c.0 - 1) ≡ Some t
        → (more : List Task) (command : Command) → ActsNext x m (events.Command c command) more
        → (row : Commanded) → command_row t m.state.course.world.event command ≡ row → (lines : List Line)
        → IsStepTo (λ s. S.view s) (λ s. S.device s) x m (more ++ drop 1 m.state.tasks)
        (with_sent (posted_by (Client c) (sent_commanded row)) (with_client c (after_command row t) w))
        lines (lines ++ lines_at (when_of m.state) (texts_commanded c m.state.course.world.event row ++ traced w.trace (message_texts (Client c) (length w.net.sent) (sent_commanded row)))) }
    ensures again { (x : Setup) (w : Standing S) (m : Moment) → Stands (λ s. S.view s) (λ s. S.device s) x w m
        → (c : ClientNo) → is_client_number c.0 ≡ true → (t : ClientTable) → slice_get w.clients (c.0 - 1) ≡ Some t
        → (more : List Task) → ActsNext x m (events.Again c) more → (lines : List Line)
        → IsStepTo (λ s. S.view s) (λ s. S.device s) x m (more ++ drop 1 m.state.tasks) (with_sent (posted_by (Client c) (sent_now (again_row t))) w)
        lines (lines ++ lines_at (when_of m.state) (traced w.trace (message_texts (Client c) (length w.net.sent) (sent_now (again_row t))))) }
{}
