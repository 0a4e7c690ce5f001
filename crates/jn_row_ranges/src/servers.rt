//! A server's rows.

ghost use Rattle.std.specs.Prelude.{◌≡◌, true, false, List, [], Some};
ghost use Rattle.jn_base.specs.declared.names.Tid.{Tid};
ghost use Rattle.jn_msgs.specs.declared.message.Message.{Message};
ghost use Rattle.jn_msgs.specs.Ranges.{is_small};
ghost use Rattle.jn_msgs.specs.Weights.{weight};
ghost use Rattle.jn_rows.specs.Coordinator.{close_clients_row};
ghost use Rattle.jn_rows.specs.Outcomes.{RowOutcome, Sent};
ghost use Rattle.jn_rows.specs.Stable.{StableState};
ghost use Rattle.jn_system.specs.WholeSystem.Servers.{Room, server_row, server_step, server_again, server_timeout, of_coordinator};
ghost use Rattle.jn_system.specs.WholeSystem.World.{Memory};
ghost use Rattle.jn_row_ranges.specs.Taking.{AllCanBeTaken, are_from_server};
ghost use Rattle.jn_row_ranges.specs.Drawing.{AreDrawn, draws};
ghost use Rattle.jn_row_ranges.specs.Sizes.{HasSizes};
ghost use Rattle.jn_row_ranges.specs.Weighing.{Lightens};

/// A server sends no operation, no End and no other request.
pub fn a_server_sends_no_request()
    ensures row { (m : Memory) (x : StableState) (room : Room) (message : Message) → are_from_server (server_row m x room message).messages ≡ true }
    ensures step { (m : Memory) (x : StableState) (room : Room) (row : RowOutcome Memory) → server_step m x room ≡ Some row → are_from_server row.messages ≡ true }
    ensures again { (m : Memory) (x : StableState) → are_from_server (server_again m x) ≡ true }
    ensures close { (m : Memory) → (close_clients_row m.coordinator m.tickets).messages ≡ [] }
{}

/// So what it sends can be taken.
pub fn what_a_server_sends_can_be_taken()
    ensures sent { (sent : List Sent) → are_from_server sent ≡ true → AllCanBeTaken sent }
    ensures row { (m : Memory) (x : StableState) (room : Room) (message : Message) → AllCanBeTaken (server_row m x room message).messages }
    ensures step { (m : Memory) (x : StableState) (room : Room) (row : RowOutcome Memory) → server_step m x room ≡ Some row → AllCanBeTaken row.messages }
    ensures again { (m : Memory) (x : StableState) → AllCanBeTaken (server_again m x) }
{}

/// A server draws a name only with a message that it sends.
pub fn a_name_goes_with_a_message()
    ensures row { (m : Memory) (x : StableState) (room : Room) (message : Message) → AreDrawn m.tickets (server_row m x room message).messages (server_row m x room message).table.tickets }
    ensures step { (m : Memory) (x : StableState) (room : Room) (row : RowOutcome Memory) → server_step m x room ≡ Some row → row.table.tickets ≡ m.tickets }
    ensures timeout { (m : Memory) (T : Tid) → (server_timeout m T).tickets ≡ m.tickets }
    ensures close { (m : Memory) → (of_coordinator m (close_clients_row m.coordinator m.tickets)).table.tickets ≡ m.tickets }
{}

/// And it draws one with a Begin or an Open alone.
pub fn only_a_beginning_draws_a_name()
    ensures { (m : Memory) (x : StableState) (room : Room) (message : Message) → draws message ≡ false → (server_row m x room message).table.tickets ≡ m.tickets }
{}

/// What a server sends for a message, and the works that go then, weigh less than the message and the works that went before.
/// A background step leaves no more than there was.
pub fn a_server_lightens()
    ensures row { (m : Memory) (x : StableState) (room : Room) (message : Message) → HasSizes 8 m x → is_small 8 message ≡ true → Lightens 1 (weight message) m x (server_row m x room message) }
    ensures step { (m : Memory) (x : StableState) (room : Room) (row : RowOutcome Memory) → HasSizes 8 m x → server_step m x room ≡ Some row → Lightens 0 0 m x row }
{}
