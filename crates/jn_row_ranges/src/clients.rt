//! A client's rows.

ghost use Rattle.std.specs.Prelude.{◌≡◌, ◌≤◌, ℕ};
ghost use Rattle.jn_base.specs.declared.names.ClientNo.{ClientNo};
ghost use Rattle.jn_base.specs.declared.op.Command.{Command};
ghost use Rattle.jn_msgs.specs.declared.message.Message.{Message};
ghost use Rattle.jn_schedule.specs.declared.Event.TheVariants as events;
ghost use Rattle.jn_schedule.specs.Ranges.{EventInRange};
ghost use Rattle.jn_rows.specs.Client.{ClientTable, new_table, command_row, take_row, over};
ghost use Rattle.jn_row_ranges.specs.Taking.{ClientFits, CommandFits, AllCanBeTaken, sent_for};
ghost use Rattle.jn_base.specs.Ops.{CommandInRange};
ghost use Rattle.jn_row_ranges.specs.Drawing.{DrawsOne};

/// A client's table fits from the first one on, after each command whose operation is in range, after each message, and once
/// the client is dismissed. What it sends can be taken.
pub fn a_client_fits()
    ensures first { (c : ClientNo) (servers : ℕ) → servers ≤ 8 → ClientFits (new_table c servers) }
    ensures commands { (t : ClientTable) (j : ℕ) (command : Command) → ClientFits t → CommandInRange command → CommandFits (command_row t j command) }
    ensures messages { (t : ClientTable) (message : Message) → ClientFits t → ClientFits (take_row t message).0 × AllCanBeTaken (sent_for (take_row t message).1) }
    ensures dismissed { (t : ClientTable) → ClientFits t → ClientFits (over t) }
{}

/// A client's next request rises by one with each command that is sent, and by nothing else.
pub fn a_number_goes_with_a_message()
    ensures commands { (t : ClientTable) (j : ℕ) (command : Command) → DrawsOne t (command_row t j command) }
    ensures messages { (t : ClientTable) (message : Message) → (take_row t message).0.next ≡ t.next }
{}

/// The operation of a schedule's command is in range.
pub fn a_scheduled_command_is_in_range()
    ensures { (c : ClientNo) (command : Command) → EventInRange (events.Command c command) → CommandInRange command }
{}
