//! What is named stays at so many servers: row by row, and in every run.

ghost use Rattle.std.specs.Prelude.{◌≡◌, ℕ, true, List, take, Some};
ghost use Rattle.jn_base.specs.declared.names.ClientNo.{ClientNo};
ghost use Rattle.jn_base.specs.declared.names.ServerNo.{ServerNo};
ghost use Rattle.jn_base.specs.declared.names.Tid.{Tid};
ghost use Rattle.jn_base.specs.declared.names.WorkId.{WorkId};
ghost use Rattle.jn_base.specs.declared.op.Command.{Command};
ghost use Rattle.jn_msgs.specs.declared.message.Message.{Message};
ghost use Rattle.jn_rows.specs.Client.{ClientTable, new_table, command_row, take_row, over};
ghost use Rattle.jn_rows.specs.Coordinator.{close_clients_row};
ghost use Rattle.jn_rows.specs.Outcomes.{RowOutcome};
ghost use Rattle.jn_rows.specs.Stable.{StableState, Change, made_all};
ghost use Rattle.jn_system.specs.WholeSystem.Servers.{Room, server_row, server_step, server_again, server_timeout, of_coordinator, restored};
ghost use Rattle.jn_system.specs.WholeSystem.World.{Memory};
ghost use Rattle.jn_msgs.specs.Ranges.{is_near, names_near};
ghost use Rattle.jn_row_ranges.specs.Naming.{are_within, are_changes_within, ClientWithin, CommandWithin, StateWithin};
ghost use Rattle.jn_row_ranges.specs.Taking.{sent_for};
ghost use Rattle.jn_row_ranges.specs.Within.{MemoryWithin, RowWithin};

/// A client of so many servers names no other: in its first table, with a command, with a message that names no other, and
/// once it is dismissed.
pub fn a_client_names_servers_that_there_are()
    ensures first { (n : ℕ) (c : ClientNo) → ClientWithin n (new_table c n) }
    ensures commands { (n : ℕ) (t : ClientTable) (j : ℕ) (command : Command) → ClientWithin n t → CommandWithin n (command_row t j command) }
    ensures messages { (n : ℕ) (t : ClientTable) (message : Message) → ClientWithin n t → names_near n message ≡ true → ClientWithin n (take_row t message).0 × (are_within n (sent_for (take_row t message).1) ≡ true) }
    ensures dismissed { (n : ℕ) (t : ClientTable) → ClientWithin n t → ClientWithin n (over t) }
{}

/// One of so many servers names no other, in what it keeps in memory, in what it makes stable and in what it sends.
pub fn a_server_names_servers_that_there_are()
    ensures row { (n : ℕ) (s : ServerNo) (m : Memory) → MemoryWithin n s m → (x : StableState) (room : Room) (message : Message) → is_near n s ≡ true → names_near n message ≡ true → RowWithin n s (server_row m x room message) }
    ensures step { (n : ℕ) (s : ServerNo) (m : Memory) → MemoryWithin n s m → (x : StableState) (room : Room) (row : RowOutcome Memory) → server_step m x room ≡ Some row → RowWithin n s row }
    ensures again { (n : ℕ) (s : ServerNo) (m : Memory) → MemoryWithin n s m → (x : StableState) → are_within n (server_again m x) ≡ true }
    ensures timeout { (n : ℕ) (s : ServerNo) (m : Memory) → MemoryWithin n s m → (T : Tid) → MemoryWithin n s (server_timeout m T) }
    ensures close { (n : ℕ) (s : ServerNo) (m : Memory) → MemoryWithin n s m → RowWithin n s (of_coordinator m (close_clients_row m.coordinator m.tickets)) }
{}

/// So does what is stable: after each of such changes, and in what a restart makes of it.
pub fn what_is_stable_names_servers_that_there_are()
    ensures changes { (n k : ℕ) (changes : List Change) (x : StableState) → are_changes_within n changes ≡ true → StateWithin n x → StateWithin n (made_all (take k changes) x) }
    ensures all_changes { (n : ℕ) (changes : List Change) (x : StableState) → are_changes_within n changes ≡ true → StateWithin n x → StateWithin n (made_all changes x) }
    ensures restarts { (n : ℕ) (s : ServerNo) (x : StableState) (works : List WorkId) (tids : List Tid) → StateWithin n x → MemoryWithin n s (restored s x works tids) }
{}
