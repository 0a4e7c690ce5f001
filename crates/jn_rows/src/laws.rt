//! What holds of a client's table from the first one on, whatever it is told, and what a stop leaves of changes.

ghost use Rattle.std.specs.Prelude.{◌≡◌, ◌⊎◌, ◌≤◌, ℕ, false, List, [], ◌∷◌, length, take, None};
ghost use Rattle.std.specs.List.{list_any};
ghost use Rattle.jn_base.specs.declared.names.ClientNo.{ClientNo};
ghost use Rattle.jn_base.specs.declared.names.LockUnit.{LockUnit};
ghost use Rattle.jn_base.specs.declared.op.Command.{Command};
ghost use Rattle.jn_msgs.specs.declared.message.Message.{Message};
ghost use Rattle.jn_rows.specs.Client.{ClientTable, new_table, command_row, take_row, names_of};
ghost use Rattle.jn_rows.specs.ClientLaws.{IsClient, after_command};
ghost use Rattle.jn_rows.specs.Stable.{Change, IsStopState, Left, StableState, carries_cut, left_of, made_all, made_by};

/// Its works stand at different servers: in the first table, and after each command and each message.
#[tactic(auto, using(crate::proofs::ClientKeeps::command_keeps))]
pub fn a_clients_works_stand_apart()
    ensures first { (c : ClientNo) (servers : ℕ) → IsClient (new_table c servers) }
    ensures commands { (t : ClientTable) (j : ℕ) (c : Command) → IsClient t → IsClient (after_command (command_row t j c) t) }
    ensures messages { (t : ClientTable) (m : Message) → IsClient t → IsClient (take_row t m).0 }
{}

/// So an end names no more works than there are servers.
#[tactic(auto, using(crate::proofs::ClientKeeps::names_are_few))]
pub fn a_client_has_few_works()
    ensures { (t : ClientTable) → IsClient t → length (names_of t.works) ≤ t.servers }
{}

/// What a stop leaves of changes that carry out no cut is the state after a prefix of them, each made whole. So one such
/// change is made whole or not at all. Of a cut some blocks may be gone: each register is as after whole changes, or gone.
pub fn only_a_cut_is_found_in_part()
    ensures several { (x : StableState) (changes : List Change) (y : StableState) → list_any carries_cut changes ≡ false → IsStopState x changes y → (n : ℕ) × (y ≡ made_all (take n changes) x) }
    ensures one { (x : StableState) (change : Change) (y : StableState) → carries_cut change ≡ false → IsStopState x (change ∷ []) y → (y ≡ x) ⊎ (y ≡ made_by change x) }
    ensures part { (l : Left) (changes : List Change) (x : StableState) (u : LockUnit) → ((left_of l changes x).files u ≡ (made_all (take l.whole changes) x).files u) ⊎ ((left_of l changes x).files u ≡ None) }
{}
