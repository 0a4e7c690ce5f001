//! The protocol as a machine of small steps, and what holds after any of its runs.
//!
//! This is a machine of its own steps: `specs/Steps.antt` says what they change and `specs/Premises.antt` when each may
//! come. Its stable states and their changes are those of the product, but the program isn't tied to it yet.

ghost use Rattle.std.specs.Prelude.{◌≡◌, ℕ, List, Some, true, false};
ghost use Rattle.jn_base.specs.declared.names.ServerNo.{ServerNo};
ghost use Rattle.jn_base.specs.declared.names.LockUnit.TheVariants.{File};
ghost use Rattle.jn_base.specs.declared.names.Tid.{Tid};
ghost use Rattle.jn_base.specs.declared.names.WorkId.{WorkId};
ghost use Rattle.jn_order.specs.Files.{AllFiles, there};
ghost use Rattle.jn_msgs.specs.declared.message.Message.{Message};
ghost use Rattle.jn_rows.specs.Stable.{Pick};
ghost use Rattle.jn_system.specs.SmallSteps.Steps.{Atom, run, opening_world};
ghost use Rattle.jn_system.specs.SmallSteps.Premises.{MayBegin, MayOpen, MayRun};
ghost use Rattle.jn_system.specs.SmallSteps.Order.{IsInOrder, has_committed};
ghost use Rattle.jn_system.specs.SmallSteps.Messages.{Says};
ghost use Rattle.jn_system.specs.SmallSteps.Example.{example_atoms, example_opening, example_file, example_server, example_transaction};

/// Whatever steps come one after another, stops and restarts among them, the commits are in order: what each committed
/// transaction was answered is what the commits before it left, and each register of each state that may be found at a
/// server is as the commits leave it, unless a prepared work of a committed transaction is still to write it.
pub fn commits_are_in_order()
    ensures { (files : AllFiles) (epochs : ServerNo → ℕ) (atoms : List Atom) → MayRun atoms (opening_world files epochs)
        → IsInOrder files (run atoms (opening_world files epochs)) }
{}

/// What a message says once it says for good, so a message may be lost, repeated or late.
pub fn messages_stay_true()
    ensures { (files : AllFiles) (epochs : ServerNo → ℕ) (atoms more : List Atom) → MayRun atoms (opening_world files epochs)
        → MayRun more (run atoms (opening_world files epochs)) → (m : Message)
        → Says (run atoms (opening_world files epochs)) m → Says (run more (run atoms (opening_world files epochs))) m }
{}

/// A name that a server gives was never given before.
pub fn names_are_given_once()
    ensures tids { (files : AllFiles) (epochs : ServerNo → ℕ) (atoms : List Atom) → MayRun atoms (opening_world files epochs)
        → (T : Tid) → MayBegin (run atoms (opening_world files epochs)) T → (run atoms (opening_world files epochs)).begun T ≡ false }
    ensures works { (files : AllFiles) (epochs : ServerNo → ℕ) (atoms : List Atom) → MayRun atoms (opening_world files epochs)
        → (W : WorkId) (T : Tid) → MayOpen (run atoms (opening_world files epochs)) W T → (run atoms (opening_world files epochs)).opened W ≡ false }
{}

/// The premises of the steps can be met: in this run a server stops while a flag is put, and once more while the work is
/// carried out, and the transaction commits.
pub fn a_commit_outlives_stops()
    ensures may { MayRun example_atoms example_opening }
    ensures commit { has_committed example_transaction (run example_atoms example_opening).history ≡ true }
    ensures file { (c : Pick) → ((run example_atoms example_opening).found example_server c).files (File example_file) ≡ Some there }
{}
