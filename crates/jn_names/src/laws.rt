//! What holds of directories.

ghost use Rattle.std.specs.Prelude.{◌≡◌, ◌≤◌, ◌<◌, ◌^◌, ◌↔◌, ℕ, List, length, slice_get, bytes_eq, true, false, Some, None};
ghost use Rattle.std.specs.List.{list_any};
ghost use Rattle.jn_base.specs.declared.names.FileNo.{FileNo};
ghost use Rattle.jn_base.specs.declared.names.BlockNo.{BlockNo};
ghost use Rattle.jn_base.specs.declared.names.LockUnit.{LockUnit};
ghost use Rattle.jn_base.specs.declared.names.LockUnit.TheVariants.{Block};
ghost use Rattle.jn_base.specs.Names.{unit_eq, is_name};
ghost use Rattle.jn_base.specs.declared.op.Answer.{Answer};
ghost use Rattle.jn_order.specs.Files.{Files};
ghost use Rattle.jn_order.specs.Changes.{files_then};
ghost use Rattle.jn_order.specs.Answers.{Answered, ops_of, FilesAnswer};
ghost use Rattle.jn_base.specs.declared.call.NameCommand.{NameCommand};
ghost use Rattle.jn_base.specs.declared.call.NameCommand.TheVariants as commands;
ghost use Rattle.jn_names.specs.declared.entry.Entry.{Entry};
ghost use Rattle.jn_names.specs.declared.next.NameNext.{NameNext};
ghost use Rattle.jn_names.specs.declared.next.NameNext.TheVariants.{Refused};
ghost use Rattle.jn_names.specs.declared.next.NameRefusal.{NameRefusal};
ghost use Rattle.jn_names.specs.declared.next.NameRefusal.TheVariants.{BucketFull};
ghost use Rattle.jn_names.specs.declared.turn.Stage.{Stage};
ghost use Rattle.jn_names.specs.Names.{bucket_of};
ghost use Rattle.jn_names.specs.Buckets.{Slot, IsBucket, bucket_in, bucket_bytes, bound_in, unbound_in};
ghost use Rattle.jn_names.specs.Calls.{directory_of, name_of, bucket_at, reply_to, files_after_call};
ghost use Rattle.jn_names.specs.Turns.{first_turn, turn, has_written, IsExchange, left_behind, left_from, most_operations, turn_behind, is_over};
ghost use Rattle.jn_names.specs.Maps.{NameMap, names_of, IsOfMap, Fits, IsFull};

/// A call's operations, each answered by the files as they are then, do what the call does and are answered what it is.
pub fn an_exchange_is_its_call()
    ensures { (command : NameCommand) (files : Files) (os : List Answered) (reply : NameNext) → FilesAnswer files os → IsExchange command os reply
        → (reply ≡ reply_to command files) × (files_then (ops_of os) files ≡ files_after_call command files) }
{}

/// A call has its end, whatever its operations are answered: a bind and an unbind take two at most, a find one, and
/// `names` 32.
pub fn a_call_has_its_end()
    // Behind so many answers it is over.
    ensures ends { (command : NameCommand) (answers : List Answer) → most_operations command ≤ length answers → is_over (turn_behind command (first_turn command) answers) ≡ true }
    // So no exchange is longer.
    ensures few { (command : NameCommand) (os : List Answered) (reply : NameNext) → IsExchange command os reply → length os ≤ most_operations command }
    // Each answer leaves fewer operations to come.
    ensures falls { (command : NameCommand) (stage : Stage) (answer : Answer) → left_from command (turn command stage answer) ≤ left_behind command stage }
{}

/// Only a bind or an unbind that is done changes files.
pub fn a_call_that_is_not_done_changes_nothing()
    ensures found { (d : FileNo) (name : List ℕ) (files : Files) → files_after_call (commands.Find d name) files ≡ files }
    ensures listed { (d : FileNo) (files : Files) → files_after_call (commands.Names d) files ≡ files }
    ensures refused { (command : NameCommand) (files : Files) (why : NameRefusal) → reply_to command files ≡ Refused why → files_after_call command files ≡ files }
    // Nor has a call that is refused for a lock, or for any other answer, written anything.
    ensures unwritten { (command : NameCommand) (os : List Answered) (why : NameRefusal) → IsExchange command os (Refused why) → list_any has_written os ≡ false }
{}

/// A block is read as a bucket exactly where it is what that bucket is written as.
pub fn a_bucket_is_read_back()
    ensures { (k : ℕ) (slots : List Slot) (block : List ℕ) → (bucket_in k block ≡ Some slots) ↔ (IsBucket k slots × (block ≡ bucket_bytes slots)) }
{}

/// A bucket with a name more, or one less, is a bucket.
pub fn a_changed_bucket_is_a_bucket()
    ensures bound { (slots now : List Slot) (name : List ℕ) (file : FileNo) → is_name name ≡ true → file.0 < 2 ^ 32 → IsBucket (bucket_of name) slots
        → bound_in name file slots ≡ Some now → IsBucket (bucket_of name) now }
    ensures unbound { (k : ℕ) (slots now : List Slot) (name : List ℕ) → is_name name ≡ true → IsBucket k slots → unbound_in name slots ≡ Some now → IsBucket k now }
{}

/// Where a name is bound or unbound, each entry of another name stays in its place.
pub fn an_entry_keeps_its_place()
    ensures bound { (k place : ℕ) (slots now : List Slot) (name : List ℕ) (file : FileNo) (entry : Entry) → IsBucket k slots → bound_in name file slots ≡ Some now → bytes_eq entry.name name ≡ false
        → slice_get slots place ≡ Some (Some entry) → slice_get now place ≡ Some (Some entry) }
    ensures unbound { (place : ℕ) (slots now : List Slot) (name : List ℕ) (entry : Entry) → unbound_in name slots ≡ Some now → bytes_eq entry.name name ≡ false
        → slice_get slots place ≡ Some (Some entry) → slice_get now place ≡ Some (Some entry) }
{}

/// On a directory each call is that of a map from names to files, but that a bind may find its bucket full.
pub fn names_are_a_map()
    // The map is answered, and it is then that of the directory.
    ensures answers { (command : NameCommand) (files : Files) (names : NameMap) → Fits command → names_of files (directory_of command) ≡ Some names
        → (now : NameMap) × (names_of (files_after_call command files) (directory_of command) ≡ Some now) × IsOfMap command names (reply_to command files) now }
    // A bucket is full exactly where it has six other names.
    ensures full { (d : FileNo) (name : List ℕ) (file : FileNo) (files : Files) (names : NameMap) → is_name name ≡ true → names_of files d ≡ Some names
        → (reply_to (commands.Bind d name file) files ≡ Refused BucketFull) ↔ ((names name ≡ None) × IsFull (bucket_at files d (bucket_of name))) }
    // Nothing changes but the bucket of the name.
    ensures others { (command : NameCommand) (files : Files) (u : LockUnit) → unit_eq (Block (directory_of command) (record { 0 = bucket_of (name_of command) })) u ≡ false
        → files_after_call command files u ≡ files u }
{}
