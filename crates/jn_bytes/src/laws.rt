//! What holds of calls, for proofs above.

ghost use Rattle.std.specs.Prelude.{◌≡◌, ◌≤◌, ℕ, List, length, true};
ghost use Rattle.jn_base.specs.declared.names.FileNo.{FileNo};
ghost use Rattle.jn_base.specs.declared.op.Answer.{Answer};
ghost use Rattle.jn_order.specs.Files.{Files};
ghost use Rattle.jn_order.specs.Answers.{Answered};
ghost use Rattle.jn_base.specs.declared.call.ByteCommand.{ByteCommand};
ghost use Rattle.jn_base.specs.declared.call.ByteCommand.TheVariants.{ReadBytes, WriteBytes};
ghost use Rattle.jn_bytes.specs.declared.next.Next.{Next};
ghost use Rattle.jn_bytes.specs.declared.stage.Stage.{Stage};
ghost use Rattle.jn_bytes.specs.Turns.{first_turn, turn};
ghost use Rattle.jn_bytes.specs.Counting.{left_behind, left_from, most_operations, turn_behind, is_over};
ghost use Rattle.jn_bytes.specs.Exchanges.{IsExchange, ExchangeIsCall, ReadIsOfItsBytes, WriteIsOfItsBytes};

/// The operations of a call, each answered by the files as they are then, do and are answered what the call is.
pub fn an_exchange_is_its_call()
    ensures { (call : ByteCommand) (files : Files) (os : List Answered) (reply : Next) → ExchangeIsCall call files os reply }
{}

/// A write that is done leaves the file's bytes with its own at their place, longer where they pass the end, and all else.
pub fn a_write_is_of_its_bytes()
    ensures { (f : FileNo) (offset : ℕ) (bytes had : List ℕ) (files : Files) → WriteIsOfItsBytes f offset bytes had files }
{}

/// A read gives the file's bytes from its place on, as many as it asks for at most, and changes nothing.
pub fn a_read_is_of_its_bytes()
    ensures { (f : FileNo) (offset count : ℕ) (had : List ℕ) (files : Files) → ReadIsOfItsBytes f offset count had files }
{}

/// A call has its end, whatever its operations are answered: a read of at most 4,480 bytes takes 12 of them at most, and a
/// write 6.
pub fn a_call_has_its_end()
    // Behind so many answers it is over.
    ensures ends { (call : ByteCommand) (answers : List Answer) → most_operations call ≤ length answers → is_over (turn_behind call (first_turn call) answers) ≡ true }
    // So no exchange is longer.
    ensures few { (call : ByteCommand) (os : List Answered) (reply : Next) → IsExchange call os reply → length os ≤ most_operations call }
    // Each answer leaves fewer operations to come.
    ensures falls { (call : ByteCommand) (stage : Stage) (answer : Answer) → left_from call (turn call stage answer) ≤ left_behind call stage }
    ensures reads { (f : FileNo) (offset count : ℕ) → count ≤ 4480 → most_operations (ReadBytes f offset count) ≤ 12 }
    ensures writes { (f : FileNo) (offset : ℕ) (bytes : List ℕ) → most_operations (WriteBytes f offset bytes) ≤ 6 }
{}
