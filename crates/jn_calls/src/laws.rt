//! What holds of calls of both kinds, for proofs above.

ghost use Rattle.std.specs.Prelude.{◌≡◌, ◌≤◌, ◌+◌, ℕ, List, length};
ghost use Rattle.jn_base.specs.declared.names.FileNo.{FileNo};
ghost use Rattle.jn_base.specs.declared.op.Answer.{Answer};
ghost use Rattle.jn_base.specs.declared.call.ByteCommand.TheVariants.{ReadBytes, WriteBytes};
ghost use Rattle.jn_base.specs.declared.call.NameCommand.{NameCommand};
ghost use Rattle.jn_base.specs.declared.call.Call.{Call};
ghost use Rattle.jn_base.specs.declared.call.Call.TheVariants.{OfBytes, OfNames};
ghost use Rattle.jn_base.specs.Limits.{most_bytes_read};
ghost use Rattle.jn_base.specs.Ops.{BlockInRange};
ghost use Rattle.jn_order.specs.Files.{Files};
ghost use Rattle.jn_order.specs.Changes.{files_then};
ghost use Rattle.jn_order.specs.Answers.{Answered, ops_of, FilesAnswer};
ghost use Rattle.jn_calls.specs.declared.reply.Reply.{Reply};
ghost use Rattle.jn_calls.specs.declared.reply.Wish.TheVariants as wishes;
ghost use Rattle.jn_calls.specs.declared.state.CallState.{CallState};
ghost use Rattle.jn_calls.specs.Calls.{reply_to, files_by, Fits};
ghost use Rattle.jn_calls.specs.Turns.{begun, first_op, turn, left, left_from, IsExchange, StateFits, TurnFits};

/// Operations that files answer one after another, and that are a call's, do and are answered what the call is on these
/// files.
pub fn an_exchange_is_its_call()
    ensures { (call : Call) (files : Files) (os : List Answered) (reply : Reply) → Fits call → FilesAnswer files os → IsExchange call os reply
        → (reply ≡ reply_to (wishes.Call call) files) × (files_then (ops_of os) files ≡ files_by (wishes.Call call) files) }
{}

/// Whatever its operations are answered, each answer leaves a call fewer to ask. Behind its first one a read of at most
/// 4,480 bytes asks 11 of them at most, a write 5, and a call on names 31.
pub fn a_turn_leaves_fewer()
    ensures falls { (state : CallState) (answer : Answer) → left_from (turn state answer) ≤ left state }
    ensures few { (call : Call) (os : List Answered) (reply : Reply) → IsExchange call os reply → length os ≤ 1 + left (begun call) }
    ensures reads { (f : FileNo) (offset count : ℕ) → count ≤ most_bytes_read → left (begun (OfBytes (ReadBytes f offset count))) ≤ 11 }
    ensures writes { (f : FileNo) (offset : ℕ) (bytes : List ℕ) → left (begun (OfBytes (WriteBytes f offset bytes))) ≤ 5 }
    ensures names { (command : NameCommand) → left (begun (OfNames command)) ≤ 31 }
{}

/// Each operation that a call asks for is of a block that a file can have.
pub fn operations_of_calls_are_in_range()
    ensures begins { (call : Call) → Fits call → BlockInRange (first_op call) × StateFits (begun call) }
    ensures goes_on { (state : CallState) (answer : Answer) → StateFits state → TurnFits (turn state answer) }
{}
