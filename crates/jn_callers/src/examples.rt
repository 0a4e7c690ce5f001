//! Rows of one client: each follows by computing it.

ghost use Rattle.std.specs.Prelude.{◌≡◌, true, false, [], ◌∷◌};
ghost use Rattle.jn_base.specs.declared.names.Party.TheVariants.{Server};
ghost use Rattle.jn_base.specs.declared.op.Answer.TheVariants as answers;
ghost use Rattle.jn_base.specs.declared.op.Command.TheVariants.{Begin, Open, End, Abort};
ghost use Rattle.jn_base.specs.declared.call.Call.TheVariants.{OfBytes};
ghost use Rattle.jn_base.specs.Names.{request_of};
ghost use Rattle.jn_msgs.specs.declared.message.Message.TheVariants as messages;
ghost use Rattle.jn_report.specs.declared.line.Refusal.TheVariants as refusals;
ghost use Rattle.jn_rows.specs.Examples.{client};
ghost use Rattle.jn_bytes.specs.declared.next.Next.TheVariants as replies;
ghost use Rattle.jn_bytes.specs.declared.next.ByteRefusal.TheVariants.{Operation};
ghost use Rattle.jn_bytes.specs.declared.stage.Stage.TheVariants as stages;
ghost use Rattle.jn_calls.specs.declared.order.Order.TheVariants as orders;
ghost use Rattle.jn_callers.specs.declared.taken.Taken.TheVariants.{Ignored, Send, Last};
ghost use Rattle.jn_callers.specs.Callers.{order_row, take_call_row, Refused};
ghost use Rattle.jn_callers.specs.Laws.{IsCaller, is_ordered};
ghost use Rattle.jn_callers.specs.Examples.{server, idle_caller, in_call, in_call_on, asking, first_byte, too_far, put_byte, put_length};

/// In a spoiled transaction nothing but an abort is done. A server that isn't there and a second begin are told before that, and
/// that a server is open, or isn't, or that a write is too far, is not.
pub fn a_spoiled_transaction_refuses_orders()
    ensures far_server { order_row (idle_caller true) 8 (orders.Command (Open (server 2))) ≡ Refused refusals.NoSuchServer }
    ensures second { order_row (idle_caller true) 8 (orders.Command (Begin (server 0))) ≡ Refused refusals.HasTransaction }
    ensures opened { order_row (idle_caller true) 8 (orders.Command (Open (server 0))) ≡ Refused refusals.Spoiled }
    ensures not_open { order_row (idle_caller true) 8 (orders.Call (server 1) (OfBytes first_byte)) ≡ Refused refusals.Spoiled }
    ensures far { order_row (idle_caller true) 8 (orders.Call (server 0) too_far) ≡ Refused refusals.Spoiled }
    ensures ends { order_row (idle_caller true) 8 (orders.Command End) ≡ Refused refusals.Spoiled }
    ensures aborts { is_ordered (order_row (idle_caller true) 8 (orders.Command Abort)) ≡ true }
{}

/// That a write would pass the last place is told last.
pub fn a_write_is_too_far()
    ensures far { order_row (idle_caller false) 8 (orders.Call (server 0) too_far) ≡ Refused refusals.TooFar }
    ensures not_open { order_row (idle_caller false) 8 (orders.Call (server 1) too_far) ≡ Refused refusals.NotOpen }
    ensures within { is_ordered (order_row (idle_caller false) 8 (orders.Call (server 0) (OfBytes first_byte))) ≡ true }
{}

/// A client in a call takes the answer to its operation alone. It asks the next one at once, and where the call is over it waits
/// for nothing; refused behind a write of its own, it leaves the transaction spoiled.
pub fn a_call_takes_its_answers()
    ensures is_one { IsCaller (in_call put_byte (stages.Write (put_length ∷ [])) false) }
    ensures next { take_call_row (in_call put_byte (stages.Write (put_length ∷ [])) false) (messages.Answer client (request_of 4) answers.Did)
        ≡ (in_call_on put_length (stages.Write []) true, Send (Server (server 0)) (asking 5 4 put_length)) }
    ensures late { take_call_row (in_call put_byte (stages.Write (put_length ∷ [])) false) (messages.Answer client (request_of 3) answers.Did)
        ≡ (in_call put_byte (stages.Write (put_length ∷ [])) false, Ignored) }
    ensures over { take_call_row (in_call put_length (stages.Write []) true) (messages.Answer client (request_of 4) answers.Did) ≡ (idle_caller false, Last 7 replies.Did) }
    ensures spoils { take_call_row (in_call put_length (stages.Write []) true) (messages.Answer client (request_of 4) answers.TooManyWrites)
        ≡ (idle_caller true, Last 7 (replies.Refused (Operation answers.TooManyWrites))) }
    ensures whole { take_call_row (in_call put_byte (stages.Write (put_length ∷ [])) false) (messages.Answer client (request_of 4) answers.TooManyWrites)
        ≡ (idle_caller false, Last 7 (replies.Refused (Operation answers.TooManyWrites))) }
    // It is told nothing else meanwhile.
    ensures busy { order_row (in_call put_byte (stages.Write []) false) 8 (orders.Command End) ≡ Refused refusals.ClientBusy }
{}
