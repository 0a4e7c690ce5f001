//! Operations and calls done one after another, and whether they are replied as reported.

ghost use Rattle.std.specs.Prelude.{◌≡◌, ◌↔◌, true, IfOk, OnOk, IsTrue};
ghost use Rattle.jn_order.specs.Files.{answer_to, all_files_after};
ghost use Rattle.jn_calls.specs.declared.reply.Wish.TheVariants as wishes;
ghost use Rattle.jn_calls.specs.Calls.{reply_to};
ghost use Rattle.jn_calls.specs.Turns.{given, turn};
ghost use Rattle.jn_replay.specs.Replies.{all_files_by, files_by_all, GivesReplies, call_fits, wish_fits, CallsFit};
ghost use Rattle.jn_replay.specs.Stored.{files_of, AreSame};

use crate::comparing::is_same_reply;
use crate::files::Files;
use crate::perform::do_op;
use crate::replied::Replied;
use jn_base::{Call, Op, ServerNo};
use jn_calls::{CallNext, CallState, Reply, Wish, first_op};
use std::alloc::{AllocError, Global};

/// Does the operation that a call asks, and says what comes of its answer.
fn do_turn(
    alloc: Global,
    files: &mut Files,
    server: ServerNo,
    state: &mut CallState,
    op: &Op,
) -> Result<CallNext, AllocError>
    ensures turn { IfOk result (λ next. (next, state.new) ≡ given state.old (turn state.old (answer_to op.now (files_of files.old server)))) }
    ensures after { OnOk result (AreSame (files_of files.new) (all_files_after server op.now (files_of files.old))) }
{
    let answer = do_op(alloc, files, server, op)?;
    state.next(alloc, &answer)
}

/// Does a call at a server, operation by operation, and replies to it.
pub fn do_call(
    alloc: Global,
    files: &mut Files,
    server: ServerNo,
    call: &Call,
) -> Result<Reply, AllocError>
    requires { call_fits call.now ≡ true }
    ensures reply { IfOk result (λ reply. reply ≡ reply_to (wishes.Call call.now) (files_of files.old server)) }
    ensures after { OnOk result
        (AreSame (files_of files.new) (all_files_by server (wishes.Call call.now) (files_of files.old))) }
{
    let mut state = CallState::begin(alloc, call)?;
    let mut op = first_op(call);
    'turns: loop {
        match do_turn(alloc, files, server, &mut state, &op)? {
            CallNext::Send(next) => op = next,
            CallNext::Over(reply) => return Ok(reply),
        }
    }
}

/// Does what is wished of a server, and replies to it.
pub fn do_wish(
    alloc: Global,
    files: &mut Files,
    server: ServerNo,
    wish: &Wish,
) -> Result<Reply, AllocError>
    requires { wish_fits wish.now ≡ true }
    ensures reply { IfOk result (λ reply. reply ≡ reply_to wish.now (files_of files.old server)) }
    ensures after { OnOk result
        (AreSame (files_of files.new) (all_files_by server wish.now (files_of files.old))) }
{
    match wish {
        Wish::Operation(op) => Ok(Reply::Answered(do_op(alloc, files, server, op)?)),
        Wish::Call(call) => do_call(alloc, files, server, call),
    }
}

/// Does what was wished, one after another, whatever it is replied.
pub fn do_wishes(alloc: Global, files: &mut Files, replied: &[Replied]) -> Result<(), AllocError>
    requires { CallsFit replied.now }
    ensures { OnOk result (AreSame (files_of files.new) (files_by_all replied.now (files_of files.old))) }
{
    for r in replied {
        do_wish(alloc, files, r.server, &r.wish)?;
    }
    Ok(())
}

/// Does what was wished, one after another, until the files give another reply than the one reported.
pub fn gives_replies(
    alloc: Global,
    files: &mut Files,
    replied: &[Replied],
) -> Result<bool, AllocError>
    requires { CallsFit replied.now }
    ensures replies { IfOk result (λ b. IsTrue b ↔ GivesReplies (files_of files.old) replied.now) }
    ensures after { IfOk result (λ b. b ≡ true
        → AreSame (files_of files.new) (files_by_all replied.now (files_of files.old))) }
{
    for r in replied {
        let reply = do_wish(alloc, files, r.server, &r.wish)?;
        if !is_same_reply(&reply, &r.reply) {
            return Ok(false);
        }
    }
    Ok(true)
}
