//! What clients wish of files, and what they are replied.

use jn_base::{Answer, Call, Op};
use jn_bytes::Next;
use jn_names::NameNext;

/// What a client wishes of the files of one server.
#[derive(Drop)]
pub enum Wish {
    Operation(Op),
    Call(Call),
}

/// What a wish is replied.
#[derive(Drop)]
pub enum Reply {
    /// An operation's answer.
    Answered(Answer),
    /// How a call on bytes ends.
    OfBytes(Next),
    /// How a call on names ends.
    OfNames(NameNext),
}

/// What comes next of a call: an operation that is to be done, or how it ends.
#[derive(Drop)]
pub enum CallNext {
    Send(Op),
    Over(Reply),
}
