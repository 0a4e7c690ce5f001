//! What is asked next, and which answer is waited for then.

use crate::gathered::Gathered;
use crate::next::Next;
use crate::ops::Ops;
use jn_base::{BlockContent, Op};

/// Which answer a call waits for.
#[derive(Drop)]
pub enum Stage {
    /// That of the read of block 0.
    Length,
    /// Of the read of a block of which bytes are wanted: its number, the place of the first of them there, how many are
    /// still wanted, here and behind it, and the bytes so far.
    Block(u16, u16, u16, Gathered),
    /// Of the read of the first block that a write covers in part, with how many bytes the file has.
    First(u32),
    /// Of the read of the second one, with how many bytes the file has and what is to be in the first one.
    Second(u32, BlockContent),
    /// Of a write, behind which these are left.
    Write(Ops),
}

/// What a call does at its begin or at an answer.
#[derive(Drop)]
pub enum Turn {
    /// It asks an operation, and waits.
    Sends(Op, Stage),
    /// It is over.
    Over(Next),
}
