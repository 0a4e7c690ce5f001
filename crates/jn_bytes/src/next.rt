//! What a call does next, and why it is refused.

use crate::gathered::Gathered;
use jn_base::{Answer, Op};

/// What a call does next.
#[derive(Drop)]
pub enum Next {
    /// It asks this operation, and waits for its answer.
    Send(Op),
    /// A read is over, with these bytes.
    Done(Gathered),
    /// A write is over.
    Did,
    /// It is over, and did nothing but the operations that it asked so far.
    Refused(ByteRefusal),
}

/// Why a call is refused.
#[derive(Drop)]
pub enum ByteRefusal {
    /// An operation was answered so.
    Operation(Answer),
    /// Block 0 of the file isn't that of a file of bytes.
    NotBytes,
    /// A write begins behind the last byte; there are so many.
    PastEnd(u32),
}
