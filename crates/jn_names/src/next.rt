//! What comes of calls on directories.

use crate::entry::Entries;
use jn_base::{Answer, Op};

/// Why a call isn't done.
#[derive(Drop)]
pub enum NameRefusal {
    /// An operation was refused: its answer.
    Operation(Answer),
    /// A bind's name isn't there, and its bucket has six others.
    BucketFull,
    /// The name isn't there.
    NoName,
    /// A block that was read isn't a bucket.
    NotDirectory,
}

/// What comes next of a call: an operation that is to be done, or how it ends.
#[derive(Drop)]
pub enum NameNext {
    Send(Op),
    Did,
    Found(u32),
    /// In the order of the names' bytes.
    Names(Entries),
    Refused(NameRefusal),
}
