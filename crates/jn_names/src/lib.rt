//! A directory of names in a file: what a call on it is answered and does, and the operations that it takes.
//!
//! A directory is a file whose blocks 0 to 31 are buckets. A bucket has six places of 69 bytes, and 34 zeros behind
//! them. A place has an entry: the length of its name in one byte, the name filled with zeros to 64 bytes, and the
//! file in four bytes, the highest first. A free place is all zeros. A name is 1 to 64 of `a` to `z`, `0` to `9`, `.`,
//! `_` and `-`, and stands in the bucket that is the sum of its bytes modulo 32. A block that isn't stored is a bucket
//! of free places. Nothing else marks a file as a directory.
#![tactic(auto)]

mod bucket;
mod call;
mod entry;
mod laws;
mod name;
mod next;
mod place;
mod turn;

pub use call::NameCall;
pub use entry::{Entries, Entry};
pub use laws::{
    a_bucket_is_read_back, a_call_has_its_end, a_call_that_is_not_done_changes_nothing,
    a_changed_bucket_is_a_bucket, an_entry_keeps_its_place, an_exchange_is_its_call,
    names_are_a_map,
};
pub use name::{Name, bucket_of};
pub use next::{NameNext, NameRefusal};
