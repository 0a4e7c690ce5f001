//! A journal: records that are written over zeros, and how a record that a crash tore is told from a damaged one.
//!
//! | bytes of a record | what stands there |
//! |---|---|
//! | 0 to 15 | eight bytes, each followed by 255 less it: the length of the body in four, and in four how many of its bytes are zero |
//! | 16 to 47 | the SHA-256 (FIPS 180-4) of what the record is chained to, and of the content: the body begins here |
//! | from 48 on | the content |
//!
//! A record is chained to the digest of the one before it, and the first one to a digest that the caller chooses.
//! `docs/DISK.md` has the format with worked bytes.
#![tactic(auto)]

mod laws;
mod reading;
mod writing;

pub use laws::{
    a_journal_is_read_back, a_prefix_is_torn, a_torn_journal_gives_its_first_records, examples,
    one_reading, what_was_synced_is_read,
};
pub use reading::{Ending, Journal, read};
pub use writing::{Chain, Written, write_record};

#[cfg(test)]
mod tests;
