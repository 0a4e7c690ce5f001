//! Numbers and bytes as they are spelled in schedules and reports.
#![tactic(auto)]

mod read;
mod write;

pub use read::{
    one_number_stands_at_a_place, one_spelling_stands_at_a_place, read_hex, read_number,
};
pub use write::{before_end_zeros, push_all_hex, push_hex, push_number};
