//! What stands in so many bytes, on a page and in a frame.
//!
//! Numbers have their highest byte first.
//!
//! | field | bytes |
//! |---|---|
//! | number | 2, or 1 or 4 within a name or a unit |
//! | name of a transaction or a work | its server (1), epoch and ticket (4 each) |
//! | lock unit | its file (4), and its block, or 65,535 for the file itself (2) |
#![tactic(auto)]

mod field;
mod laws;
mod name;
mod reading;

pub use field::{Field, list_at};
pub use laws::fields_are_read_back;
pub use reading::{bytes_at, u8_at, u16_at, u32_at};
