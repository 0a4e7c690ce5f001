//! Whether each answer of a report answers what its client waits for.
#![tactic(auto)]

mod following;

pub use following::{Entry, follows};
