//! What clients and servers say to one another, and what a step sends and reports.
#![tactic(auto)]

mod message;
mod out;
mod works;

pub use message::{Message, Note, Outcome, Vote};
pub use out::Out;
pub use works::Works;
