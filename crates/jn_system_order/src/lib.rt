//! The commits of the whole system stand in an order: each of its steps is some of the machine's, and so is each run.
#![tactic(auto)]

mod moves;
mod runs;

pub use moves::steps_are_moves;
pub use runs::{acknowledged_commits_are_named, commits_are_in_order, runs_are_moves};
