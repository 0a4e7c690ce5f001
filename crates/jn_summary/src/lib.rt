//! What is reported of a long run in one line: how many lines of some kinds its report has, and the digest of its text.
#![tactic(auto)]

mod counts;
mod reporting;
mod summary;
mod told;

pub use reporting::Summing;
pub use summary::Summary;
