//! Whether a report shows the files as its commits made them.
#![tactic(auto)]

mod showing;

pub use showing::shown;
