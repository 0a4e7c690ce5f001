//! Reports: what is printed of a run, line by line.
#![tactic(auto)]

mod digits;
mod kinds;
mod line;
mod word;
mod write;

pub use kinds::{
    Addressed, answer_in, begins, breaks, goes_down, is_aborted, is_answer, is_commit, is_locked,
    is_no_show, is_outside, is_own, is_own_refusal, is_refused, is_stopped, refuses_event,
    refuses_fault, stops,
};
pub use line::{EventRefusal, Line, Refusal, Text, When};
pub use write::push_line;
