//! What the reports of the whole system say: lines and events of a run, what transactions did, why they aborted, what is shown, and
//! what holds between any two steps.
#![tactic(auto)]

mod causes;
mod facts;
mod reports;
mod shown;
mod talk;

pub use causes::{a_lost_transaction_is_reported, events_cause_lines};
pub use facts::{
    a_transaction_may_be_in_doubt, answers_stand_until_the_commit,
    commits_are_told_after_their_line, doubt_is_of_servers_that_are_down,
    drops_are_of_works_that_are_over, names_are_made_once, works_of_commits_stay,
};
pub use reports::{
    a_commit_is_reported, answers_follow, outcomes_are_told, stops_and_faults_are_armed,
};
pub use shown::{
    a_file_is_shown_after_it_is_locked, a_run_ends, shows_are_of_commits, shows_need_locks,
    the_end_is_of_commits,
};
pub use talk::{a_transaction_is_told, commits_are_as_told, wrong_rows_tell_otherwise};
