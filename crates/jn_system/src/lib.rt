//! The whole system as small steps: the machine that commits stand in order on, and every client and server by its row, with
//! stops, crashes and restarts.
#![tactic(auto)]

mod busy;
mod machine;
mod protocol;

pub use busy::{
    a_step_is_of_a_going_work_or_erases, an_erasure_changes_nothing, the_least_busy_server_is_first,
};
pub use machine::{
    a_commit_outlives_stops, commits_are_in_order, messages_stay_true, names_are_given_once,
};
pub use protocol::{
    a_commit_is_found_again, a_transaction_commits, an_end_forgets, locks_go_together,
    numbers_change_nothing, wrong_rows_lose_a_commit, wrong_rows_mix_the_order,
};
