//! What the stable state is and how it changes, and the rows of the actors' tables, as definitions.
#![tactic(auto)]

mod client;
mod coordinator;
mod examples;
mod laws;
mod worker;

pub use client::{OpenWork, Outstanding, Taken};
pub use coordinator::{Committed, Stage, Transaction, Voting};
pub use examples::{
    a_flag_is_told_again, a_later_begin_closes, a_prepare_meets_readers, a_prepared_work_goes_on,
    a_timeout_makes_vulnerable, a_transaction_aborts, a_vulnerable_work_breaks,
    a_waiting_vote_is_told, a_work_is_opened_once, a_work_is_prepared_where_there_is_room,
    a_work_may_be_over, an_abort_drops_each_work_once, operations_go_by_number,
    the_last_vote_commits,
};
pub use laws::{a_client_has_few_works, a_clients_works_stand_apart, only_a_cut_is_found_in_part};
pub use worker::{ActiveWork, Phase, PreparedWork, Work};
