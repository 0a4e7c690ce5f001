//! Settling: that it ends and how soon, what it leaves where all servers are up, and that an end that settles leaves nothing open.
#![tactic(auto)]

mod calls;
mod closed;
mod courses;
mod rests;
mod settled;

pub use calls::{
    a_client_goes_on, a_settle_with_calls_settles, no_operation_is_told_behind_the_askings,
    operations_are_on_their_way,
};
pub use closed::{a_stopped_commit_ends, an_end_leaves_nothing, an_end_leaves_what_was_committed};
pub use courses::{
    a_commit_is_named_at_a_restart, a_prepare_is_stopped, a_reader_gives_way,
    a_stopped_commit_is_found_or_not, a_stopped_prepare_is_found_or_not,
    a_write_waits_for_a_reader, courses_are_runs, deliveries_lighten, events_are_runs,
    one_client_writes, settling_ends, settling_is_bounded, tables_stay_small, two_clients_wait,
};
pub use rests::{
    a_rest_is_reached, a_settle_is_made, settling_is_bounded_anyhow, steps_come_in_turn,
};
pub use settled::{a_forgotten_work_is_not_settled, a_settle_settles};
