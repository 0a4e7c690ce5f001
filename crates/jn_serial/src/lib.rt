//! What a report says of a schedule: the order of the commits, whether the answers are that order's, and what is
//! reported of outcomes. The definitions of what a report shows, causes and follows stand here too.
#![tactic(auto)]

mod begun;
mod done;
mod following;
mod laws;
mod lines;
mod order;
mod outcomes;
mod replies;
mod transactions;

pub use begun::is_in;
pub use done::done_of;
pub use following::{Asked, refuses_own};
pub use laws::{
    a_command_is_refused_once, a_refused_opening_loses_nothing, an_operation_counts_once,
    without_calls_all_is_operations,
};
pub use lines::{history, is_after_event, is_at, lines_at_end, lines_at_event, lines_before_event};
pub use order::{agrees, operations_agree, replay, replay_operations};
pub use outcomes::told;
pub use transactions::operations_of;
