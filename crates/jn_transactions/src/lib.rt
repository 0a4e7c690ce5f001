//! A coordinator's transactions as a list, in rising order of their names.
//!
//! `table` looks one up, brings it to another stage or lets it go, and notes votes, works carried out and thanks on
//! copies; `sending` tells works and clients of them; `closing` finds those that go once their client has gone on;
//! `restoring` lists those of the flags that a restart finds. Each result is what the coordinator's rows in `jn_rows`, or
//! the definitions in `specs/`, say of the same list. A call that fails has no memory for it, and may have sent a part of
//! what it was to send.
#![tactic(auto)]

mod closing;
mod faults;
mod restoring;
mod sending;
mod table;

pub use closing::{begin_again, count_left, is_committed, know_all, next_closing};
pub use faults::CoordFault;
pub use restoring::transactions_of;
pub use sending::{
    note, send, send_drops, send_outcome, send_prepares, tell_abort, tell_all_again, tell_commit,
    tell_not_known, tell_work,
};
pub use table::{
    all_in, besides, copy_of, find, is_aborted, is_over, is_ready, is_voting, is_work, known_of,
    new_ballot, one_more_done, one_more_ready, remove, set_stage, union,
};
