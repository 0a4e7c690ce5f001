//! A worker's works as a list, in rising order of their names.
//!
//! `works` finds one, takes one away, and lets one give way; `lists` swaps an active work's list of intentions, and keeps
//! its answers; `locked` finds the files and blocks that are held for commit; `restoring` lists the prepared ones that a restart finds. Each result is what the worker's rows in
//! `jn_rows`, or the definitions in `specs/`, say of the same list. `jn_lock_rows` has the calls that change locks too.
#![tactic(auto)]

mod lists;
mod locked;
mod restoring;
mod works;

pub use lists::{swap_list, tally};
pub use locked::{
    lesser_block, lesser_file, next_locked, next_locked_block, the_next_locked_unit_is_the_least,
};
pub use restoring::{prepared_work, sorted_names, state_of};
pub use works::{commit_holder, expose, forget_name, going_work, is_in, remove, work_of};
