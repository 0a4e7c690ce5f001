//! What the lock table's answers are to the rows of a worker: while it says of each work what the work holds in
//! its phase, its conflicts, grants and broken works are those of the rows.
//!
//! `specs/Matching.antt` says when a lock table matches the works, `specs/Calls.antt` what its answers are then,
//! and `proofs/` has the lemmas for each call. `laws` has functions that do nothing: their contracts are the laws.
#![tactic(auto)]

mod breaks;
mod finding;
mod grants;
mod laws;
mod wants;

pub use breaks::{break_works, note_breaks};
pub use finding::{set_phase, work_at};
pub use grants::{Refused, grant_operation, grant_storing, open_work, test_storing};
pub use laws::{
    a_counted_operation_matches, a_new_table_matches_no_works,
    a_prepare_is_refused_as_the_rows_say, a_released_work_matches, a_restored_work_matches,
    a_vulnerable_work_matches, a_work_is_stored_as_the_rows_say, an_opened_work_matches,
    an_operation_is_granted_as_the_rows_say, an_operation_is_refused_as_the_rows_say,
};
pub use wants::{OperationWants, operation_wants, units_with};
