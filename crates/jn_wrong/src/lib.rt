//! Wrong reports, which no run of the written machine gives; and laws over all its runs, which refuse more of them.
#![tactic(auto)]

mod existing;
mod faulty;
mod leaving;
mod new;
mod room;
mod settling;
mod telling;
mod wanting;

ghost use Rattle.std.specs.Prelude.{◌≡◌, ℕ, nat_lt, false};
ghost use Rattle.jn_base.specs.declared.names.Resource.{Resource};
ghost use Rattle.jn_wrong.specs.Wrong.{IsNone, begins, makes_one, makes_and_reads, opens_and_loses, answered_too_soon, stopped_by_nothing, fault_of_nothing, lost_without_opening, file_left_out, file_locked, page_unwritten, other_bytes, named_again, full_of};

pub use existing::{
    a_run_without_events_is_there, runs_struck_at_a_restart_are_there, runs_with_faults_are_there,
};
pub use faulty::{
    a_decay_passed_over_is_none, a_fault_at_a_page_that_is_not_there_is_none,
    a_fault_refused_for_a_free_call_is_none, a_fault_that_waited_is_told,
    a_fault_that_was_never_armed_is_none, a_first_decay_told_as_refused_is_none,
    a_power_up_that_forgives_nothing_is_none, a_restart_that_mends_nothing_is_none,
    a_scrub_that_mends_nothing_is_none, a_show_that_meets_a_stop_far_off_is_none,
    a_stop_at_a_first_call_is_met, a_stop_passed_by_is_none,
    faults_are_told_in_the_order_of_their_calls, faults_told_in_another_order_are_none,
    reports_with_faults_are_computed, reports_with_faults_are_the_only_ones,
};
pub use leaving::{a_record_that_nothing_names_is_left_by_no_step, each_step_leaves_its_rubbish};
pub use new::{
    a_commit_of_nobody_is_none, a_refusal_without_a_cause_is_none,
    a_report_that_answers_nothing_is_none, a_settle_that_leaves_a_message_is_none,
    a_show_of_what_is_not_there_is_none, a_skipped_epoch_is_none, a_stray_line_is_none,
    an_answer_before_a_settle_is_none, an_answer_for_another_is_none,
    an_end_in_another_order_is_none, messages_out_of_place_are_none,
    other_bytes_before_an_abort_are_none, reports_are_the_only_ones,
};
pub use room::{
    a_transaction_that_finds_room_commits, a_transaction_that_lacks_a_map_page_is_told_so,
    a_transaction_that_lacks_records_is_told_so, an_abort_comes_where_room_is_lacking,
    an_abort_for_want_of_pages_that_are_free_is_none, an_abort_for_want_of_what_is_free_is_none,
    an_abort_tells_what_is_lacking, an_abort_that_leaves_out_the_map_page_is_none,
};
pub use settling::{a_message_is_handed_over_once, a_settle_leaves_nothing_to_do};
pub use telling::{
    a_restart_mends_root_records_heads_and_maps, a_scrub_leaves_no_old_half,
    a_server_comes_up_and_goes_down_by_turns, a_show_prints_what_is_there_once,
    each_refused_fault_is_told, epochs_rise_from_those_of_the_images,
    no_line_stands_at_an_event_that_has_not_begun,
};
pub use wanting::an_abort_for_want_of_room_was_short;

/// An answer stands under an event before its command's.
pub fn an_answer_before_its_command_is_none()
    ensures { IsNone begins answered_too_soon }
{}

/// A server is stopped though no stop waited.
pub fn a_stop_without_a_cause_is_none()
    ensures { IsNone begins stopped_by_nothing }
{}

/// A fault is reported as refused though none waited.
pub fn a_refused_fault_without_a_cause_is_none()
    ensures { IsNone begins fault_of_nothing }
{}

/// A transaction is aborted since a server was lost that its client refused to open.
pub fn a_loss_of_what_was_not_opened_is_none()
    ensures { IsNone opens_and_loses lost_without_opening }
{}

/// The end leaves out a file that was made, shows it as locked, or prints a page that nobody wrote.
pub fn an_end_that_shows_other_files_is_none()
    ensures left_out { IsNone makes_one file_left_out }
    ensures as_locked { IsNone makes_one file_locked }
    ensures page { IsNone makes_one page_unwritten }
{}

/// A transaction that commits is answered with other bytes than the files have.
pub fn an_answer_with_other_bytes_is_none()
    ensures { IsNone makes_and_reads other_bytes }
{}

/// A restart names a commit again.
pub fn a_commit_named_again_is_none()
    ensures { IsNone makes_one named_again }
{}

/// A transaction is aborted for want of records, heads or data pages where no more are needed than are said to be free.
pub fn an_abort_for_want_of_nothing_is_none()
    ensures { (resource : Resource) (free need : ℕ) → nat_lt free need ≡ false → IsNone makes_one (full_of resource free need) }
{}
