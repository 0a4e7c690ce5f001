//! What a server finds on its pages after a stop: the stable state of each choice of halves, what a recovery may
//! rely on, and how one put of a page changes it.
#![tactic(auto)]

mod again_laws;
mod call_laws;
mod head_laws;
mod held_laws;
mod kept_laws;
mod pool_laws;
mod recovery_laws;
mod start_laws;
mod stop_laws;

pub use again_laws::a_recovery_may_carry_out_again;
pub use call_laws::{
    a_flag_is_one_change, a_restart_counts_itself_by_one_put, a_work_goes_on_by_single_changes,
    an_intention_may_take_two_puts, preparing_is_one_change,
};
pub use head_laws::{
    a_head_carries_out_an_intention, a_page_without_a_name_changes_nothing, a_root_has_the_epoch,
    the_state_reads_named_pages_alone,
};
pub use held_laws::{
    a_pick_is_a_choice, a_put_is_held, each_pick_says_what_is_held,
    gets_and_cleanups_bring_no_candidate,
};
pub use kept_laws::{
    a_put_gives_no_new_names, a_record_keeps_what_a_recovery_asks,
    other_pages_keep_what_a_recovery_asks,
};
pub use pool_laws::{
    a_flag_is_its_record, a_freed_record_removes_its_work, a_going_record_marks_its_work,
    a_ready_record_prepares_its_work, an_intention_comes_behind_the_others,
    an_intention_without_its_work_changes_nothing,
};
pub use recovery_laws::a_recovery_finds_what_was_there;
pub use start_laws::{a_sound_image_is_found, whole_pages_are_a_sound_image};
pub use stop_laws::{
    a_put_is_one_change, a_put_leaves_a_recovery, a_put_page_is_read_again,
    clean_pages_find_one_state, fewer_candidates_change_nothing, pages_say_their_records_and_heads,
    same_pages_are_found_again, the_state_is_what_the_pages_say,
};
