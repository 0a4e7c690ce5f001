//! Laws that go over several crates below. Of every run: a message has its answer in the event that hands it over. Works of commits keep what they
//! have read. No block from `most_blocks` on is printed. A world of servers is at the moment to which its events lead, and each of its data pages is
//! free or in use once. One law is of texts: what a report spells is read where a schedule says it. And runs are computed in which a stop leaves a cut
//! in part, and another change whole or not at all.
#![tactic(auto)]

mod messages;
mod pages;
mod parts;
mod shows;
mod texts;
mod works;
mod worlds;

pub use messages::{
    a_last_ready_comes, a_message_has_its_answer_in_its_event, only_stale_messages_are_ignored,
    the_last_ready_names_its_commit,
};
pub use pages::data_pages_are_counted;
pub use parts::{a_cut_is_found_in_part, a_flag_is_found_whole_or_not_at_all};
pub use shows::{a_show_prints_the_blocks_of_its_files, printed_blocks_are_in_range};
pub use texts::hex_is_read_back;
pub use works::works_of_commits_keep_their_reads;
pub use worlds::a_world_is_at_the_moment_of_its_events;
