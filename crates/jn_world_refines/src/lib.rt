//! Where the code's servers, clients and network stand as the written machine does, and that each call of a place or a client, done
//! exactly, is a step of the machine.
#![tactic(auto)]

mod asking;
mod ends;
mod faults;
mod looks;
mod names;
mod power;
mod serving;
mod settling;
mod tasks;
mod waiting;

pub use asking::{a_command_is_a_step, a_message_at_a_client_is_a_step};
pub use ends::{a_report_is_of_a_run, a_run_starts_and_ends_on_its_stores, the_end_begins};
pub use faults::faults_that_befall_are_steps;
pub use looks::{a_closing_is_a_step, a_look_is_a_step};
pub use names::a_loop_names_what_a_restart_names;
pub use power::{a_crash_is_a_step, a_restart_is_a_step};
pub use serving::{
    a_background_step_is_a_step, a_message_at_a_server_is_a_step, a_message_that_is_lost_is_a_step,
    a_nudge_is_a_step, a_timeout_is_a_step,
};
pub use settling::{a_rest_does_what_is_next, a_rest_is_over};
pub use tasks::{
    an_event_is_what_comes_next, calls_go_on_one_after_another, steps_without_servers,
    the_event_under_way_stays,
};
pub use waiting::{a_network_goes_with_its_course, the_least_that_waits_is_next};
