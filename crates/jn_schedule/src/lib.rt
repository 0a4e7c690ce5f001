//! Schedules: what happens, event by event.
#![tactic(auto)]

mod fault;
mod place;
mod reading;
mod schedule;
mod word;
mod words;

pub use fault::{LineFault, ParseFault};
use jn_base::{Call, ClientNo, Command, FaultKind, ServerNo, Tid};
pub use place::line_of_event;
pub use schedule::{
    a_schedule_has_one_list_of_events, a_text_is_a_schedule_or_has_a_fault,
    a_text_with_a_fault_is_no_schedule, parse, parse_up_to, words_are_in_range,
};

/// One event of a schedule, with its words as typed values.
#[derive(Drop)]
pub enum Event {
    /// A client is told to do something: `c1 begin S` and so on, each command of `Command`.
    Command(ClientNo, Command),
    /// A client is told to call the server. No words give it yet.
    Call(ClientNo, ServerNo, Call),
    /// A client sends its outstanding message once more.
    Again(ClientNo),
    /// The message of this number is handed over.
    Deliver(u32),
    /// Messages and background steps, until nothing is left to do.
    Settle,
    /// One background step of a server.
    Step(ServerNo),
    /// A server sends again what waits for an answer.
    Nudge(ServerNo),
    /// The transaction's work at the server may be broken from now on.
    Timeout(ServerNo, Tid),
    /// Each pair of pages is cleaned.
    Scrub(ServerNo),
    /// A physical page goes bad.
    Decay(ServerNo, u32),
    /// A bad physical page is good again.
    Revive(ServerNo, u32),
    /// A fault waits for the server's n-th device call from now.
    Arm(ServerNo, u32, FaultKind),
    Crash(ServerNo),
    Restart(ServerNo),
    /// The server's files are printed.
    Show(ServerNo),
}
