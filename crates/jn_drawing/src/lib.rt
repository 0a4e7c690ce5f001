//! Random schedules of all words, at 1 to 3 servers with few pages each: what a storm runs. Each is drawn from a seed and a number, event by event, most of
//! them those that a client would give next.
#![tactic(auto)]

mod schedules;

pub use schedules::Drawing;
