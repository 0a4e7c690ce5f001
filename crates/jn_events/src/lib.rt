//! How a world of servers and clients starts, what each event of a schedule does to it, and how it ends.
//!
//! Each event leaves its lines, in the order in which things happen.
#![tactic(auto)]

mod ending;
mod faults;
mod meeting;
mod settling;
mod starting;

pub use ending::close;
pub use meeting::do_event;
pub use settling::settle;
pub use starting::start;
