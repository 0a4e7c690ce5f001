//! A server's place: the server while it is up, and the store that it stands on while it is down. Each call of it does what one
//! event asks of that server, and leaves its lines.
//!
//! `specs/Places.antt` says when each call may come, and `specs/Exact.antt` what each does: to the server, to its device, and in lines.
#![tactic(auto)]

mod place;
mod telling;

pub use place::{Place, Restarted, Slot};
pub use telling::tell;
