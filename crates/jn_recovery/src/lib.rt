//! The recovery of a server's storage: what a server does with its store when it starts, whatever was stopped there
//! before, and what it then keeps in memory.
//!
//! `specs/Memory.antt` says what is kept and what is seen of it, `specs/Matches.antt` that this is what stands on the
//! pages, `specs/Loading.antt` what a recovery does, and what it leaves where it ends before there is a storage.
#![tactic(auto)]

mod cleaning;
mod counts;
mod gathering;
mod load;
mod opening;

pub use cleaning::clean_pages;
pub use counts::PageCounts;
pub use gathering::{Kept, heads_needed};
pub use load::{DownCause, Found, recover};
