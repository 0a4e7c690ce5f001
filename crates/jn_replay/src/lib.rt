//! Operations and calls done one after another on the files of all servers, kept plainly.
#![tactic(auto)]

mod answers;
mod comparing;
mod files;
mod operations;
mod perform;
mod replied;
mod replies;

pub use answers::is_same_answer;
pub use comparing::is_same_reply;
pub use files::{Files, Performed, StoredBlock, StoredFile};
pub use operations::{do_all, gives_answers};
pub use perform::{do_op, place_of_block, place_of_file};
pub use replied::{Replied, call_fits};
pub use replies::{do_call, do_wish, do_wishes, gives_replies};
