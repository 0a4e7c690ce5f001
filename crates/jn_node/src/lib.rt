//! One server on a stream of frames: it comes up on its store, takes frame after frame with all that follows from each, and goes down
//! once nothing is left that others wait for.
//!
//! `specs/Running.antt` says what a server that is up has, and how a row changes it. `specs/Serving.antt` says what each frame leads to.
//! Who sends the frames is nowhere asked: any message that can be decoded may come.
#![tactic(auto)]

mod fault;
mod node;
mod opening;
mod settling;

pub use fault::NodeFault;
pub use node::Node;
pub use opening::open;
