//! Scripts of a server for its tests: a line has what it is made to do, and in words what it says of that.
#![tactic(auto)]

mod moves;
mod script;
mod words;

pub use moves::{Move, SERVER, message_of};
pub use script::{Scene, scene_of};
pub use words::Words;
