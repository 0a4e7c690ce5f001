//! How a call of the program ends, and the line that refuses an image.
#![tactic(auto)]

mod refusing;
mod status;

pub use refusing::refuse_image;
pub use status::Status;
