//! The images of a run's disks, under names of a keeper: `NAME.0`, `NAME.1` and so on.
//!
//! A run that begins with images loads all of them before it looks at one. They give its disks where each is a
//! sound image of its server; else the first that isn't is refused, with its cause. A run that is kept saves its disks, server
//! 0 first, each as a whole image. One server's image is loaded, examined and saved by a call of its own.
#![tactic(auto)]

mod examining;
mod laws;
mod loading;
mod names;
mod refusal;
mod saving;

pub use examining::{ExamineFault, examine, examine_image};
pub use laws::{
    an_accepted_image_is_not_refused, an_image_is_refused_by_one_cause, bytes_tell_the_sound_image,
    where_all_are_accepted_none_is_refused,
};
pub use loading::{load_image, load_images};
pub use refusal::{Cause, Refusal};
pub use saving::{save_image, save_images};
