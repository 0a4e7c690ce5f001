//! Images: the disk of one server as bytes, and whether it is one that a server may begin with.
//!
//! | bytes | what stands there |
//! |---|---|
//! | 0 to 7 | `JUNIMAGE` |
//! | 8, 9 | the version, 1 or 2, and the server, 0 to 7 |
//! | 10 to 15 | how many pages the pool has, how many heads and how many data pages there are (2 each) |
//! | from 16 on | each physical page: 1 where it is good or 0 where it is bad, and its 512 bytes |
//! | the last 32 | the SHA-256 (FIPS 180-4) of all bytes before |
//!
//! `decode` takes exactly what `encode` gives, and names the first fault of all other bytes. `check` takes exactly
//! the sound images of a server, from whose pages a recovery may begin, and names the first fault of all others.
#![tactic(auto)]

mod fault;
mod image;
mod laws;
mod reading;
mod repeats;
mod soundness;
mod writing;
mod written;

pub use fault::{BadImage, CheckError, DecodeError, Unsound};
pub use image::Image;
pub use laws::{a_sound_image_fits, a_sound_image_has_sound_pages, bytes_tell_the_image};
pub use reading::decode;
pub use soundness::check;
pub use writing::encode;
