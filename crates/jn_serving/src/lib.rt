//! Serves a stream of frames: what a source gives goes to one server as it comes, and what the server sends to others by each frame
//! goes to a sink.
//!
//! `specs/Input.antt` says which frames stand in the bytes that were read, and `specs/Streams.antt` what is served of them, by how the
//! stream ended. `specs/Pieces.antt` says what one read leads to.
#![tactic(auto)]

mod fault;
mod stream;

pub use fault::StreamFault;
pub use stream::{MOST_BYTES, serve_stream};
