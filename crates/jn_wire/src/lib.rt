//! Messages as frames of bytes: how a frame is written, and how a server's byte stream is read.
#![tactic(auto)]

mod decode;
mod examples;
mod fault;
mod fields;
mod frame;
mod laws;
mod put;
mod taken;
mod unframer;
mod write;

pub use examples::{a_stream_stops_at_a_fault, examples_are_written, faults_have_numbers};
pub use fault::{WireError, WireFault};
pub use frame::{Body, Framed};
pub use laws::{
    frames_are_read_back, no_other_bytes_are_read, pieces_join, streams_are_read_back,
    what_is_held_is_no_frame,
};
pub use taken::what_is_read_can_be_taken;
pub use unframer::Unframer;
pub use write::encode;
