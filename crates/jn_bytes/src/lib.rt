//! Bytes at places of a file: a read or a write of them is a call, which takes operations on blocks one after another.
#![tactic(auto)]

mod answering;
mod block;
mod byte_call;
mod gathered;
mod laws;
mod next;
mod ops;
mod reading;
mod stage;
mod writing;

pub use byte_call::ByteCall;
pub use gathered::Gathered;
pub use laws::{
    a_call_has_its_end, a_read_is_of_its_bytes, a_write_is_of_its_bytes, an_exchange_is_its_call,
};
pub use next::{ByteRefusal, Next};
