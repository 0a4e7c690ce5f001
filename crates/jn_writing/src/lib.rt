//! Writes bytes and report lines to a sink.
#![tactic(auto)]

mod fault;
mod reporter;
mod writer;

pub use fault::ReportFault;
pub use reporter::Reporter;
pub use writer::{Writer, write_all};
