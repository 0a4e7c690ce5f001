//! A client: at most one transaction, and at most one command that it waits for.
#![tactic(auto)]

mod client;
mod copies;
mod words;

pub use client::Client;
pub use jn_rows::{Outstanding, Taken};
pub use words::CommandFault;
