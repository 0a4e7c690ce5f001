//! A server over a plain list of pages, driven message by message.

mod bench;
mod coordinator;
mod plays;
mod rows;
mod store;
mod works;
