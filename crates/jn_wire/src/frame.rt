//! A frame: a message, or a signal to the server, with its sender and its receiver.

use jn_base::{Party, Tid};
use jn_msgs::Message;

/// What a frame carries.
#[derive(Drop)]
pub enum Body {
    Message(Message),
    /// The server is to send again what waits for an answer.
    Nudge,
    /// The active work of the transaction is to give way.
    Timeout(Tid),
}

/// What a frame carries, with its sender and its receiver.
#[derive(Drop)]
pub struct Framed {
    pub from: Party,
    pub to: Party,
    pub body: Body,
}
