//! What a client remembers of its transaction and of the command that it waits for.

use jn_base::{Command, Party, RequestNo, WorkId};
use jn_msgs::Message;
use jn_report::Text;

/// A work that a client has opened, and the number of its last operation, 0 before the first.
#[derive(Clone, Copy)]
pub struct OpenWork {
    pub work: WorkId,
    pub last: u32,
}

/// The command that a client waits for, and the message that was sent for it.
#[derive(Drop)]
pub struct Outstanding {
    /// The number of the event that gave the command.
    pub event: u32,
    pub request: RequestNo,
    pub command: Command,
    pub to: Party,
    pub message: Message,
}

/// What a message made a client do.
#[derive(Drop)]
pub enum Taken {
    /// The message was stale.
    Ignored,
    /// It sends this, without a line.
    Send(Party, Message),
    /// It reports this, and perhaps sends something.
    Told(Text, Option<(Party, Message)>),
}
