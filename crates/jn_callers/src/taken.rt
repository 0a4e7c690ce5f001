//! What a message makes a client do.

use jn_base::Party;
use jn_bytes::Next;
use jn_msgs::Message;
use jn_names::NameNext;
use jn_report::Text;

/// What a message made a client do.
#[derive(Drop)]
pub enum Taken {
    /// The message was stale.
    Ignored,
    /// It sends this, without a line.
    Send(Party, Message),
    /// It reports this, and perhaps sends something.
    Told(Text, Option<(Party, Message)>),
    /// The call on bytes that the event of this number gave is over so.
    Last(u32, Next),
    /// The call on names that the event of this number gave is over so.
    LastName(u32, NameNext),
}
