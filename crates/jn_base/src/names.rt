//! Who and what is spoken of.

ghost use Rattle.std.specs.Prelude.{◌≡◌};
ghost use Rattle.jn_base.specs.Names.{refusal_number};

/// A server, 0 to 7.
#[derive(Clone, Copy, Debug, PartialEq, Eq)]
pub struct ServerNo(pub u8);

/// A client, 1 to 8.
#[derive(Clone, Copy, Debug, PartialEq, Eq)]
pub struct ClientNo(pub u8);

#[derive(Clone, Copy, Debug, PartialEq, Eq)]
pub struct FileNo(pub u32);

/// A block of a file, below `MOST_BLOCKS`.
#[derive(Clone, Copy, Debug, PartialEq, Eq)]
pub struct BlockNo(pub u16);

/// A transaction: its coordinator, the epoch in which it was begun and its ticket there.
#[derive(Clone, Copy, Debug, PartialEq, Eq)]
pub struct Tid {
    pub server: ServerNo,
    pub epoch: u32,
    pub ticket: u32,
}

/// A transaction's work at one server, named as a transaction is.
#[derive(Clone, Copy, Debug, PartialEq, Eq)]
pub struct WorkId {
    pub server: ServerNo,
    pub epoch: u32,
    pub ticket: u32,
}

/// A request of a client, counted from 1 in the order in which it makes them.
#[derive(Clone, Copy, Debug, PartialEq, Eq)]
pub struct RequestNo(pub u32);

/// An operation on a work, counted from 1 in the order in which its client asks for them.
#[derive(Clone, Copy, Debug, PartialEq, Eq)]
pub struct OperationNo(pub u32);

/// What a lock is held on: a file itself, or one block of it.
#[derive(Clone, Copy, Debug, PartialEq, Eq)]
pub enum LockUnit {
    File(FileNo),
    Block(FileNo, BlockNo),
}

/// What is free less what is promised, and the greater need that was refused.
#[derive(Clone, Copy, Debug, PartialEq, Eq)]
pub struct Short {
    pub free: u32,
    pub need: u32,
}

/// What a server may have too little of.
#[derive(Clone, Copy, Debug, PartialEq, Eq)]
pub enum Resource {
    /// Records of its pool.
    Records,
    /// Data pages.
    Pages,
    /// Heads, one for each file.
    Heads,
}

impl Resource {
    /// The number of the refusal for want of it.
    pub fn refusal_number(self) -> u8
        ensures { result ≡ refusal_number self }
    {
        match self {
            Resource::Records => 31,
            Resource::Pages => 32,
            Resource::Heads => 33,
        }
    }
}

/// Why a transaction was aborted.
#[derive(Clone, Copy, Debug, PartialEq, Eq)]
pub enum Cause {
    /// Its client asked for it.
    Requested,
    /// Its work at the server was broken at the unit, by the transaction.
    Broken(ServerNo, LockUnit, Tid),
    /// The server lost its part of it.
    Lost(ServerNo),
    /// The server had no room: what of, what was free, what was needed.
    Full(ServerNo, Resource, u32, u32),
}

/// Where a server's names come from: its epoch, and the next ticket in it.
#[derive(Clone, Copy, Debug, PartialEq, Eq)]
pub struct Tickets {
    pub server: ServerNo,
    pub epoch: u32,
    pub next: u32,
}

/// Who sends a message, and who takes it.
#[derive(Clone, Copy, Debug, PartialEq, Eq)]
pub enum Party {
    Client(ClientNo),
    Server(ServerNo),
}

/// The kinds of messages.
#[derive(Clone, Copy, Debug, PartialEq, Eq)]
pub enum MsgKind {
    Begin,
    Open,
    Op,
    End,
    Abort,
    Thanks,
    Begun,
    Opened,
    Answer,
    Outcome,
    Prepare,
    Commit,
    Drop,
    Vote,
    Done,
    Inquire,
}
