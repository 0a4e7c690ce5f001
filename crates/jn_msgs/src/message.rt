//! The messages of the protocol, in the order of a transaction's life.

ghost use Rattle.std.specs.Prelude.{◌≡◌};
ghost use Rattle.jn_msgs.specs.Kinds.{kind_of};

use crate::works::Works;
use jn_base::{
    Answer, Cause, ClientNo, LockUnit, MsgKind, Op, OperationNo, RequestNo, Resource, ServerNo,
    Tid, WorkId,
};

/// What a worker says of a work that is to be prepared.
#[derive(Clone, Copy, Debug, PartialEq, Eq, Drop)]
pub enum Vote {
    /// The work is prepared.
    Ready,
    /// Another transaction holds the unit.
    Waiting(LockUnit, Tid),
    /// The work was broken at the unit, by the transaction.
    Broken(LockUnit, Tid),
    /// The work isn't live: its epoch, and the epoch now.
    Lost(u32, u32),
    /// There is no room: what of, what is free, what is needed.
    Full(Resource, u32, u32),
}

/// What a client is told of its transaction's end.
#[derive(Clone, Copy, Debug, PartialEq, Eq, Drop)]
pub enum Outcome {
    Committed,
    Aborted(Cause),
    /// At the server another transaction holds the unit.
    Waiting(ServerNo, LockUnit, Tid),
    /// The server knows of no such transaction in this epoch.
    NotKnown(ServerNo, u32),
}

/// What a step reports beside its messages.
#[derive(Clone, Copy, Debug, PartialEq, Eq, Drop)]
pub enum Note {
    /// The transaction committed.
    Commit(Tid),
    /// The first transaction's work was broken at the unit, by the second.
    Broke(Tid, LockUnit, Tid),
    /// The message had no effect.
    Ignored,
}

/// A message.
#[derive(Drop)]
pub enum Message {
    Begin(ClientNo, RequestNo),
    /// The client, its request and the transaction.
    Open(ClientNo, RequestNo, Tid),
    /// The client, its request, the work, the operation's number and the operation.
    Op(ClientNo, RequestNo, WorkId, OperationNo, Op),
    /// The client, its request, the transaction and its works.
    End(ClientNo, RequestNo, Tid, Works),
    Abort(ClientNo, RequestNo, Tid, Works),
    Thanks(ClientNo, Tid),
    /// The new transaction, or none where no more can be live there.
    Begun(ClientNo, RequestNo, Option<Tid>),
    /// The transaction and its new work, or none where no more can be live there.
    Opened(ClientNo, RequestNo, Tid, Option<WorkId>),
    Answer(ClientNo, RequestNo, Answer),
    Outcome(ClientNo, Tid, Outcome),
    /// The transaction, its client and the work that is to be prepared.
    Prepare(Tid, ClientNo, WorkId),
    Commit(Tid, WorkId),
    Drop(Tid, WorkId),
    Vote(Tid, WorkId, Vote),
    Done(Tid, WorkId),
    Inquire(Tid, WorkId),
}

impl Message {
    pub fn kind(&self) -> MsgKind
        ensures { result ≡ kind_of self.now }
    {
        match self {
            Message::Begin(..) => MsgKind::Begin,
            Message::Open(..) => MsgKind::Open,
            Message::Op(..) => MsgKind::Op,
            Message::End(..) => MsgKind::End,
            Message::Abort(..) => MsgKind::Abort,
            Message::Thanks(..) => MsgKind::Thanks,
            Message::Begun(..) => MsgKind::Begun,
            Message::Opened(..) => MsgKind::Opened,
            Message::Answer(..) => MsgKind::Answer,
            Message::Outcome(..) => MsgKind::Outcome,
            Message::Prepare(..) => MsgKind::Prepare,
            Message::Commit(..) => MsgKind::Commit,
            Message::Drop(..) => MsgKind::Drop,
            Message::Vote(..) => MsgKind::Vote,
            Message::Done(..) => MsgKind::Done,
            Message::Inquire(..) => MsgKind::Inquire,
        }
    }
}
