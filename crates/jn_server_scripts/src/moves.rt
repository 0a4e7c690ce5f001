//! What a test makes a server do.
ghost use Rattle.std.specs.Prelude.{◌<◌, ◌≤◌, length, IfOk, IfSome};
ghost use Rattle.jn_msgs.specs.Ranges.{CanBeTaken};
ghost use Rattle.jn_base.specs.Ops.{BlockInRange};
ghost use Rattle.jn_base.specs.Limits.{most_blocks};

use jn_base::{
    BlockContent, BlockNo, ClientNo, FileNo, MOST_BLOCKS, Op, OperationNo, RequestNo, ServerNo,
    Tid, WorkId,
};
use jn_msgs::{Message, Vote, Works};
use std::alloc::{AllocError, Global};

pub const SERVER: ServerNo = ServerNo(0);

/// An operation of a file and one of its blocks; a write is of nines.
#[derive(Clone, Copy)]
pub enum Task {
    Create(u32),
    Remove(u32),
    Cut(u32, u16),
    Read(u32, u16),
    Nines(u32, u16),
}

/// The works that an End or an Abort names.
#[derive(Clone, Copy)]
pub enum Named {
    Nothing,
    One(WorkId),
    Two(WorkId, WorkId),
}

/// The request of each message that has one, but of a Begin.
const REQUEST: RequestNo = RequestNo(9);

/// What a server does. A client's number comes first.
#[derive(Clone, Copy)]
pub enum Move {
    Begin(u8, u32),
    Open(u8, Tid),
    /// The work's operation of this number.
    Do(u8, WorkId, u32, Task),
    End(u8, Tid, Named),
    Abort(u8, Tid, Named),
    Thanks(u8, Tid),
    Prepare(Tid, u8, WorkId),
    Commit(Tid, WorkId),
    Drop(Tid, WorkId),
    Vote(Tid, WorkId, Vote),
    Done(Tid, WorkId),
    Inquire(Tid, WorkId),
    /// A message that only a client takes.
    Stray(u8),
    /// A background step.
    Step,
    /// What waits for an answer is sent again.
    Again,
    /// The transaction's work gives way from now on.
    Timeout(Tid),
    Scrub,
    Show,
    /// The clients are dismissed.
    Close,
}

fn block(p: u16) -> BlockNo
    ensures { result.0 < most_blocks }
{
    BlockNo(p % MOST_BLOCKS)
}

fn op_of(alloc: Global, task: Task) -> Result<Op, AllocError>
    ensures { IfOk result BlockInRange }
{
    Ok(match task {
        Task::Create(f) => Op::Create(FileNo(f)),
        Task::Remove(f) => Op::Remove(FileNo(f)),
        Task::Cut(f, p) => Op::Cut(FileNo(f), block(p)),
        Task::Read(f, p) => Op::Read(FileNo(f), block(p)),
        Task::Nines(f, p) => {
            let nines = BlockContent::from_block(alloc, &[9; 448])?;
            Op::Write(FileNo(f), block(p), nines)
        }
    })
}

fn works_of(alloc: Global, named: Named) -> Result<Works, AllocError>
    ensures { IfOk result (λ works. length works ≤ 8) }
{
    let works = match named {
        Named::Nothing => Vec::new(alloc),
        Named::One(w) => Vec::from_array(alloc, [w])?,
        Named::Two(v, w) => Vec::from_array(alloc, [v, w])?,
    };
    Ok(Works::from_vec(works))
}

/// The message that makes the server do this, where it is one.
pub fn message_of(alloc: Global, step: Move) -> Result<Option<Message>, AllocError>
    ensures { IfOk result (λ message. IfSome message CanBeTaken) }
{
    let message = match step {
        Move::Begin(c, request) => Message::Begin(ClientNo(c), RequestNo(request)),
        Move::Open(c, t) => Message::Open(ClientNo(c), REQUEST, t),
        Move::Do(c, w, number, task) => {
            let op = op_of(alloc, task)?;
            Message::Op(ClientNo(c), REQUEST, w, OperationNo(number), op)
        }
        Move::End(c, t, named) => Message::End(ClientNo(c), REQUEST, t, works_of(alloc, named)?),
        Move::Abort(c, t, named) => Message::Abort(
            ClientNo(c),
            REQUEST,
            t,
            works_of(alloc, named)?,
        ),
        Move::Thanks(c, t) => Message::Thanks(ClientNo(c), t),
        Move::Prepare(t, c, w) => Message::Prepare(t, ClientNo(c), w),
        Move::Commit(t, w) => Message::Commit(t, w),
        Move::Drop(t, w) => Message::Drop(t, w),
        Move::Vote(t, w, vote) => Message::Vote(t, w, vote),
        Move::Done(t, w) => Message::Done(t, w),
        Move::Inquire(t, w) => Message::Inquire(t, w),
        Move::Stray(c) => Message::Begun(ClientNo(c), REQUEST, None),
        Move::Step | Move::Again | Move::Timeout(_) | Move::Scrub | Move::Show | Move::Close =>
            return Ok(None),
    };
    Ok(Some(message))
}
