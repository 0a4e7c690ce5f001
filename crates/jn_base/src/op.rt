//! What clients ask for.
ghost use Rattle.std.specs.Prelude.{◌≡◌, IfOk};

use crate::block::BlockContent;
use crate::names::{BlockNo, FileNo, LockUnit, ServerNo, Tid};
use std::alloc::AllocError;

/// An operation on the files of one server.
#[derive(Drop)]
pub enum Op {
    /// Makes an empty file.
    Create(FileNo),
    Remove(FileNo),
    /// Takes away the blocks from this one on.
    Cut(FileNo, BlockNo),
    Read(FileNo, BlockNo),
    Write(FileNo, BlockNo, BlockContent),
}

impl Op {
    /// The same operation once more.
    pub fn copy(&self) -> Result<Op, AllocError>
        ensures { IfOk result (λ op. op ≡ self.now) }
    {
        Ok(match self {
            Op::Create(f) => Op::Create(*f),
            Op::Remove(f) => Op::Remove(*f),
            Op::Cut(f, n) => Op::Cut(*f, *n),
            Op::Read(f, p) => Op::Read(*f, *p),
            Op::Write(f, p, content) => Op::Write(*f, *p, content.copy()?),
        })
    }
}

/// What an operation is answered.
#[derive(Drop)]
pub enum Answer {
    Did,
    Read(BlockContent),
    NoFile,
    Exists,
    /// Another transaction holds the unit.
    Locked(LockUnit, Tid),
    TooManyReads,
    TooManyWrites,
    /// The work was broken at the unit, by the transaction.
    Broken(LockUnit, Tid),
    /// The work isn't live: its epoch, and the epoch now.
    Lost(u32, u32),
    Closing,
}

impl Answer {
    /// The same answer once more.
    pub fn copy(&self) -> Result<Answer, AllocError>
        ensures { IfOk result (λ answer. answer ≡ self.now) }
    {
        Ok(match self {
            Answer::Did => Answer::Did,
            Answer::Read(content) => Answer::Read(content.copy()?),
            Answer::NoFile => Answer::NoFile,
            Answer::Exists => Answer::Exists,
            Answer::Locked(unit, holder) => Answer::Locked(*unit, *holder),
            Answer::TooManyReads => Answer::TooManyReads,
            Answer::TooManyWrites => Answer::TooManyWrites,
            Answer::Broken(unit, by) => Answer::Broken(*unit, *by),
            Answer::Lost(then, now) => Answer::Lost(*then, *now),
            Answer::Closing => Answer::Closing,
        })
    }
}

/// What a client is told to do.
#[derive(Drop)]
pub enum Command {
    Begin(ServerNo),
    Open(ServerNo),
    Do(ServerNo, Op),
    End,
    Abort,
}

impl Command {
    /// The same command once more.
    pub fn copy(&self) -> Result<Command, AllocError>
        ensures { IfOk result (λ command. command ≡ self.now) }
    {
        Ok(match self {
            Command::Begin(server) => Command::Begin(*server),
            Command::Open(server) => Command::Open(*server),
            Command::Do(server, op) => Command::Do(*server, op.copy()?),
            Command::End => Command::End,
            Command::Abort => Command::Abort,
        })
    }
}
