//! Calls on the bytes of a file.

ghost use Rattle.std.specs.Prelude.{◌≡◌, ◌≤◌, ◌+◌, length, option_map, IfOk, OnOk, OnErr};
ghost use Rattle.jn_base.specs.declared.call.ByteCommand.TheVariants.{ReadBytes, WriteBytes};
ghost use Rattle.jn_base.specs.Limits.{block_size, most_file_bytes};
ghost use Rattle.jn_bytes.specs.Ranges.{SendsOfCall};
ghost use Rattle.jn_bytes.specs.Turns as turns;

use crate::answering::turn_at;
use crate::next::Next;
use crate::stage::{Stage, Turn};
use jn_base::{Answer, BlockNo, ByteCommand, ByteString, FileNo, Op};
use std::alloc::{AllocError, Global};
use std::marker::Model;

/// A read or a write of bytes of a file, made by operations on its blocks: contracts see what is asked, and which answer
/// is waited for.
///
/// Block 0 of a file of bytes has the four letters JBYT, the number of bytes in four bytes, highest first, at most
/// `MOST_FILE_BYTES`, and zeros; or it is all zeros, and there are no bytes. Byte o stands in block 1 + o / 448 at o modulo 448.
#[derive(Drop)]
pub struct ByteCall {
    call: ByteCommand,
    waits: Option<Stage>,
}

impl Model for ByteCall {
    ghost use Rattle.jn_bytes.specs.Ranges.{Fits, WaitFits};
    ghost use Rattle.jn_bytes.specs.Turns.{Calling};

    ghost Value = { Calling };

    ghost view = { λ c. record { call = c.call; waits = c.waits } };

    ghost invariant = { λ c. Fits c.call × WaitFits c.call c.waits };
}

impl ByteCall {
    /// A read of `count` bytes from byte `offset` on, or of as many as there are. Any numbers are answered.
    pub fn read(file: FileNo, offset: u32, count: u16) -> ByteCall
        ensures { result ≡ turns.begun (ReadBytes file offset count) }
    {
        ByteCall {
            call: ByteCommand::ReadBytes(file, offset, count),
            waits: None,
        }
    }

    /// A write of bytes from byte `offset` on: at most 448 of them, which end within the `MOST_FILE_BYTES` of a file.
    pub fn write(file: FileNo, offset: u32, bytes: ByteString) -> ByteCall
        requires few { length bytes ≤ block_size }
        requires within { offset + length bytes ≤ most_file_bytes }
        ensures { result ≡ turns.begun (WriteBytes file offset bytes) }
    {
        ByteCall {
            call: ByteCommand::WriteBytes(file, offset, bytes),
            waits: None,
        }
    }

    /// What the call does next, by the answer to the operation that it asked last; without one it begins, or begins anew.
    ///
    /// It reads block 0 first. A read then reads each block that has wanted bytes, from the first to the last. A write
    /// reads each block that it covers in part, from the first to the last, then writes each block that it touches, from
    /// the first to the last, and then block 0 if there are more bytes than before. Without memory it is as before.
    #[tactic(auto, using(crate::proofs::Ranges::turn_fits))]
    pub fn next(&mut self, alloc: Global, answer: Option<&Answer>) -> Result<Next, AllocError>
        ensures next { IfOk result (λ next. next ≡ turns.next_of (turns.turn_after self.old (option_map (λ a. a.now) answer.entry))) }
        ensures waits { OnOk result (self.new ≡ turns.waiting self.old (turns.turn_after self.old (option_map (λ a. a.now) answer.entry))) }
        ensures range { IfOk result (λ next. SendsOfCall self.old.call next) }
        ensures err { OnErr result (self.new ≡ self.old) }
    {
        let Some(answer) = answer else {
            return Ok(self.begin());
        };
        let Some(stage) = &mut self.waits else {
            return Ok(self.begin());
        };
        let turn = turn_at(alloc, &self.call, stage, answer)?;
        Ok(follow(&mut self.waits, turn))
    }

    /// The first turn.
    fn begin(&mut self) -> Next
        ensures next { result ≡ turns.next_of (turns.first_turn self.old.call) }
        ensures waits { self.new ≡ turns.waiting self.old (turns.first_turn self.old.call) }
        ensures range { SendsOfCall self.old.call result }
    {
        let file = match &self.call {
            ByteCommand::ReadBytes(file, _, _) => *file,
            ByteCommand::WriteBytes(file, _, _) => *file,
        };
        self.waits = Some(Stage::Length);
        Next::Send(Op::Read(file, BlockNo(0)))
    }
}

/// Goes on as a turn says.
fn follow(waits: &mut Option<Stage>, turn: Turn) -> Next
    ensures next { result ≡ turns.next_of turn }
    ensures waits { waits.new ≡ turns.waits_after turn }
{
    match turn {
        Turn::Sends(op, stage) => {
            *waits = Some(stage);
            Next::Send(op)
        }
        Turn::Over(next) => {
            *waits = None;
            next
        }
    }
}
