//! What a call does at an answer.

ghost use Rattle.std.specs.Prelude.{◌≡◌, IfOk, OnErr};
ghost use Rattle.jn_base.specs.declared.call.ByteCommand.TheVariants.{ReadBytes, WriteBytes};
ghost use Rattle.jn_bytes.specs.Ranges.{Fits, StageFits};
ghost use Rattle.jn_bytes.specs.Turns as turns;

use crate::block::length_in;
use crate::next::{ByteRefusal, Next};
use crate::ops::Ops;
use crate::reading::{read_of, read_on};
use crate::stage::{Stage, Turn};
use crate::writing::{first_read, second_read, write_all, write_of};
use jn_base::{Answer, Block, ByteCommand, FileNo};
use std::alloc::{AllocError, Global};
use std::mem::replace;

/// The turn at an answer. Without memory the stage is as it was.
pub fn turn_at(
    alloc: Global,
    call: &ByteCommand,
    stage: &mut Stage,
    answer: &Answer,
) -> Result<Turn, AllocError>
    requires { Fits call.now × StageFits call.now stage.old }
    ensures ok { IfOk result (λ turn. turn ≡ turns.turn call.now stage.old answer.now) }
    ensures err { OnErr result (stage.new ≡ stage.old) }
{
    match block_given(answer) {
        Some(read) => go_on(alloc, call, stage, &read),
        None => {
            let refused = ByteRefusal::Operation(answer.copy()?);
            Ok(Turn::Over(Next::Refused(refused)))
        }
    }
}

/// What an answer gives of a block, if it refuses nothing.
#[tactic(auto, using(crate::proofs::Sized::sized_same, crate::proofs::Sized::sized_zeros))]
fn block_given(answer: &Answer) -> Option<Block>
    ensures { result ≡ turns.block_given answer.now }
{
    match answer {
        Answer::Did => Some([0; 448]),
        Answer::Read(content) => Some(content.to_block()),
        _ => None,
    }
}

/// The turn by the block that was read.
fn go_on(
    alloc: Global,
    call: &ByteCommand,
    stage: &mut Stage,
    read: &Block,
) -> Result<Turn, AllocError>
    requires { Fits call.now × StageFits call.now stage.old }
    ensures ok { IfOk result (λ turn. turn ≡ turns.go_on call.now stage.old read.now) }
    ensures err { OnErr result (stage.new ≡ stage.old) }
{
    match call {
        ByteCommand::ReadBytes(file, offset, count) => go_on_reading(
            alloc, *file, *offset, *count, stage, read,
        ),
        ByteCommand::WriteBytes(file, offset, bytes) => go_on_writing(
            alloc,
            *file,
            *offset,
            bytes.as_slice(),
            stage,
            read,
        ),
    }
}

fn go_on_reading(
    alloc: Global,
    file: FileNo,
    offset: u32,
    count: u16,
    stage: &mut Stage,
    read: &Block,
) -> Result<Turn, AllocError>
    requires { StageFits (ReadBytes file offset count) stage.old }
    ensures ok { IfOk result (λ turn. turn ≡ turns.go_on (ReadBytes file offset count) stage.old read.now) }
    ensures err { OnErr result (stage.new ≡ stage.old) }
{
    match stage {
        Stage::Length => match length_in(read) {
            None => Ok(Turn::Over(Next::Refused(ByteRefusal::NotBytes))),
            Some(length) => read_of(alloc, file, offset, count, length),
        },
        Stage::Block(block, from, left, bytes) => read_on(
            alloc, file, *block, *from, *left, bytes, read,
        ),
        _ => Ok(Turn::Over(Next::Refused(ByteRefusal::NotBytes))),
    }
}

fn go_on_writing(
    alloc: Global,
    file: FileNo,
    offset: u32,
    bytes: &[u8],
    stage: &mut Stage,
    read: &Block,
) -> Result<Turn, AllocError>
    requires { Fits (WriteBytes file offset bytes.now) × StageFits (WriteBytes file offset bytes.now) stage.old }
    ensures ok { IfOk result (λ turn. turn ≡ turns.go_on (WriteBytes file offset bytes.now) stage.old read.now) }
    ensures err { OnErr result (stage.new ≡ stage.old) }
{
    match stage {
        Stage::Length => match length_in(read) {
            None => Ok(Turn::Over(Next::Refused(ByteRefusal::NotBytes))),
            Some(length) => write_of(alloc, file, offset, bytes, length),
        },
        Stage::First(length) => first_read(alloc, file, offset, bytes, *length, read),
        Stage::Second(length, first) => second_read(
            alloc, file, offset, bytes, *length, first, read,
        ),
        Stage::Write(ops) => Ok(write_all(replace(ops, Ops::new(alloc)))),
        _ => Ok(Turn::Over(Next::Refused(ByteRefusal::NotBytes))),
    }
}
