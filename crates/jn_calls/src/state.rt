//! Calls under way.

ghost use Rattle.std.specs.Prelude.{◌≡◌, ◌≤◌, length, IfOk, OnErr};
ghost use Rattle.jn_base.specs.declared.call.Call.TheVariants.{OfBytes, OfNames};
ghost use Rattle.jn_bytes.specs.Ranges.{Fits as BytesFit};
ghost use Rattle.jn_bytes.specs.Turns.{begun as bytes_begun};
ghost use Rattle.jn_names.specs.Calls.{Named};
ghost use Rattle.jn_names.specs.Names.{bucket_of};
ghost use Rattle.jn_names.specs.Turns.{begun as names_begun, read_bucket};
ghost use Rattle.jn_calls.specs.Calls.{Fits, IsNamed};
ghost use Rattle.jn_calls.specs.Turns.{begun, first_op, given, next_of_bytes, next_of_names, turn};
ghost use Rattle.jn_calls.specs.declared.state.CallState.TheVariants as states;

use crate::reply::{CallNext, Reply};
use jn_base::{Answer, BlockNo, ByteCommand, ByteString, Call, FileNo, NameCommand, Op};
use jn_bytes::{ByteCall, Next};
use jn_names::{NameCall, NameNext, bucket_of};
use std::alloc::{AllocError, Global};

/// A call, and which answer it waits for: contracts see both.
#[derive(Drop)]
pub enum CallState {
    OfBytes(ByteCall),
    OfNames(NameCall),
}

/// The first operation of a call: the read of block 0, or of the name's bucket.
pub fn first_op(call: &Call) -> Op
    requires { IsNamed call.now }
    ensures { result ≡ first_op call.now }
{
    match call {
        Call::OfBytes(ByteCommand::ReadBytes(file, _, _)) => Op::Read(*file, BlockNo(0)),
        Call::OfBytes(ByteCommand::WriteBytes(file, _, _)) => Op::Read(*file, BlockNo(0)),
        Call::OfNames(command) => first_of_names(command),
    }
}

fn first_of_names(command: &NameCommand) -> Op
    requires { Named command.now }
    ensures { result ≡ first_op (OfNames command.now) }
{
    match command {
        NameCommand::Bind(directory, name, _) => read_bucket(*directory, name),
        NameCommand::Unbind(directory, name) => read_bucket(*directory, name),
        NameCommand::Find(directory, name) => read_bucket(*directory, name),
        NameCommand::Names(directory) => Op::Read(*directory, BlockNo(0)),
    }
}

fn read_bucket(directory: FileNo, name: &ByteString) -> Op
    requires { length name.now ≤ 64 }
    ensures { result ≡ read_bucket directory (bucket_of name.now) }
{
    Op::Read(directory, BlockNo(bucket_of(name.as_slice())))
}

impl CallState {
    /// The call once its first operation is asked.
    pub fn begin(alloc: Global, call: &Call) -> Result<CallState, AllocError>
        requires { Fits call.now }
        ensures { IfOk result (λ state. state ≡ begun call.now) }
    {
        match call {
            Call::OfBytes(command) => begin_bytes(alloc, command),
            Call::OfNames(command) => begin_names(alloc, command),
        }
    }

    /// What the call does at the answer to the operation that it asked last: it asks the next one, or is over. Without
    /// memory it is as before.
    pub fn next(&mut self, alloc: Global, answer: &Answer) -> Result<CallNext, AllocError>
        ensures ok { IfOk result (λ next. (next, self.new) ≡ given self.old (turn self.old answer.now)) }
        ensures err { OnErr result (self.new ≡ self.old) }
    {
        match self {
            CallState::OfBytes(call) => next_of_bytes(call, alloc, answer),
            CallState::OfNames(call) => next_of_names(call, alloc, answer),
        }
    }
}

fn call_on_bytes(command: &ByteCommand) -> Result<ByteCall, AllocError>
    requires { BytesFit command.now }
    ensures { IfOk result (λ call. call ≡ bytes_begun command.now) }
{
    Ok(match command {
        ByteCommand::ReadBytes(file, offset, count) => ByteCall::read(*file, *offset, *count),
        ByteCommand::WriteBytes(file, offset, bytes) => {
            ByteCall::write(*file, *offset, bytes.copy()?)
        }
    })
}

#[tactic(auto, using(crate::proofs::Given::bytes_start))]
fn begin_bytes(alloc: Global, command: &ByteCommand) -> Result<CallState, AllocError>
    requires { BytesFit command.now }
    ensures { IfOk result (λ state. state ≡ begun (OfBytes command.now)) }
{
    let mut call = call_on_bytes(command)?;
    call.next(alloc, None)?;
    Ok(CallState::OfBytes(call))
}

fn call_on_names(command: &NameCommand) -> Result<NameCall, AllocError>
    requires { Named command.now }
    ensures { IfOk result (λ call. call ≡ names_begun command.now) }
{
    Ok(match command {
        NameCommand::Bind(directory, name, file) => {
            NameCall::bind(*directory, name.copy()?, *file)
        }
        NameCommand::Unbind(directory, name) => NameCall::unbind(*directory, name.copy()?),
        NameCommand::Find(directory, name) => NameCall::find(*directory, name.copy()?),
        NameCommand::Names(directory) => NameCall::names(*directory),
    })
}

fn begin_names(alloc: Global, command: &NameCommand) -> Result<CallState, AllocError>
    requires { Named command.now }
    ensures { IfOk result (λ state. state ≡ begun (OfNames command.now)) }
{
    let mut call = call_on_names(command)?;
    call.next(alloc, None)?;
    Ok(CallState::OfNames(call))
}

#[tactic(auto, using(crate::proofs::Given::bytes_given))]
fn next_of_bytes(
    call: &mut ByteCall,
    alloc: Global,
    answer: &Answer,
) -> Result<CallNext, AllocError>
    ensures ok { IfOk result (λ next. (next, states.OfBytes call.new) ≡ given (states.OfBytes call.old) (turn (states.OfBytes call.old) answer.now)) }
    ensures err { OnErr result (call.new ≡ call.old) }
{
    let next = call.next(alloc, Some(answer))?;
    Ok(of_bytes(next))
}

fn of_bytes(next: Next) -> CallNext
    ensures { result ≡ next_of_bytes next }
{
    match next {
        Next::Send(op) => CallNext::Send(op),
        Next::Done(bytes) => CallNext::Over(Reply::OfBytes(Next::Done(bytes))),
        Next::Did => CallNext::Over(Reply::OfBytes(Next::Did)),
        Next::Refused(refusal) => CallNext::Over(Reply::OfBytes(Next::Refused(refusal))),
    }
}

#[tactic(auto, using(crate::proofs::Given::names_given_out))]
fn next_of_names(
    call: &mut NameCall,
    alloc: Global,
    answer: &Answer,
) -> Result<CallNext, AllocError>
    ensures ok { IfOk result (λ next. (next, states.OfNames call.new) ≡ given (states.OfNames call.old) (turn (states.OfNames call.old) answer.now)) }
    ensures err { OnErr result (call.new ≡ call.old) }
{
    let next = call.next(alloc, Some(answer))?;
    Ok(of_names(next))
}

fn of_names(next: NameNext) -> CallNext
    ensures { result ≡ next_of_names next }
{
    match next {
        NameNext::Send(op) => CallNext::Send(op),
        NameNext::Did => CallNext::Over(Reply::OfNames(NameNext::Did)),
        NameNext::Found(file) => CallNext::Over(Reply::OfNames(NameNext::Found(file))),
        NameNext::Names(entries) => CallNext::Over(Reply::OfNames(NameNext::Names(entries))),
        NameNext::Refused(refusal) => CallNext::Over(Reply::OfNames(NameNext::Refused(refusal))),
    }
}
