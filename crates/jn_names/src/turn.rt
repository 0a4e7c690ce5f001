//! What a call asks next, by the answers so far.
ghost use Rattle.std.specs.Prelude.{◌≡◌, ◌<◌, ◌≤◌, length, IfOk, OnErr, Some, None, ℕ, List, if◌then◌else◌};
ghost use Rattle.jn_names.specs.declared.next.NameNext.TheVariants.{Refused};
ghost use Rattle.jn_names.specs.declared.next.NameRefusal.TheVariants.{BucketFull, NoName};
ghost use Rattle.jn_names.specs.declared.turn.Turn.TheVariants.{Over};
ghost use Rattle.jn_names.specs.Names.{bucket_of};
ghost use Rattle.jn_names.specs.Buckets.{Slot, bucket_in, bound_in, unbound_in, find_in};
ghost use Rattle.jn_names.specs.Calls.{directory_of, name_of, Named, found, or_refused, made_of, made_at};
ghost use Rattle.jn_names.specs.Places.{IsMade};
ghost use Rattle.jn_names.specs.Turns.{ask_each, first_turn, write_made, add_each, go_on, turn, given, StageFits, TurnFits, WaitsFits};

use crate::bucket::{add_entries, bind, find_name, is_bucket, unbind};
use crate::entry::Entries;
use crate::name::bucket_of;
use crate::next::{NameNext, NameRefusal};
use jn_base::{Answer, Block, BlockContent, BlockNo, FileNo, NameCommand, Op};
use std::alloc::{AllocError, Global};

/// The buckets of a directory.
const BUCKETS: u16 = 32;

/// Which answer a call waits for.
#[derive(Drop)]
pub enum Stage {
    /// That of reading the bucket of its name.
    Bucket,
    /// That of reading this bucket, with the entries of those before it.
    Each(u16, Entries),
    /// That of writing the bucket of its name.
    Write,
}

/// What a call does next.
#[derive(Drop)]
pub enum Turn {
    /// It asks for the operation, and waits for its answer.
    Sends(Op, Stage),
    /// It is over.
    Over(NameNext),
}

fn refused(refusal: NameRefusal) -> Turn
    ensures { result ≡ Over (Refused refusal) }
{
    Turn::Over(NameNext::Refused(refusal))
}

fn directory_of(command: &NameCommand) -> FileNo
    ensures { result ≡ directory_of command.now }
{
    match command {
        NameCommand::Bind(directory, _, _) => *directory,
        NameCommand::Unbind(directory, _) => *directory,
        NameCommand::Find(directory, _) => *directory,
        NameCommand::Names(directory) => *directory,
    }
}

fn bucket_of_name(command: &NameCommand) -> u16
    requires { Named command.now }
    ensures { result ≡ bucket_of (name_of command.now) }
{
    match command {
        NameCommand::Bind(_, name, _) => bucket_of(name.as_slice()),
        NameCommand::Unbind(_, name) => bucket_of(name.as_slice()),
        NameCommand::Find(_, name) => bucket_of(name.as_slice()),
        NameCommand::Names(_) => 0,
    }
}

/// The bucket is read, or there is none left.
#[tactic(auto, unfolding(crate::specs::Names::buckets))]
fn ask_each(directory: FileNo, bucket: u16, entries: Entries) -> Turn
    ensures { result ≡ ask_each directory bucket entries }
{
    if bucket < BUCKETS {
        Turn::Sends(
            Op::Read(directory, BlockNo(bucket)),
            Stage::Each(bucket, entries),
        )
    } else {
        Turn::Over(NameNext::Names(entries.into_ascending()))
    }
}

pub fn first_turn(alloc: Global, command: &NameCommand) -> Turn
    requires { Named command.now }
    ensures { result ≡ first_turn command.now }
{
    match command {
        NameCommand::Names(directory) => ask_each(*directory, 0, Entries::new(alloc)),
        NameCommand::Bind(_, _, _) | NameCommand::Unbind(_, _) | NameCommand::Find(_, _) => {
            Turn::Sends(
                Op::Read(directory_of(command), BlockNo(bucket_of_name(command))),
                Stage::Bucket,
            )
        }
    }
}

fn found(file: Option<FileNo>) -> NameNext
    ensures { result ≡ found file }
{
    match file {
        Some(file) => NameNext::Found(file.0),
        None => NameNext::Refused(NameRefusal::NoName),
    }
}

fn unless(put: bool, refusal: NameRefusal) -> Option<NameNext>
    ensures { result ≡ (if put then None else Some (Refused refusal)) }
{
    if put {
        None
    } else {
        Some(NameNext::Refused(refusal))
    }
}

fn bound(block: &mut Block, name: &[u8], file: FileNo) -> Option<NameNext>
    requires { length name.now ≤ 64 }
    ensures { (k : ℕ) (slots : List Slot) → bucket_in k block.old ≡ Some slots → IsMade (or_refused BucketFull (bound_in name.now file slots)) result block.new }
{
    let put = bind(block, name, file);
    unless(put, NameRefusal::BucketFull)
}

fn unbound(block: &mut Block, name: &[u8]) -> Option<NameNext>
    ensures { (k : ℕ) (slots : List Slot) → bucket_in k block.old ≡ Some slots → IsMade (or_refused NoName (unbound_in name.now slots)) result block.new }
{
    let put = unbind(block, name);
    unless(put, NameRefusal::NoName)
}

fn found_in(block: &Block, name: &[u8]) -> NameNext
    requires { 1 ≤ length name.now }
    ensures { (k : ℕ) (slots : List Slot) → bucket_in k block.now ≡ Some slots → result ≡ found (find_in name.now slots) }
{
    found(find_name(block, name))
}

/// None where the block is to be written as it is then, or a reply.
fn made_of(command: &NameCommand, block: &mut Block) -> Option<NameNext>
    requires { Named command.now }
    ensures { (k : ℕ) (slots : List Slot) → bucket_in k block.old ≡ Some slots → IsMade (made_of command.now slots) result block.new }
{
    match command {
        NameCommand::Bind(_, name, file) => bound(block, name.as_slice(), *file),
        NameCommand::Unbind(_, name) => unbound(block, name.as_slice()),
        NameCommand::Find(_, name) => Some(found_in(block, name.as_slice())),
        NameCommand::Names(_) => Some(NameNext::Did),
    }
}

/// The bucket of the name was read.
fn by_bucket(alloc: Global, command: &NameCommand, block: &Block) -> Result<Turn, AllocError>
    requires { Named command.now }
    ensures { IfOk result (λ t. t ≡ write_made command.now (made_at command.now (bucket_in (bucket_of (name_of command.now)) block.now))) }
{
    let bucket = bucket_of_name(command);
    if !is_bucket(block, bucket) {
        return Ok(refused(NameRefusal::NotDirectory));
    }
    let mut now = *block;
    match made_of(command, &mut now) {
        Some(reply) => Ok(Turn::Over(reply)),
        None => Ok(Turn::Sends(
            Op::Write(
                directory_of(command),
                BlockNo(bucket),
                BlockContent::from_block(alloc, &now)?,
            ),
            Stage::Write,
        )),
    }
}

/// One of all buckets was read. Without memory the entries are as they were.
fn add_each(
    alloc: Global,
    directory: FileNo,
    bucket: u16,
    entries: &mut Entries,
    block: &Block,
) -> Result<Turn, AllocError>
    requires { bucket < 32 }
    ensures ok { IfOk result (λ t. t ≡ add_each directory bucket entries.old (bucket_in bucket block.now)) }
    ensures err { OnErr result (entries.new ≡ entries.old) }
{
    if !is_bucket(block, bucket) {
        return Ok(refused(NameRefusal::NotDirectory));
    }
    let mut others = Entries::new(alloc);
    add_entries(&mut others, block)?;
    let all = entries.take_with(alloc, others)?;
    Ok(ask_each(directory, bucket + 1, all))
}

#[tactic(auto, unfolding(crate::specs::Names::buckets))]
fn go_on(
    alloc: Global,
    command: &NameCommand,
    stage: &mut Stage,
    block: &Block,
) -> Result<Turn, AllocError>
    requires { Named command.now × StageFits stage.old }
    ensures ok { IfOk result (λ t. t ≡ go_on command.now stage.old block.now) }
    ensures err { OnErr result (stage.new ≡ stage.old) }
{
    match stage {
        Stage::Bucket => by_bucket(alloc, command, block),
        Stage::Each(bucket, entries) => add_each(
            alloc,
            directory_of(command),
            *bucket,
            entries,
            block,
        ),
        Stage::Write => Ok(Turn::Over(NameNext::Did)),
    }
}

/// What a call does at the answer that it waits for. Without memory it waits for it as before.
pub fn turn_at(
    alloc: Global,
    command: &NameCommand,
    stage: &mut Stage,
    answer: &Answer,
) -> Result<Turn, AllocError>
    requires { Named command.now × StageFits stage.old }
    ensures ok { IfOk result (λ t. t ≡ turn command.now stage.old answer.now) }
    ensures err { OnErr result (stage.new ≡ stage.old) }
{
    match answer {
        Answer::Did => go_on(alloc, command, stage, &[0; 448]),
        Answer::Read(content) => go_on(alloc, command, stage, &content.to_block()),
        _ => Ok(refused(NameRefusal::Operation(answer.copy()?))),
    }
}

/// Waits as a turn says, and gives out what it gives.
pub fn follow(waits: &mut Option<Stage>, turn: Turn) -> NameNext
    requires { TurnFits turn }
    ensures given { (result, waits.new) ≡ given turn }
    ensures fits { WaitsFits waits.new }
{
    match turn {
        Turn::Sends(op, stage) => {
            *waits = Some(stage);
            NameNext::Send(op)
        }
        Turn::Over(reply) => {
            *waits = None;
            reply
        }
    }
}
