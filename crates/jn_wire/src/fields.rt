//! Fields read from the front of bytes, each number with its highest byte first.
ghost use Rattle.std.specs.Prelude.{◌≡◌};
ghost use Rattle.jn_wire.specs.Fields.{Gives, block, byte, client, content, file, number, request, resource, sender, tid, unit, work, works, works_from};

use jn_base::{
    BlockContent, BlockNo, ClientNo, FileNo, LockUnit, MOST_BLOCKS, RequestNo, Resource, Tid,
    WorkId,
};
use jn_fields::Field;
use jn_msgs::Works;
use std::alloc::{AllocError, AllocFailed, Global};

/// Why a field isn't read: the number of its fault, or there is no memory.
#[derive(Clone, Copy, Debug, PartialEq, Eq, Drop)]
pub enum ReadFault {
    Wrong(u8),
    Memory,
}

impl From<AllocError> for ReadFault {
    ghost use Rattle.jn_wire.specs.declared.fields.ReadFault.TheVariants.{Memory};

    ghost from_gives = { λ _ e. e ≡ Memory };

    fn from(_e: AllocError) -> ReadFault {
        ReadFault::Memory
    }
}

impl<T: Drop> From<AllocFailed<T>> for ReadFault {
    ghost use Rattle.jn_wire.specs.declared.fields.ReadFault.TheVariants.{Memory};

    ghost from_gives = { λ _ e. e ≡ Memory };

    fn from(_e: AllocFailed<T>) -> ReadFault {
        ReadFault::Memory
    }
}

/// Too few bytes, or too many.
pub const WRONG_LENGTH: u8 = 2;

/// A party that there isn't, that doesn't send such a message, or that isn't the receiver.
pub const WRONG_PARTY: u8 = 3;

/// A kind that no server takes.
pub const WRONG_KIND: u8 = 4;

pub const OUT_OF_RANGE: u8 = 5;

#[tactic(auto, unfolding(crate::specs::Fields::byte))]
pub fn byte(bytes: &[u8]) -> Result<(u8, &[u8]), ReadFault>
    ensures { Gives (λ r. (r.0, r.1.now)) result (byte bytes.now) }
{
    match bytes {
        [] => Err(ReadFault::Wrong(WRONG_LENGTH)),
        [first, rest @ ..] => Ok((*first, rest)),
    }
}

#[tactic(auto, unfolding(crate::specs::Fields::number))]
pub fn u16_at(bytes: &[u8]) -> Result<(u16, &[u8]), ReadFault>
    ensures { Gives (λ r. (r.0, r.1.now)) result (number 2 bytes.now) }
{
    jn_fields::u16_at(bytes).ok_or(ReadFault::Wrong(WRONG_LENGTH))
}

#[tactic(auto, unfolding(crate::specs::Fields::number))]
pub fn u32_at(bytes: &[u8]) -> Result<(u32, &[u8]), ReadFault>
    ensures { Gives (λ r. (r.0, r.1.now)) result (number 4 bytes.now) }
{
    jn_fields::u32_at(bytes).ok_or(ReadFault::Wrong(WRONG_LENGTH))
}

/// The 448 bytes of a block.
#[tactic(auto, unfolding(crate::specs::Fields::content, jn_fields::specs::Reading::bytes_at))]
pub fn content(alloc: Global, bytes: &[u8]) -> Result<(BlockContent, &[u8]), ReadFault>
    ensures { Gives (λ r. (r.0, r.1.now)) result (content bytes.now) }
{
    let Some((block, rest)) = bytes.split_first_chunk::<448>() else {
        return Err(ReadFault::Wrong(WRONG_LENGTH));
    };
    Ok((BlockContent::from_block(alloc, block)?, rest))
}

/// A client, 1 to 8.
#[tactic(auto, unfolding(crate::specs::Fields::client))]
pub fn client(bytes: &[u8]) -> Result<(ClientNo, &[u8]), ReadFault>
    ensures { Gives (λ r. (r.0, r.1.now)) result (client bytes.now) }
{
    let (n, rest) = byte(bytes)?;
    if 1 <= n && n <= 8 {
        Ok((ClientNo(n), rest))
    } else {
        Err(ReadFault::Wrong(OUT_OF_RANGE))
    }
}

/// The client that sends the frame.
#[tactic(auto, unfolding(crate::specs::Fields::sender))]
pub fn sender(from: ClientNo, bytes: &[u8]) -> Result<(ClientNo, &[u8]), ReadFault>
    ensures { Gives (λ r. (r.0, r.1.now)) result (sender from bytes.now) }
{
    let (named, rest) = client(bytes)?;
    if named.0 == from.0 {
        Ok((named, rest))
    } else {
        Err(ReadFault::Wrong(OUT_OF_RANGE))
    }
}

#[tactic(auto, unfolding(crate::specs::Fields::request))]
pub fn request(bytes: &[u8]) -> Result<(RequestNo, &[u8]), ReadFault>
    ensures { Gives (λ r. (r.0, r.1.now)) result (request bytes.now) }
{
    let (n, rest) = u32_at(bytes)?;
    Ok((RequestNo(n), rest))
}

/// A name is one field of 9 bytes.
#[tactic(auto, unfolding(crate::specs::Fields::tid))]
pub fn tid(bytes: &[u8]) -> Result<(Tid, &[u8]), ReadFault>
    ensures { Gives (λ r. (r.0, r.1.now)) result (tid bytes.now) }
{
    let (tid, rest) = Tid::at(bytes).ok_or(ReadFault::Wrong(WRONG_LENGTH))?;
    if tid.server.0 <= 7 {
        Ok((tid, rest))
    } else {
        Err(ReadFault::Wrong(OUT_OF_RANGE))
    }
}

#[tactic(auto, unfolding(crate::specs::Fields::work))]
pub fn work(bytes: &[u8]) -> Result<(WorkId, &[u8]), ReadFault>
    ensures { Gives (λ r. (r.0, r.1.now)) result (work bytes.now) }
{
    let (work, rest) = WorkId::at(bytes).ok_or(ReadFault::Wrong(WRONG_LENGTH))?;
    if work.server.0 <= 7 {
        Ok((work, rest))
    } else {
        Err(ReadFault::Wrong(OUT_OF_RANGE))
    }
}

/// At most 8 names, behind their count.
#[tactic(auto, unfolding(crate::specs::Fields::works))]
pub fn works(alloc: Global, bytes: &[u8]) -> Result<(Works, &[u8]), ReadFault>
    ensures { Gives (λ r. (r.0, r.1.now)) result (works bytes.now) }
{
    let (count, rest) = byte(bytes)?;
    if count > 8 {
        return Err(ReadFault::Wrong(OUT_OF_RANGE));
    }
    let (items, rest) = works_from(alloc, count, rest)?;
    Ok((Works::from_vec(items), rest))
}

#[tactic(auto, unfolding(crate::specs::Fields::file))]
pub fn file(bytes: &[u8]) -> Result<(FileNo, &[u8]), ReadFault>
    ensures { Gives (λ r. (r.0, r.1.now)) result (file bytes.now) }
{
    let (n, rest) = u32_at(bytes)?;
    Ok((FileNo(n), rest))
}

#[tactic(auto, unfolding(crate::specs::Fields::block))]
pub fn block(bytes: &[u8]) -> Result<(BlockNo, &[u8]), ReadFault>
    ensures { Gives (λ r. (r.0, r.1.now)) result (block bytes.now) }
{
    let (n, rest) = u16_at(bytes)?;
    if n < MOST_BLOCKS {
        Ok((BlockNo(n), rest))
    } else {
        Err(ReadFault::Wrong(OUT_OF_RANGE))
    }
}

/// A file, or a block of it.
#[tactic(auto, unfolding(crate::specs::Fields::unit))]
pub fn unit(bytes: &[u8]) -> Result<(LockUnit, &[u8]), ReadFault>
    ensures { Gives (λ r. (r.0, r.1.now)) result (unit bytes.now) }
{
    let (unit, rest) = LockUnit::at(bytes).ok_or(ReadFault::Wrong(WRONG_LENGTH))?;
    match unit {
        LockUnit::Block(_, block) if block.0 >= MOST_BLOCKS => Err(ReadFault::Wrong(OUT_OF_RANGE)),
        _ => Ok((unit, rest)),
    }
}

#[tactic(auto, unfolding(crate::specs::Fields::resource))]
pub fn resource(bytes: &[u8]) -> Result<(Resource, &[u8]), ReadFault>
    ensures { Gives (λ r. (r.0, r.1.now)) result (resource bytes.now) }
{
    let (n, rest) = byte(bytes)?;
    match n {
        31 => Ok((Resource::Records, rest)),
        32 => Ok((Resource::Pages, rest)),
        33 => Ok((Resource::Heads, rest)),
        _ => Err(ReadFault::Wrong(OUT_OF_RANGE)),
    }
}

/// So many names.
#[tactic(auto, unfolding(crate::specs::Fields::works_from))]
fn works_from(alloc: Global, count: u8, bytes: &[u8]) -> Result<(Vec<WorkId>, &[u8]), ReadFault>
    ensures { Gives (λ r. (r.0.items, r.1.now)) result (works_from count bytes.now) }
{
    let mut items = Vec::with_capacity(alloc, count as usize)?;
    let mut rest = bytes;
    for _ in 0..count {
        let (first, behind) = work(rest)?;
        items.push(first)?;
        rest = behind;
    }
    Ok((items, rest))
}
