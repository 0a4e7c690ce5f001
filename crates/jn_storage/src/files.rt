// Stored files seen through the list of a work that isn't prepared yet.
ghost use Rattle.std.specs.Prelude.{◌≡◌, ◌<◌, ◌+◌, ◌*◌, ◌^◌, ◌-◌, ◌/◌, length, count_by, nat_lt, slice_get, if◌then◌else◌, Some, None, IfOk};
ghost use Rattle.jn_base.specs.Limits.{most_blocks, head_blocks, most_maps};
ghost use Rattle.jn_order.specs.Files.{file_of, zeros};
ghost use Rattle.jn_records.specs.NetLists.{heads_of};
ghost use Rattle.jn_records.specs.MapPlaces as places;
ghost use Rattle.jn_base.specs.Ops.{block_of, BlockInRange};
ghost use Rattle.jn_storage.specs.Storage.{IsServing};
ghost use Rattle.jn_storage.specs.Orderly.{file_there, needed};
ghost use Rattle.jn_storage.specs.Calls.{state};
ghost use Rattle.jn_storage.specs.Viewing.{Viewed, ReadOrZeros};
ghost use Rattle.jn_records.specs.MapPlaces.{range_of, is_past_head};

use crate::{StoredFiles, ViewFault};
use jn_base::{Answer, Block, BlockContent, BlockNo, FileNo, HEAD_BLOCKS, MOST_MAPS, Op, Stopped};
use jn_records::{Intention, Need, NetList, What, finds_map, needs_head, puts_in};
use std::alloc::{AllocError, Global};

/// The answer to an operation on the files with the list's intentions carried out. The device is asked
/// only for a stored block of which the list says nothing, and only the bytes of a block take memory.
pub fn view<W: StoredFiles>(
    alloc: Global,
    net: &NetList,
    files: &mut W,
    op: &Op,
) -> Result<Answer, ViewFault>
    requires serving { IsServing (W.view files.old) }
    requires range { BlockInRange op.now }
    ensures viewed { Viewed net.now (W.view files.old) op.now result (W.view files.new) }
{
    let stored = files.file_there(file_of(op));
    if let Some(answer) = net.answer(alloc, op, stored)? {
        return Ok(answer);
    }
    let block = read_or_zeros(files, file_of(op), block_of(op))?;
    Ok(Answer::Read(BlockContent::from_block(alloc, &block)?))
}

/// What a list needs where it is prepared: a data page for each put, and a map page for each that finds none in its turn.
pub fn need<W: StoredFiles>(list: &[Intention], files: &W) -> Need
    requires serving { IsServing (W.view files.now) }
    requires length { 2 * length list.now < 2 ^ 32 }
    ensures { result ≡ needed (W.view files.now).accounts.maps (state (W.view files.now)) list.now }
{
    Need {
        records: list.len() as u32 + 1,
        heads: heads_needed(list, files),
        pages: puts_in(list) + maps_needed(list, files),
    }
}

/// Of each intention of a list that is prepared, whether it is a put that finds no map page in its turn.
pub fn lacking<W: StoredFiles>(
    alloc: Global,
    list: &[Intention],
    files: &W,
) -> Result<Vec<bool>, AllocError>
    requires serving { IsServing (W.view files.now) }
    ensures { IfOk result (λ flags. flags.items ≡ places.lacking (W.view files.now).accounts.maps list.now) }
{
    let mut flags = Vec::with_capacity(alloc, list.len())?;
    for k in 0..list.len() {
        flags.push(lacks_map(list, k, files))?;
    }
    Ok(flags)
}

/// How many puts of a list find no map page in their turn.
fn maps_needed<W: StoredFiles>(list: &[Intention], files: &W) -> u32
    requires serving { IsServing (W.view files.now) }
    requires length { length list.now < 2 ^ 32 }
    ensures { result ≡ count_by (λ b. b) (places.lacking (W.view files.now).accounts.maps list.now) }
{
    let mut maps = 0;
    for k in 0..list.len() {
        maps = count_if(maps, lacks_map(list, k, files));
    }
    maps
}

fn count_if(count: u32, is: bool) -> u32
    requires { count + 1 < 2 ^ 32 }
    ensures { result ≡ count + (if is then 1 else 0) }
{
    if is { count + 1 } else { count }
}

/// Whether an intention of a list is a put that finds no map page in its turn.
fn lacks_map<W: StoredFiles>(list: &[Intention], k: usize, files: &W) -> bool
    requires serving { IsServing (W.view files.now) }
    requires below { k < length list.now }
    ensures { slice_get (places.lacking (W.view files.now).accounts.maps list.now) k ≡ Some result }
{
    let intention = &list[k];
    let Some(map) = map_of(intention) else {
        return false;
    };
    !finds_map(list, k, has_map(files, intention.file, map))
}

/// Which map page of its file has the block of a put, where it isn't the head.
fn map_of(intention: &Intention) -> Option<usize>
    ensures { result ≡ (if is_past_head intention.now then Some (range_of intention.now.block.0) else None) }
{
    let block = usize::from(intention.block.0);
    if intention.what == What::Put && block >= HEAD_BLOCKS {
        Some(block / HEAD_BLOCKS - 1)
    } else {
        None
    }
}

fn has_map<W: StoredFiles>(files: &W, file: FileNo, map: usize) -> bool
    requires serving { IsServing (W.view files.now) }
    ensures { result ≡ (W.view files.now).accounts.maps file map }
{
    let Some(map) = map_number(map) else {
        return false;
    };
    files.map_there(file, map)
}

fn map_number(map: usize) -> Option<u8>
    ensures { result ≡ (if nat_lt map most_maps then Some map else None) }
{
    if map < MOST_MAPS {
        Some(map as u8)
    } else {
        None
    }
}

/// How many fresh files of a list aren't there.
fn heads_needed<W: StoredFiles>(list: &[Intention], files: &W) -> u32
    requires serving { IsServing (W.view files.now) }
    requires length { length list.now < 2 ^ 32 }
    ensures { result ≡ heads_of list.now (file_there (state (W.view files.now)).files) }
{
    let mut heads = 0;
    for intention in list {
        if needs_head(intention, files.file_there(intention.file)) {
            heads += 1;
        }
    }
    heads
}

fn file_of(op: &Op) -> FileNo
    ensures { result ≡ file_of op.now }
{
    match op {
        Op::Create(f) | Op::Remove(f) | Op::Cut(f, _) | Op::Read(f, _) | Op::Write(f, _, _) => *f,
    }
}

fn block_of(op: &Op) -> BlockNo
    ensures { result ≡ block_of op.now }
{
    match op {
        Op::Create(_) | Op::Remove(_) => BlockNo(0),
        Op::Cut(_, p) | Op::Read(_, p) | Op::Write(_, p, _) => *p,
    }
}

fn zeros() -> Block
    ensures { result ≡ zeros }
{
    [0; 448]
}

/// A stored block, or zeros where none is stored, without asking the device.
fn read_or_zeros<W: StoredFiles>(files: &mut W, f: FileNo, p: BlockNo) -> Result<Block, Stopped>
    requires serving { IsServing (W.view files.old) }
    requires range { p.0 < most_blocks }
    ensures read { ReadOrZeros (W.view files.old) f p result (W.view files.new) }
{
    if !files.mapped(f, p) {
        return Ok(zeros());
    }
    let block = files.read_block(f, p)?;
    Ok(block.unwrap_or(zeros()))
}
