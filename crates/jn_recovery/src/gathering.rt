//! What a storage keeps in memory, from what stands on its store.
ghost use Rattle.std.specs.Prelude.{◌≡◌, ◌<◌, ◌^◌, All, IfOk, length};
ghost use Rattle.jn_files.specs.Calls.{with_promised_heads};
ghost use Rattle.jn_files.specs.Table.{IsTable};
ghost use Rattle.jn_page_state.specs.Contents as contents;
ghost use Rattle.jn_recovery.specs.Gathering.{state_on, works_on, flags_on, IsFew, MayHold, HoldsNamed, MayHoldAt, held_at, HoldsBoth, both_held, all_needed, MayPromise, IsGathered};
ghost use Rattle.jn_recovery.specs.Pages.{heads_needed};
ghost use Rattle.jn_recovery.specs.Matches.{flag_on};
ghost use Rattle.jn_sets.specs.Pool.{record_in};

use crate::opening::Opened;
use jn_base::{LockUnit, ServerNo, WorkId};
use jn_files::FileTable;
use jn_records::{Flag, ListOf, Record, StoredIntention, What, WorkHead, WorkState};
use jn_sets::Sets;
use std::alloc::{AllocError, Global};

/// What a storage keeps beside its store.
#[derive(Drop)]
pub struct Kept {
    pub server: ServerNo,
    pub epoch: u32,
    pub sets: Sets,
    pub table: FileTable,
    pub works: Vec<WorkState>,
    pub flags: Vec<Flag>,
}

/// Collects the works and the flags, holds the works' data pages, and promises them their heads.
pub(crate) fn gather(alloc: Global, opened: Opened, epoch: u32) -> Result<Kept, AllocError>
    requires hold { MayHold opened.table opened.sets }
    requires promise { MayPromise opened.table (works_on opened.sets) }
    ensures server { IfOk result (λ k. k.server ≡ opened.root.server) }
    ensures epoch { IfOk result (λ k. k.epoch ≡ epoch) }
    ensures sets { IfOk result (λ k. k.sets ≡ opened.sets) }
    ensures works { IfOk result (λ k. k.works.items ≡ works_on opened.sets) }
    ensures flags { IfOk result (λ k. k.flags.items ≡ flags_on opened.sets) }
    ensures table { IfOk result (λ k. IsGathered opened.table opened.sets k.table) }
    ensures is_table { IfOk result (λ k. IsTable k.table) }
{
    let Opened {
        root,
        sets,
        mut table,
    } = opened;
    let works = collect_works(alloc, &sets)?;
    let flags = collect_flags(alloc, &sets)?;
    hold_pages(&mut table, &sets);
    promise_all(&mut table, &works);
    table.is_table();
    Ok(Kept {
        server: root.server,
        epoch,
        sets,
        table,
        works,
        flags,
    })
}

/// The prepared works, none of which is carried out yet.
fn collect_works(alloc: Global, sets: &Sets) -> Result<Vec<WorkState>, AllocError>
    ensures { IfOk result (λ works. works.items ≡ works_on sets.now) }
{
    let mut works = Vec::new(alloc);
    for slot in 0..sets.slots() {
        if let Some(state) = state_in(alloc, sets, record_at(sets, slot))? {
            works.push(state)?;
        }
    }
    Ok(works)
}

/// The work of a ready or going record.
fn state_in(alloc: Global, sets: &Sets, value: &Record) -> Result<Option<WorkState>, AllocError>
    ensures { IfOk result (λ state. state ≡ state_on sets.now value.now) }
{
    match value {
        Record::Ready {
            head,
            intentions,
            reads,
        } => {
            let state = state_with(alloc, sets, *head, *intentions, reads.as_slice(), false)?;
            Ok(Some(state))
        }
        Record::Going {
            head,
            intentions,
            reads,
        } => {
            let state = state_with(alloc, sets, *head, *intentions, reads.as_slice(), true)?;
            Ok(Some(state))
        }
        _ => Ok(None),
    }
}

/// A work with so many intentions, by their places.
fn state_with(
    alloc: Global,
    sets: &Sets,
    head: WorkHead,
    count: u8,
    reads: &[LockUnit],
    going: bool,
) -> Result<WorkState, AllocError>
    ensures { IfOk result (λ state. state ≡ record { head = head; list = contents.stored_list sets.now head.work count; reads = reads.now; going = going; next = 0 }) }
{
    let list = collect_list(alloc, sets, head.work, count)?;
    let reads = reads.to_vec(alloc)?;
    Ok(WorkState {
        head,
        list: ListOf::from_vec(list),
        reads: ListOf::from_vec(reads),
        going,
        next: 0,
    })
}

/// So many intentions of a work, by their places.
fn collect_list(
    alloc: Global,
    sets: &Sets,
    work: WorkId,
    count: u8,
) -> Result<Vec<StoredIntention>, AllocError>
    ensures { IfOk result (λ list. list.items ≡ contents.stored_list sets.now work count) }
{
    let mut list = Vec::new(alloc);
    for order in 0..count {
        if let Some(intention) = intention_of(sets, work, order) {
            list.push(intention)?;
        }
    }
    Ok(list)
}

/// The intention of a work at a place among them.
fn intention_of(sets: &Sets, work: WorkId, order: u8) -> Option<StoredIntention>
    ensures { result ≡ contents.intention_of sets.now work order }
{
    let slot = sets.intention_slot(work, order)?;
    stored_in(record_at(sets, slot))
}

fn stored_in(value: &Record) -> Option<StoredIntention>
    ensures { result ≡ contents.stored_in value.now }
{
    match value {
        Record::Intention { intention, .. } => Some(*intention),
        _ => None,
    }
}

fn record_at(sets: &Sets, slot: u16) -> &Record
    requires { slot < length sets.now }
    ensures { result.now ≡ record_in sets.now slot }
{
    let Some(value) = sets.record(slot) else {
        unreachable!()
    };
    value
}

/// The flags.
pub(crate) fn collect_flags(alloc: Global, sets: &Sets) -> Result<Vec<Flag>, AllocError>
    ensures { IfOk result (λ flags. flags.items ≡ flags_on sets.now) }
{
    let mut flags = Vec::new(alloc);
    for slot in 0..sets.slots() {
        if let Some(flag) = flag_in(alloc, record_at(sets, slot))? {
            flags.push(flag)?;
        }
    }
    Ok(flags)
}

/// The flag of a record.
fn flag_in(alloc: Global, value: &Record) -> Result<Option<Flag>, AllocError>
    ensures { IfOk result (λ flag. flag ≡ flag_on value.now) }
{
    match value {
        Record::Flag(flag) => {
            let works = flag.works.as_slice().to_vec(alloc)?;
            Ok(Some(Flag {
                tid: flag.tid,
                client: flag.client,
                request: flag.request,
                works: ListOf::from_vec(works),
            }))
        }
        _ => Ok(None),
    }
}

/// Holds the data pages and the map pages of the intentions, all of which are of prepared works.
fn hold_pages(table: &mut FileTable, sets: &Sets)
    requires { MayHold table.old sets.now }
    ensures { HoldsNamed table.old sets.now table.new }
{
    for slot in 0..sets.slots() {
        hold_both(table, record_at(sets, slot));
    }
}

/// Holds both pages of an intention's record.
fn hold_both(table: &mut FileTable, value: &Record)
    requires { HoldsBoth table.old value.now }
    ensures { table.new ≡ both_held table.old value.now }
{
    if let Record::Intention { intention, .. } = value {
        hold_page(table, intention.address);
        hold_page(table, intention.map);
    }
}

/// Holds the data page of an address, where there is one.
fn hold_page(table: &mut FileTable, address: u16)
    requires { MayHoldAt table.old address }
    ensures { table.new ≡ held_at table.old address }
{
    if address > 0 {
        table.hold(address - 1);
    }
}

/// Promises the works the heads of their fresh files.
fn promise_all(table: &mut FileTable, works: &[WorkState])
    requires { MayPromise table.old works.now }
    ensures { table.new ≡ with_promised_heads table.old (all_needed table.old.heads works.now) }
{
    let heads = all_heads_needed(table, works);
    let Ok(()) = table.promise_heads(heads) else {
        unreachable!()
    };
}

/// How many fresh files of the works have no head.
fn all_heads_needed(table: &FileTable, works: &[WorkState]) -> u32
    requires few { All IsFew works.now }
    requires fits { all_needed table.now.heads works.now < 2 ^ 32 }
    ensures { result ≡ all_needed table.now.heads works.now }
{
    let mut heads = 0;
    for state in works {
        heads += heads_needed(table, state.list.as_slice());
    }
    heads
}

/// How many fresh files of a list have no head.
pub fn heads_needed(table: &FileTable, list: &[StoredIntention]) -> u32
    requires { length list.now < 2 ^ 32 }
    ensures { result ≡ heads_needed table.now.heads list.now }
{
    let mut heads = 0;
    for intention in list {
        if intention.what == What::Fresh && !table.exists(intention.file) {
            heads += 1;
        }
    }
    heads
}
