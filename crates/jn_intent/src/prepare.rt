//! The preparation of a work.
ghost use Rattle.std.specs.Prelude.{◌≡◌, ◌<◌, ◌≤◌, ◌+◌, ◌-◌, ℕ, true, if◌then◌else◌, is_ok, [], length, vec_len, vec_capacity, IfOk, MatchResult, None, Some};
ghost use Rattle.jn_alloc.specs.Free.{free_count as free_numbers};
ghost use Rattle.jn_files.specs.Table.{IsTable};
ghost use Rattle.jn_files.specs.Calls.{HasPagesOfTable, with_promised_heads, with_promised_leaves};
ghost use Rattle.jn_records.specs.NetLists.{Plain, is_put};
ghost use Rattle.jn_sets.specs.Pool.{free_count};
ghost use Rattle.jn_storage.specs.Storage.{IsServing};
ghost use Rattle.jn_records.specs.MapPlaces.{is_past_head};
ghost use Rattle.jn_storage.specs.Calls.{MayPrepare, WorkPrepared, shortage, short_of};
ghost use Rattle.jn_store.specs.Store.{StoreView};
ghost use Rattle.jn_recovery.specs.Memory.{Memory, accounts_of};
ghost use Rattle.jn_intent.specs.Preparing.{FillsPage, BlockStored, TakesPage, TakesMap, IntentionStored, Begins, ListStored};

use crate::Intents;
use jn_base::{Block, LockUnit, Short, Stopped};
use jn_files::FileTable;
use jn_records::{Intention, ListOf, Need, Record, StoredIntention, What, WorkHead, WorkState};
use jn_sets::{Sets, record_fits};
use jn_storage::{PrepareFault, Storage, lacking, need};
use jn_store::StableStore;
use std::alloc::{AllocError, Global};

/// Room in memory for what a preparation stores.
#[derive(Drop)]
struct PreparedRoom {
    list: Vec<StoredIntention>,
    reads: Vec<LockUnit>,
    listed: Vec<LockUnit>,
}

impl<S: StableStore> Intents<S> {
    /// Stores a work with its list and what it read, as ready. It takes all its memory before it reaches the device.
    pub(crate) fn prepare_work(
        &mut self,
        alloc: Global,
        head: &WorkHead,
        list: &[Intention],
        reads: &[LockUnit],
    ) -> Result<(), PrepareFault>
        requires serving { IsServing (⟦<Intents<S> as Storage>⟧.view self.old) }
        requires may { MayPrepare (⟦<Intents<S> as Storage>⟧.view self.old) head.now list.now reads.now }
        ensures prepared { WorkPrepared (⟦<Intents<S> as Storage>⟧.view self.old) head.now list.now reads.now result (⟦<Intents<S> as Storage>⟧.view self.new) }
    {
        let need = need(list, self);
        self.test_room(&need)?;
        let lacks = lacking(alloc, list, self)?;
        self.works.reserve(1)?;
        let mut room = room_for(alloc, list, reads)?;
        promise(&mut self.table, need.heads);
        let Ok(()) = store_all(
            &mut self.store,
            &mut self.sets,
            &mut self.table,
            head,
            list,
            &lacks,
            &mut room.list,
        ) else {
            return Err(PrepareFault::Stopped);
        };
        let record = Record::Ready {
            head: *head,
            intentions: list.len() as u8,
            reads: ListOf::from_vec(room.reads),
        };
        record_fits(&record);
        let Ok(_slot) = self.sets.insert(&mut self.store, record) else {
            return Err(PrepareFault::Stopped);
        };
        self.works.push_reserved(WorkState {
            head: *head,
            list: ListOf::from_vec(room.list),
            reads: ListOf::from_vec(room.listed),
            going: false,
            next: 0,
        });
        Ok(())
    }

    /// Whether enough is free and not promised.
    fn test_room(&self, need: &Need) -> Result<(), PrepareFault>
        requires { self.now.1.promised ≤ free_count self.now.1.records }
        ensures { MatchResult result (λ _. shortage (accounts_of self.now.1) need.now ≡ None) (λ fault. shortage (accounts_of self.now.1) need.now ≡ Some fault) }
    {
        let records = self.sets.free() - self.rooms.len() as u32;
        if records < need.records {
            return Err(PrepareFault::Records(short(records, need.records)));
        }
        let pages = self.table.leaves().free();
        if pages < need.pages {
            return Err(PrepareFault::Pages(short(pages, need.pages)));
        }
        let heads = self.table.heads().free() - self.table.heads().promised();
        if heads < need.heads {
            return Err(PrepareFault::Heads(short(heads, need.heads)));
        }
        Ok(())
    }
}

fn short(free: u32, need: u32) -> Short
    ensures { result ≡ short_of free need }
{
    Short { free, need }
}

/// Room for the intentions as they are stored, and the read units twice.
fn room_for(
    alloc: Global,
    list: &[Intention],
    reads: &[LockUnit],
) -> Result<PreparedRoom, AllocError>
    ensures empty { IfOk result (λ room. room.list.items ≡ []) }
    ensures enough { IfOk result (λ room. length list.now ≤ vec_capacity room.list) }
    ensures reads { IfOk result (λ room. room.reads.items ≡ reads.now) }
    ensures listed { IfOk result (λ room. room.listed.items ≡ reads.now) }
{
    Ok(PreparedRoom {
        list: Vec::with_capacity(alloc, list.len())?,
        reads: Vec::from_slice(alloc, reads)?,
        listed: Vec::from_slice(alloc, reads)?,
    })
}

/// Promises so many heads. No data page stays promised: a prepared work has its own already.
fn promise(table: &mut FileTable, heads: u32)
    requires { heads ≤ free_numbers table.old.free_heads - table.old.free_heads.promised }
    ensures promised { table.new ≡ with_promised_leaves (with_promised_heads table.old (table.old.free_heads.promised + heads)) 0 }
    ensures table { IsTable table.new }
{
    let Ok(()) = table.promise_heads(heads) else {
        unreachable!()
    };
    let pages = table.leaves().promised();
    table.release_leaves(pages);
    table.is_table();
}

/// Stores the intentions of a work one after another. The flags say of each whether it lacks its map page in its turn.
fn store_all<S: StableStore>(
    store: &mut S,
    sets: &mut Sets,
    table: &mut FileTable,
    head: &WorkHead,
    list: &[Intention],
    lacks: &[bool],
    stored: &mut Vec<StoredIntention>,
) -> Result<(), Stopped>
    requires begins { (m : Memory) × (v : StoreView) × Begins m v head.now.work list.now lacks.now sets.old table.old (S.view store.old) }
    requires flags { length lacks.now ≡ length list.now }
    requires empty { stored.old.items ≡ [] }
    requires room { length list.now ≤ vec_capacity stored.old }
    ensures { (m : Memory) (v : StoreView) → Begins m v head.now.work list.now lacks.now sets.old table.old (S.view store.old)
        → ListStored m v head.now.work list.now lacks.now (is_ok result) stored.new.items sets.new table.new (S.view store.new) }
{
    for (order, intention) in list.iter().enumerate() {
        let put = store_one(
            store,
            sets,
            table,
            head,
            order as u8,
            intention,
            lacks[order],
        )?;
        stored.push_reserved(put);
    }
    Ok(())
}

/// Stores one intention: a put's block in a data page, and then the record. A map page that is lacking is held, and not put yet.
fn store_one<S: StableStore>(
    store: &mut S,
    sets: &mut Sets,
    table: &mut FileTable,
    head: &WorkHead,
    order: u8,
    intention: &Intention,
    lacks: bool,
) -> Result<StoredIntention, Stopped>
    requires fits { HasPagesOfTable table.old (S.view store.old) }
    requires unpromised { table.old.free_leaves.promised ≡ 0 }
    requires pages { (if is_put intention.now.what then 1 else 0) + (if lacks then 1 else 0) ≤ free_numbers table.old.free_leaves }
    requires there { length sets.old < (S.view store.old).count }
    requires room { 0 < free_count sets.old }
    requires plain { Plain intention.now.what intention.now.block intention.now.bytes }
    requires lacks { lacks ≡ true → is_past_head intention.now ≡ true }
    ensures stored { IntentionStored sets.old table.old (S.view store.old) head.now order intention.now lacks result sets.new table.new (S.view store.new) }
    ensures table { IsTable table.new }
{
    let address = store_block(store, table, intention)?;
    let map = take_map(table, lacks);
    let stored = StoredIntention {
        what: intention.what,
        file: intention.file,
        block: intention.block,
        address,
        map,
    };
    let record = Record::Intention {
        work: head.work,
        tid: head.tid,
        order,
        intention: stored,
    };
    record_fits(&record);
    let Ok(_slot) = sets.insert(store, record) else {
        return Err(Stopped);
    };
    Ok(stored)
}

/// Puts the block of a put to the lowest free data page, and says its address, which is 0 where nothing is put.
fn store_block<S: StableStore>(
    store: &mut S,
    table: &mut FileTable,
    intention: &Intention,
) -> Result<u16, Stopped>
    requires fits { HasPagesOfTable table.old (S.view store.old) }
    requires unpromised { table.old.free_leaves.promised ≡ 0 }
    requires page { is_put intention.now.what ≡ true → 0 < free_numbers table.old.free_leaves }
    ensures stored { BlockStored table.old (S.view store.old) intention.now result table.new (S.view store.new) }
    ensures table { IsTable table.new }
{
    if intention.what != What::Put {
        table.is_table();
        return Ok(0);
    }
    fill_next(store, table, &intention.bytes)
}

/// Puts a block to the lowest free data page, which is held from then on, and says its address.
fn fill_next<S: StableStore>(
    store: &mut S,
    table: &mut FileTable,
    block: &Block,
) -> Result<u16, Stopped>
    requires fits { HasPagesOfTable table.old (S.view store.old) }
    requires unpromised { table.old.free_leaves.promised ≡ 0 }
    requires page { 0 < free_numbers table.old.free_leaves }
    ensures filled { FillsPage table.old (S.view store.old) block.now result table.new (S.view store.new) }
    ensures table { IsTable table.new }
{
    table.is_table();
    let Some(page) = table.take_leaf() else {
        unreachable!()
    };
    table.is_table();
    table.fill(store, page, block)?;
    Ok(page + 1)
}

/// Holds the lowest free data page as a map page where one is lacking, and says its address, which is 0 where none is.
fn take_map(table: &mut FileTable, lacks: bool) -> u16
    requires unpromised { table.old.free_leaves.promised ≡ 0 }
    requires page { lacks ≡ true → 0 < free_numbers table.old.free_leaves }
    ensures takes { TakesMap table.old lacks result table.new }
    ensures table { IsTable table.new }
{
    if lacks {
        take_page(table)
    } else {
        table.is_table();
        0
    }
}

/// Holds the lowest free data page, and says its address.
fn take_page(table: &mut FileTable) -> u16
    requires unpromised { table.old.free_leaves.promised ≡ 0 }
    requires page { 0 < free_numbers table.old.free_leaves }
    ensures takes { TakesPage table.old result table.new }
    ensures table { IsTable table.new }
{
    table.is_table();
    let Some(page) = table.take_leaf() else {
        unreachable!()
    };
    table.is_table();
    page + 1
}
