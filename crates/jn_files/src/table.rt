//! The table of files.
ghost use Rattle.std.specs.Prelude.{◌≡◌, ◌^◌, ◌≢◌, ◌↔◌, ◌<◌, ◌≤◌, ◌+◌, ◌-◌, ℕ, suc, true, false, length, List, slice_index_or, Option, Some, None, Ok, Err, is_ok, is_some, IfOk, IfSome, IfNone, IfErr, IsOk, IsSome, OnOk, OnErr, take};
ghost use Rattle.jn_base.specs.declared.names.BlockNo.{BlockNo as ABlock};
ghost use Rattle.jn_base.specs.Limits.{most_blocks, head_blocks};
ghost use Rattle.jn_alloc.specs.Free.{free_count, with_free, IsLeastFree};
ghost use Rattle.jn_index.specs.Least.{number_after};
ghost use Rattle.jn_order.specs.Files.{created, removed};
ghost use Rattle.jn_records.specs.declared.head.Head.{Head as HeadOf};
ghost use Rattle.jn_records.specs.declared.head.Head.TheVariants.{Free};
ghost use Rattle.jn_records.specs.Layouts.{at_cell};
ghost use Rattle.jn_records.specs.MapPlaces.{maps_in, range_of};
ghost use Rattle.jn_records.specs.StablePages.{counts_of, head_place, data_place, page_count};
ghost use Rattle.jn_store.specs.Store.{IsCalm, IsServed, IsStop};
ghost use Rattle.jn_base.specs.declared.fault.CallFault.TheVariants.{Stopped as LoadStopped};
ghost use Rattle.jn_files.specs.Table as table;
ghost use Rattle.jn_files.specs.Pages as pages;
ghost use Rattle.jn_files.specs.Calls as calls;
ghost use Rattle.jn_files.specs.Inside as inside;

use crate::fault::LoadFault;
use crate::heads::Heads;
use crate::load::{free_heads, free_leaves, named_pages, none_set, read_pages};
use crate::maps::Maps;
use crate::slot::{Slot, block_from};
use jn_alloc::FreeList;
use jn_base::{Block, BlockNo, FileNo, HEAD_BLOCKS, MOST_MAPS, Page, PageWriter, Short, Stopped};
use jn_records::Root;
use jn_store::StableStore;
use std::alloc::{AllocError, Global};
use std::marker::Model;

/// The heads of a store, and which of its data pages are held and which are touched.
///
/// The store isn't kept: the calls that need it are passed it, and it is that from which the table was loaded.
#[derive(Drop)]
pub struct FileTable {
    pool: u16,
    pub(crate) heads: Heads,
    pub(crate) maps: Maps,
    pub(crate) held: Vec<bool>,
    /// Of each data page, whether it was cleaned or put since the load.
    touched: Vec<bool>,
    /// Of each data page, whether a head or a map page names it.
    pub(crate) named: Vec<bool>,
    pub(crate) free_heads: FreeList,
    pub(crate) free_leaves: FreeList,
}

impl Model for FileTable {
    ghost use Rattle.std.specs.Prelude.{vec_len};
    ghost use Rattle.jn_files.specs.Table.{TableView};
    ghost use Rattle.jn_files.specs.Inside.{table_view, IsKeptTable};

    ghost Value = { TableView };

    ghost view = { λ t. table_view t.pool t.heads t.maps t.held.items t.touched.items t.free_heads t.free_leaves };

    ghost invariant = { λ t. IsKeptTable t.pool t.heads t.maps t.held.items t.touched.items t.named.items t.free_heads t.free_leaves };
}

impl FileTable {
    /// The table of the heads that the store holds, with their map pages, of which each is cleaned and read. None of the data pages is
    /// held, touched or promised. This call alone takes memory.
    pub fn load<S: StableStore>(
        alloc: Global,
        store: &mut S,
        root: &Root,
    ) -> Result<Self, LoadFault>
        requires counts { (S.view store.old).count ≡ 1 + root.now.pool + root.now.heads + root.now.leaves }
        requires loadable { (heads : List HeadOf) × pages.MapsLoadable (counts_of root.now) heads (S.view store.old) }
        ensures loaded { IfOk result (λ t. calls.IsLoaded (counts_of root.now) t) }
        ensures heads { (heads : List HeadOf) → pages.MapsLoadable (counts_of root.now) heads (S.view store.old) → IfOk result (λ t. t.heads ≡ heads) }
        ensures holds { IfOk result (λ t. pages.HoldsTable t (S.view store.new)) }
        ensures read { (heads : List HeadOf) → pages.MapsLoadable (counts_of root.now) heads (S.view store.old) → calls.LoadedFrom (counts_of root.now) heads (S.view store.old) (S.view store.new) }
        ensures mended { IsOk result → (heads : List HeadOf) → pages.MapsLoadable (counts_of root.now) heads (S.view store.old) → calls.MendsMaps (counts_of root.now) heads (S.view store.old) (S.view store.new) }
        ensures served { IsOk result → 0 < root.now.heads → IsServed (S.view store.old) (S.view store.new) }
        ensures stops { IsOk result → (S.view store.new).stops ≡ (S.view store.old).stops }
        ensures stop { result ≡ Err LoadStopped → IsStop (S.view store.old) (S.view store.new) }
        ensures calm { IsCalm (S.view store.old) → result ≢ Err LoadStopped }
    {
        let read = read_pages(alloc, store, root)?;
        let table = FileTable::of_pages(alloc, root, read.slots, read.maps)?;
        Ok(table)
    }

    /// The table of these heads and map pages.
    fn of_pages(
        alloc: Global,
        root: &Root,
        slots: Vec<Slot>,
        maps: Maps,
    ) -> Result<Self, AllocError>
        requires heads { table.AreHeads root.now.leaves maps slots.items }
        requires slots { length slots.items ≡ root.now.heads }
        requires few { root.now.heads < 2 ^ 16 }
        ensures loaded { IfOk result (λ t. calls.IsLoaded (counts_of root.now) t) }
        ensures heads { IfOk result (λ t. t.heads ≡ slots.items) }
        ensures maps { IfOk result (λ t. t.maps ≡ maps) }
    {
        let free_heads = free_heads(alloc, &slots)?;
        let named = named_pages(alloc, root.leaves, &slots, &maps)?;
        let free_leaves = free_leaves(alloc, root.leaves, &named)?;
        let held = none_set(alloc, root.leaves)?;
        let touched = none_set(alloc, root.leaves)?;
        let heads = Heads::new(alloc, slots)?;
        Ok(FileTable {
            pool: root.pool,
            heads,
            maps,
            held,
            touched,
            named,
            free_heads,
            free_leaves,
        })
    }

    /// How many stable pages a store has that fits the table.
    pub fn pages(&self) -> u32
        ensures { result ≡ page_count self.now.counts }
    {
        1 + u32::from(self.pool) + self.heads.count() + self.held.len() as u32
    }

    /// Does nothing: its contract says what holds of every table.
    pub fn is_table(&self)
        ensures { table.IsTable self.now }
    {
        let _heads = &self.heads;
    }

    /// Whether a file is there.
    pub fn exists(&self, f: FileNo) -> bool
        ensures { result ≡ table.exists self.now.heads f }
    {
        self.heads.slot_of(f).is_some()
    }

    /// Whether a block is stored.
    pub fn mapped(&self, f: FileNo, p: BlockNo) -> bool
        requires { p.0 < most_blocks }
        ensures { result ≡ table.is_mapped (table.layouts_in self.now) f p.0 }
    {
        self.address_for(f, p) > 0
    }

    /// Whether a file has map page `j`, which is for the blocks from `HEAD_BLOCKS` times `j` + 1 on, as many as a head has. There is none
    /// from `MOST_MAPS` on.
    pub fn map_there(&self, f: FileNo, j: u8) -> bool
        ensures { result ≡ maps_in self.now.heads f j }
    {
        let Some(slot) = self.heads.slot_of(f) else {
            return false;
        };
        if usize::from(j) >= MOST_MAPS {
            return false;
        }
        self.heads.slot(slot).map(u16::from(j)) > 0
    }

    /// The least stored block of a file above `after`, or the least of all.
    pub fn next_block(&self, f: FileNo, after: Option<BlockNo>) -> Option<BlockNo>
        ensures { calls.NextBlock self.now f after result }
    {
        let slot = self.heads.slot_of(f)?;
        block_from(self.heads.slot(slot), &self.maps, number_after(after))
    }

    /// A block's address, 0 where it isn't stored.
    fn address_for(&self, f: FileNo, p: BlockNo) -> u16
        requires { p.0 < most_blocks }
        ensures { result ≡ table.address_for (table.layouts_in self.now) f p.0 }
    {
        match self.heads.slot_of(f) {
            Some(slot) => self.address_at(slot, p.0),
            None => 0,
        }
    }

    /// The address of a block in a slot's head, or in the map page that it names.
    fn address_at(&self, slot: u16, p: u16) -> u16
        requires slot { slot < self.now.counts.heads }
        requires range { p < most_blocks }
        ensures { result ≡ at_cell (table.layout_in self.now slot) p }
    {
        let head = self.heads.slot(slot);
        if p < HEAD_BLOCKS as u16 {
            return head.address(p);
        }
        let map = head.map(p / HEAD_BLOCKS as u16 - 1);
        self.maps.entry(map, p as usize % HEAD_BLOCKS)
    }

    /// The least file above `after`, or the least of all.
    pub fn next(&self, after: Option<FileNo>) -> Option<FileNo>
        ensures { calls.NextFile self.now.heads after result }
    {
        self.heads.next(after)
    }

    /// The heads that are free and promised.
    pub fn heads(&self) -> &FreeList
        ensures { result.now ≡ self.now.free_heads }
    {
        &self.free_heads
    }

    /// The data pages that are free and promised.
    pub fn leaves(&self) -> &FreeList
        ensures { result.now ≡ self.now.free_leaves }
    {
        &self.free_leaves
    }

    /// Whether a data page is held.
    pub fn is_held(&self, a: u16) -> bool
        ensures { result ≡ table.is_held self.now a }
    {
        let a = a as usize;
        a < self.held.len() && self.held[a]
    }

    /// Promises so many free heads, where so many are free and not promised.
    pub fn promise_heads(&mut self, n: u32) -> Result<(), Short>
        ensures enough { IsOk result ↔ (n ≤ free_count self.old.free_heads - self.old.free_heads.promised) }
        ensures ok { OnOk result (self.new ≡ calls.with_promised_heads self.old (self.old.free_heads.promised + n)) }
        ensures short { IfErr result (λ short. (short.free ≡ free_count self.old.free_heads - self.old.free_heads.promised) × (short.need ≡ n)) }
        ensures err { OnErr result (self.new ≡ self.old) }
    {
        self.free_heads.promise(n)
    }

    /// Takes back the promise of so many.
    pub fn release_heads(&mut self, n: u32)
        requires { n ≤ self.old.free_heads.promised }
        ensures { self.new ≡ calls.with_promised_heads self.old (self.old.free_heads.promised - n) }
    {
        self.free_heads.release(n);
    }

    /// Promises so many free data pages, where so many are free and not promised.
    pub fn promise_leaves(&mut self, n: u32) -> Result<(), Short>
        ensures enough { IsOk result ↔ (n ≤ free_count self.old.free_leaves - self.old.free_leaves.promised) }
        ensures ok { OnOk result (self.new ≡ calls.with_promised_leaves self.old (self.old.free_leaves.promised + n)) }
        ensures short { IfErr result (λ short. (short.free ≡ free_count self.old.free_leaves - self.old.free_leaves.promised) × (short.need ≡ n)) }
        ensures err { OnErr result (self.new ≡ self.old) }
    {
        self.free_leaves.promise(n)
    }

    /// Takes back the promise of so many.
    pub fn release_leaves(&mut self, n: u32)
        requires { n ≤ self.old.free_leaves.promised }
        ensures { self.new ≡ calls.with_promised_leaves self.old (self.old.free_leaves.promised - n) }
    {
        self.free_leaves.release(n);
    }

    /// Makes a file empty; one that isn't there gets the lowest free head.
    pub fn set_fresh<S: StableStore>(&mut self, store: &mut S, f: FileNo) -> Result<(), Stopped>
        requires fits { calls.HasPagesOfTable self.old (S.view store.old) }
        requires room { table.exists self.old.heads f ≡ false → self.old.free_heads.promised < free_count self.old.free_heads }
        ensures { calls.SetsHead self.old (S.view store.old) f (table.fresh_head f) (created f) (is_ok result) self.new (S.view store.new) }
    {
        let slot = place_of(&self.heads, &self.free_heads, f);
        self.put_head(store, slot, Slot::fresh(f), 0)
    }

    /// Makes a file gone. Where it isn't there nothing is done.
    pub fn set_gone<S: StableStore>(&mut self, store: &mut S, f: FileNo) -> Result<(), Stopped>
        requires fits { calls.HasPagesOfTable self.old (S.view store.old) }
        ensures there { table.exists self.old.heads f ≡ true → calls.SetsHead self.old (S.view store.old) f Free (removed f) (is_ok result) self.new (S.view store.new) }
        ensures absent { table.exists self.old.heads f ≡ false → (IsOk result) × (self.new ≡ self.old) × (S.view store.new ≡ S.view store.old) }
    {
        let Some(slot) = self.heads.slot_of(f) else {
            return Ok(());
        };
        self.put_head(store, slot, Slot::free(), 0)
    }

    /// Takes the blocks of a file from one on away. Where that one stands in a map page and isn't its first, the map page is put first,
    /// so a stop may leave the blocks of that page alone gone.
    pub fn set_cut<S: StableStore>(
        &mut self,
        store: &mut S,
        f: FileNo,
        n: BlockNo,
    ) -> Result<(), Stopped>
        requires fits { calls.HasPagesOfTable self.old (S.view store.old) }
        requires there { table.exists self.old.heads f ≡ true }
        requires range { n.0 < most_blocks }
        ensures { calls.CutsFile self.old (S.view store.old) f n (is_ok result) self.new (S.view store.new) }
    {
        let Some(slot) = self.heads.slot_of(f) else {
            unreachable!()
        };
        let address = self.heads.slot(slot).cut_map(n.0);
        if address == 0 {
            return self.cut_head(store, slot, n);
        }
        self.cut_map(store, slot, address - 1, n)?;
        self.cut_head(store, slot, n)
    }

    /// Makes a data page that is held a file's block. Where the block's address stands in a map page that isn't there, the address `m`
    /// leads to a data page that is held and becomes it; else `m` means nothing.
    pub fn set_address<S: StableStore>(
        &mut self,
        store: &mut S,
        f: FileNo,
        p: BlockNo,
        a: u16,
        m: u16,
    ) -> Result<(), Stopped>
        requires fits { calls.HasPagesOfTable self.old (S.view store.old) }
        requires there { table.exists self.old.heads f ≡ true }
        requires range { p.0 < most_blocks }
        requires leaf { calls.MayBecome self.old (S.view store.old) f p.0 a }
        requires map { head_blocks ≤ p.0 → maps_in self.old.heads f (range_of p.0) ≡ false → calls.MayBring self.old f p.0 a m }
        ensures { calls.SetsBlock self.old (S.view store.old) f p a m (is_ok result) self.new (S.view store.new) }
    {
        let Some(slot) = self.heads.slot_of(f) else {
            unreachable!()
        };
        if p.0 < HEAD_BLOCKS as u16 {
            return self.put_leaf(store, slot, p, a);
        }
        match self.heads.slot(slot).map(p.0 / HEAD_BLOCKS as u16 - 1) {
            0 => self.bring_map(store, slot, p, a, m - 1),
            address => self.put_entry(store, slot, address - 1, p, a),
        }
    }

    /// Puts a block to a data page that is held and that nothing names. It needs no cleanup before, and is a touch.
    pub fn fill<S: StableStore>(
        &mut self,
        store: &mut S,
        a: u16,
        block: &Block,
    ) -> Result<(), Stopped>
        requires fits { calls.HasPagesOfTable self.old (S.view store.old) }
        requires held { table.is_held self.old a ≡ true }
        requires unnamed { table.IsUnnamed (table.layouts_in self.old) a }
        ensures { calls.Fills self.old (S.view store.old) a block.now (is_ok result) self.new (S.view store.new) }
    {
        let _held = &self.held;
        store.put(self.data_page(a), &leaf_page(block))?;
        self.note_touch(a);
        Ok(())
    }

    /// The block, where one is stored. Its data page is cleaned first, unless it was touched since the load.
    pub fn read_block<S: StableStore>(
        &mut self,
        store: &mut S,
        f: FileNo,
        p: BlockNo,
    ) -> Result<Option<Block>, Stopped>
        requires fits { calls.HasPagesOfTable self.old (S.view store.old) }
        requires holds { pages.HoldsTable self.old (S.view store.old) }
        requires range { p.0 < most_blocks }
        ensures got { (a : ℕ) → table.address_for (table.layouts_in self.old) f p.0 ≡ suc a → calls.BlockGot self.old (S.view store.old) f p a result self.new (S.view store.new) }
        ensures unasked { table.is_mapped (table.layouts_in self.old) f p.0 ≡ false → (result ≡ Ok None) × (self.new ≡ self.old) × (S.view store.new ≡ S.view store.old) }
    {
        let _heads = &self.heads;
        let address = self.address_for(f, p);
        if address == 0 {
            return Ok(None);
        }
        self.touch(store, address - 1)?;
        let page = store.get(self.data_page(address - 1))?;
        Ok(Some(block_of(&page)))
    }

    /// Every data page was cleaned by whoever owns the store.
    pub fn touch_all(&mut self)
        ensures { calls.TouchesAll self.old self.new }
    {
        set_all(&mut self.touched);
    }

    /// Cleans a data page that wasn't touched yet.
    fn touch<S: StableStore>(&mut self, store: &mut S, a: u16) -> Result<(), Stopped>
        requires fits { calls.HasPagesOfTable self.old (S.view store.old) }
        requires below { a < self.old.counts.leaves }
        ensures { calls.Touches self.old (S.view store.old) a (is_ok result) self.new (S.view store.new) }
    {
        if self.touched[a as usize] {
            return Ok(());
        }
        store.cleanup(self.data_page(a))?;
        self.note_touch(a);
        Ok(())
    }

    fn note_touch(&mut self, a: u16)
        requires { a < self.old.counts.leaves }
        ensures { self.new ≡ calls.with_touched self.old a }
    {
        self.touched[a as usize] = true;
    }

    /// Takes the lowest free data page, which is held from now on. Who has a promise releases it first.
    pub fn take_leaf(&mut self) -> Option<u16>
        requires { calls.MayTake self.old.free_leaves }
        ensures found { IsSome result ↔ (0 < free_count self.old.free_leaves) }
        ensures least { IfSome result (λ a. IsLeastFree self.old.free_leaves a) }
        ensures unnamed { IfSome result (λ a. table.IsUnnamed (table.layouts_in self.old) a) }
        ensures held { IfSome result (λ a. table.is_held self.new a ≡ true) }
        ensures taken { IfSome result (λ a. self.new ≡ calls.with_held self.old a) }
        ensures none { IfNone result (self.new ≡ self.old) }
    {
        let a = self.free_leaves.take()?;
        self.held[a as usize] = true;
        Some(a)
    }

    /// Holds a data page, while none is promised.
    pub fn hold(&mut self, a: u16)
        requires below { a < self.old.counts.leaves }
        requires loose { table.is_held self.old a ≡ false }
        requires unpromised { self.old.free_leaves.promised ≡ 0 }
        ensures { self.new ≡ calls.with_held self.old a }
    {
        take_if_free(&mut self.free_leaves, a);
        self.held[a as usize] = true;
    }

    /// Holds a data page no more.
    pub fn let_go(&mut self, a: u16)
        requires { table.is_held self.old a ≡ true }
        ensures { calls.LetsGo self.old a self.new }
    {
        let named = self.is_named(a);
        self.held[a as usize] = false;
        if !named {
            self.free_leaves.give(a);
        }
    }

    /// Whether a head or a map page names a data page.
    fn is_named(&self, a: u16) -> bool
        requires { a < self.now.counts.leaves }
        ensures named { result ≡ true → inside.IsNamedPage (table.layouts_in self.now) a }
        ensures unnamed { result ≡ false → table.IsUnnamed (table.layouts_in self.now) a }
    {
        self.named[a as usize]
    }

    /// The place of a head's page.
    pub(crate) fn head_page(&self, slot: u16) -> u32
        ensures { result ≡ head_place self.now.counts slot }
    {
        1 + u32::from(self.pool) + u32::from(slot)
    }

    /// The place of a data page.
    pub(crate) fn data_page(&self, a: u16) -> u32
        ensures { result ≡ data_place self.now.counts a }
    {
        1 + u32::from(self.pool) + self.heads.count() + u32::from(a)
    }
}

fn set_all(flags: &mut Vec<bool>)
    ensures length { length flags.new.items ≡ length flags.old.items }
    ensures set { (a : ℕ) → a < length flags.old.items → slice_index_or flags.new.items a false ≡ true }
{
    for i in 0..flags.len() {
        flags[i] = true;
    }
}

/// The slot of a file's head, or the lowest free one.
fn place_of(heads: &Heads, free_heads: &FreeList, f: FileNo) -> u16
    requires room { table.exists heads.now f ≡ false → 0 < free_count free_heads.now }
    ensures { calls.IsPlace heads.now free_heads.now f result }
{
    if let Some(slot) = heads.slot_of(f) {
        return slot;
    }
    let Some(slot) = free_heads.first() else {
        unreachable!()
    };
    slot
}

fn take_if_free(free: &mut FreeList, a: u16)
    requires { free.old.promised ≡ 0 }
    ensures { free.new ≡ with_free free.old a false }
{
    if free.is_free(a) {
        free.take_this(a);
    }
}

/// The number behind a block, and 0 behind none.
fn number_after(after: Option<BlockNo>) -> usize
    ensures value { result ≡ number_after (λ (p : ABlock). p.0) after }
    ensures few { result ≤ 2 ^ 16 }
{
    match after {
        Some(block) => usize::from(block.0) + 1,
        None => 0,
    }
}

/// The page of a block, with zeros behind it.
fn leaf_page(block: &Block) -> Page
    ensures { result ≡ pages.leaf_page block.now }
{
    let mut page = PageWriter::new();
    page.put_bytes(block);
    page.finish()
}

/// The block in a data page.
fn block_of(page: &Page) -> Block
    ensures { result ≡ take 448 page.now }
{
    let mut block = [0; 448];
    block.copy_from_slice(&page[..448]);
    block
}
