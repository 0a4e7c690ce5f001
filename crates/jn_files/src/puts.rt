//! The puts of a table: of a head's page, or of a map page's.
ghost use Rattle.std.specs.Prelude.{◌≡◌, ◌<◌, ◌≤◌, ◌%◌, ℕ, suc, true, false, List, slice_set, is_ok};
ghost use Rattle.jn_alloc.specs.Free.{count_of, free_count, is_free as is_free_number};
ghost use Rattle.jn_base.specs.Limits.{most_blocks, head_blocks};
ghost use Rattle.jn_base.specs.declared.names.FileNo.{FileNo};
ghost use Rattle.jn_order.specs.Files.{Change, cut_from};
ghost use Rattle.jn_records.specs.Layouts.{head_map, row_at};
ghost use Rattle.jn_records.specs.MapPlaces.{is_in_range, range_of};
ghost use Rattle.jn_records.specs.NetLists.{among};
ghost use Rattle.jn_records.specs.Heads as heads;
ghost use Rattle.jn_files.specs.Table as table;
ghost use Rattle.jn_records.specs.Heads.{head_in, is_of};
ghost use Rattle.jn_files.specs.Calls as calls;
ghost use Rattle.jn_files.specs.Inside as inside;

use crate::maps::{Row, cut_row, with_entry};
use crate::named::{name_held, rename, unname_row};
use crate::slot::Slot;
use crate::table::FileTable;
use jn_alloc::FreeList;
use jn_base::{BlockNo, HEAD_BLOCKS, Stopped};
use jn_records::map_page;
use jn_store::StableStore;

impl FileTable {
    /// Puts a head's page: a file's without its blocks from `n` on and the map pages whose first block is `n` or above, or another
    /// without any.
    pub(crate) fn put_head<S: StableStore>(
        &mut self,
        store: &mut S,
        slot: u16,
        head: Slot,
        n: u16,
    ) -> Result<(), Stopped>
        requires fits { calls.HasPagesOfTable self.old (S.view store.old) }
        requires may { inside.MayPutHead self.old slot head n }
        ensures { (c : (ℕ → List ℕ) → Change) → inside.IsChange self.old (slice_set self.old.heads slot head) self.old.maps c
            → calls.PutsHead self.old (S.view store.old) slot head self.old.maps c (is_ok result) self.new (S.view store.new) }
    {
        let _heads = &self.heads;
        store.put(self.head_page(slot), &head.page())?;
        self.set_head(slot, head, n);
        Ok(())
    }

    /// The table has that head. What it leads to no more is free, unless it is held.
    fn set_head(&mut self, slot: u16, head: Slot, n: u16)
        requires { inside.MayPutHead self.old slot head n }
        ensures { calls.IsChanged self.old (slice_set self.old.heads slot head) self.old.maps self.new }
    {
        let is_free = head.is_free();
        let old = self.heads.replace(slot, head);
        count_head(&mut self.free_heads, slot, old.is_free(), is_free);
        old.unname_from(
            n,
            &mut self.named,
            &mut self.free_leaves,
            &self.held,
            &self.maps,
        );
    }

    /// Puts a head without its blocks from `n` on, none of which from there on has its address in a map page that stays.
    pub(crate) fn cut_head<S: StableStore>(
        &mut self,
        store: &mut S,
        slot: u16,
        n: BlockNo,
    ) -> Result<(), Stopped>
        requires fits { calls.HasPagesOfTable self.old (S.view store.old) }
        requires slot { slot < self.old.counts.heads }
        requires used { heads.is_free (head_in self.old.heads slot) ≡ false }
        requires range { n.0 < most_blocks }
        ensures { (f : FileNo) → is_of f (head_in self.old.heads slot) ≡ true → inside.IsCutInside (table.layout_in self.old slot) n.0
            → calls.PutsHead self.old (S.view store.old) slot (table.cut_head n.0 (head_in self.old.heads slot)) self.old.maps (λ leaves. cut_from f n) (is_ok result) self.new (S.view store.new) }
    {
        let head = self.heads.slot(slot).cut(n.0);
        self.put_head(store, slot, head, n.0)
    }

    /// Puts a map page without its blocks from `n` on, which falls inside of it.
    pub(crate) fn cut_map<S: StableStore>(
        &mut self,
        store: &mut S,
        slot: u16,
        d: u16,
        n: BlockNo,
    ) -> Result<(), Stopped>
        requires fits { calls.HasPagesOfTable self.old (S.view store.old) }
        requires slot { slot < self.old.counts.heads }
        requires range { n.0 < most_blocks }
        requires map { table.cut_map n.0 (head_in self.old.heads slot) ≡ suc d }
        ensures { (f : FileNo) → is_of f (head_in self.old.heads slot) ≡ true
            → calls.PutsMap self.old (S.view store.old) slot d (table.cut_addresses (n.0 % head_blocks) (row_at self.old.maps d)) (λ leaves. among (λ p. is_in_range (range_of n.0) p.0) (cut_from f n)) (is_ok result) self.new (S.view store.new) }
    {
        let row = cut_row(self.maps.row(d), n.0 as usize % HEAD_BLOCKS);
        store.put(self.data_page(d), &map_page(&row))?;
        self.set_cut_row(slot, d, row, n);
        Ok(())
    }

    /// The table has that map page. What it leads to no more is free, unless it is held.
    fn set_cut_row(&mut self, slot: u16, d: u16, row: Row, n: BlockNo)
        requires slot { slot < self.old.counts.heads }
        requires range { n.0 < most_blocks }
        requires map { table.cut_map n.0 (head_in self.old.heads slot) ≡ suc d }
        requires row { row ≡ table.cut_addresses (n.0 % head_blocks) (row_at self.old.maps d) }
        ensures { calls.IsChanged self.old self.old.heads (slice_set self.old.maps d row) self.new }
    {
        let old = self.maps.replace(d, row);
        unname_row(
            &mut self.named,
            &mut self.free_leaves,
            &self.held,
            &old,
            n.0 as usize % HEAD_BLOCKS,
        );
    }

    /// Puts a head with a data page for one of its first blocks.
    pub(crate) fn put_leaf<S: StableStore>(
        &mut self,
        store: &mut S,
        slot: u16,
        p: BlockNo,
        a: u16,
    ) -> Result<(), Stopped>
        requires fits { calls.HasPagesOfTable self.old (S.view store.old) }
        requires block { p.0 < head_blocks }
        requires may { inside.MaySet self.old slot p.0 a }
        ensures { (f : FileNo) → is_of f (head_in self.old.heads slot) ≡ true → calls.MayBecome self.old (S.view store.old) f p.0 a
            → calls.PutsHead self.old (S.view store.old) slot (table.with_leaf p.0 a (head_in self.old.heads slot)) self.old.maps (calls.block_written f p a) (is_ok result) self.new (S.view store.new) }
    {
        let head = self.heads.slot(slot).with_leaf(p.0, a);
        store.put(self.head_page(slot), &head.page())?;
        self.set_leaf(slot, head, p.0, a);
        Ok(())
    }

    /// The table has that head. The data page that it led to there is free, unless it is held.
    fn set_leaf(&mut self, slot: u16, head: Slot, p: u16, a: u16)
        requires block { p < head_blocks }
        requires may { inside.MaySet self.old slot p a }
        requires head { head ≡ table.with_leaf p a (head_in self.old.heads slot) }
        ensures { calls.IsChanged self.old (slice_set self.old.heads slot head) self.old.maps self.new }
    {
        let old = self.heads.replace(slot, head);
        rename(
            &mut self.named,
            &mut self.free_leaves,
            &self.held,
            old.address(p),
            a,
        );
    }

    /// Puts a map page, in its place, with a data page for a block.
    pub(crate) fn put_entry<S: StableStore>(
        &mut self,
        store: &mut S,
        slot: u16,
        d: u16,
        p: BlockNo,
        a: u16,
    ) -> Result<(), Stopped>
        requires fits { calls.HasPagesOfTable self.old (S.view store.old) }
        requires block { head_blocks ≤ p.0 }
        requires range { p.0 < most_blocks }
        requires map { head_map (head_in self.old.heads slot) (range_of p.0) ≡ suc d }
        requires may { inside.MaySet self.old slot p.0 a }
        ensures { (f : FileNo) → is_of f (head_in self.old.heads slot) ≡ true → calls.MayBecome self.old (S.view store.old) f p.0 a
            → calls.PutsMap self.old (S.view store.old) slot d (slice_set (row_at self.old.maps d) (p.0 % head_blocks) (suc a)) (calls.block_written f p a) (is_ok result) self.new (S.view store.new) }
    {
        let row = with_entry(self.maps.row(d), p.0 as usize % HEAD_BLOCKS, a);
        store.put(self.data_page(d), &map_page(&row))?;
        self.set_entry(slot, d, row, p, a);
        Ok(())
    }

    /// The table has that map page. The data page that it led to there is free, unless it is held.
    fn set_entry(&mut self, slot: u16, d: u16, row: Row, p: BlockNo, a: u16)
        requires block { head_blocks ≤ p.0 }
        requires range { p.0 < most_blocks }
        requires map { head_map (head_in self.old.heads slot) (range_of p.0) ≡ suc d }
        requires may { inside.MaySet self.old slot p.0 a }
        requires row { row ≡ slice_set (row_at self.old.maps d) (p.0 % head_blocks) (suc a) }
        ensures { calls.IsChanged self.old self.old.heads (slice_set self.old.maps d row) self.new }
    {
        let old = self.maps.replace(d, row);
        rename(
            &mut self.named,
            &mut self.free_leaves,
            &self.held,
            old[p.0 as usize % HEAD_BLOCKS],
            a,
        );
    }

    /// Puts a data page as the map page of a block's range, with a data page for that block alone, and then the head that names it.
    pub(crate) fn bring_map<S: StableStore>(
        &mut self,
        store: &mut S,
        slot: u16,
        p: BlockNo,
        a: u16,
        d: u16,
    ) -> Result<(), Stopped>
        requires fits { calls.HasPagesOfTable self.old (S.view store.old) }
        requires may { inside.MaySetMap self.old slot p.0 a d }
        ensures { (f : FileNo) → is_of f (head_in self.old.heads slot) ≡ true → calls.MayBecome self.old (S.view store.old) f p.0 a
            → calls.BringsMap self.old (S.view store.old) f p a slot d (is_ok result) self.new (S.view store.new) }
    {
        let _heads = &self.heads;
        let row = with_entry(&[0; HEAD_BLOCKS], p.0 as usize % HEAD_BLOCKS, a);
        store.put(self.data_page(d), &map_page(&row))?;
        let head = self
            .heads
            .slot(slot)
            .with_map(p.0 / HEAD_BLOCKS as u16 - 1, d);
        store.put(self.head_page(slot), &head.page())?;
        self.set_map(slot, head, d, row, p.0, a);
        Ok(())
    }

    /// The table has that head and map page.
    fn set_map(&mut self, slot: u16, head: Slot, d: u16, row: Row, p: u16, a: u16)
        requires may { inside.MaySetMap self.old slot p a d }
        requires head { head ≡ table.with_map (range_of p) d (head_in self.old.heads slot) }
        requires row { row ≡ table.one_entry (p % head_blocks) a }
        ensures { calls.IsChanged self.old (slice_set self.old.heads slot head) (slice_set self.old.maps d row) self.new }
    {
        self.maps.replace(d, row);
        self.heads.replace(slot, head);
        name_held(&mut self.named, &self.free_leaves, &self.held, a);
        name_held(&mut self.named, &self.free_leaves, &self.held, d);
    }
}

/// The free heads where one was free or wasn't, and is free or isn't.
fn count_head(free_heads: &mut FreeList, slot: u16, was: bool, is: bool)
    requires below { slot < count_of free_heads.old }
    requires was { is_free_number free_heads.old slot ≡ was }
    requires room { was ≡ true → is ≡ false → free_heads.old.promised < free_count free_heads.old }
    ensures { inside.Counts free_heads.old slot is free_heads.new }
{
    if was && !is {
        free_heads.take_this(slot);
    }
    if is && !was {
        free_heads.give(slot);
    }
}
