//! The map pages in memory.
ghost use Rattle.std.specs.Prelude.{◌≡◌, ◌<◌, ◌≤◌, ◌+◌, ℕ, length, List, slice_index, slice_set, nat_lt, IfOk};
ghost use Rattle.jn_base.specs.Limits.{head_blocks};
ghost use Rattle.jn_index.specs.Least.{LeastFrom};
ghost use Rattle.jn_records.specs.Layouts.{kept_entry, through, row_at};
ghost use Rattle.jn_records.specs.Heads.{IsMapRow};
ghost use Rattle.jn_files.specs.Table as table;

use jn_base::{HEAD_BLOCKS, MOST_MAPS};
use std::alloc::{AllocError, Global};
use std::marker::Model;
use std::mem;

/// Of so many blocks as stand in a head, or in a map page, the address: 0 for none, else its data page's index and 1.
pub type Row = [u16; HEAD_BLOCKS];

/// Of each map page its address likewise.
pub type MapRow = [u16; MOST_MAPS];

/// Of each data page its entries, where a head names it as a map page; of no meaning else. There is room for a row of each from the
/// start, and a row is made when its data page is first given entries. So no change of a map page takes memory, and a start clears no
/// row but one. Contracts see a list of rows, one of each data page.
#[derive(Drop)]
pub struct Maps {
    /// Of each data page the place of its row, or 0, where the row without entries stands.
    slots: Vec<u16>,
    rows: Vec<Row>,
}

impl Model for Maps {
    ghost use Rattle.std.specs.Prelude.{List, ℕ, vec_capacity};
    ghost use Rattle.jn_files.specs.Maps.{rows_by, AreRowsMade};

    ghost Value = { List (List ℕ) };

    ghost view = { λ m. rows_by m.slots.items m.rows.items };

    ghost invariant = { λ m. AreRowsMade m.slots.items m.rows.items (vec_capacity m.rows) };
}

impl Maps {
    /// Room for so many data pages, none of which has an entry.
    pub fn new(alloc: Global, leaves: u16) -> Result<Self, AllocError>
        ensures count { IfOk result (λ maps. length maps ≡ leaves) }
        ensures rows { IfOk result (λ maps. (d : ℕ) → d < leaves → IsMapRow leaves (row_at maps d)) }
    {
        let mut slots = Vec::with_capacity(alloc, leaves as usize)?;
        slots.resize(leaves as usize, 0)?;
        let mut rows = Vec::with_capacity(alloc, leaves as usize + 1)?;
        rows.push_reserved([0; HEAD_BLOCKS]);
        Ok(Maps { slots, rows })
    }

    pub fn row(&self, d: u16) -> &Row
        requires { d < length self.now }
        ensures { result.now ≡ row_at self.now d }
    {
        &self.rows[self.slots[d as usize] as usize]
    }

    /// The entry of the map page that an address leads to, 0 where it leads to none.
    pub fn entry(&self, address: u16, k: usize) -> u16
        requires below { address ≤ length self.now }
        requires range { k < head_blocks }
        ensures { result ≡ through (kept_entry self.now) address k }
    {
        if address == 0 {
            return 0;
        }
        self.rows[self.slots[address as usize - 1] as usize][k]
    }

    /// Puts other entries in place of a data page's, which it gives back.
    pub fn replace(&mut self, d: u16, row: Row) -> Row
        requires { d < length self.old }
        ensures old { result ≡ row_at self.old d }
        ensures new { self.new ≡ slice_set self.old d row }
    {
        let slot = self.slots[d as usize];
        if slot != 0 {
            return mem::replace(&mut self.rows[slot as usize], row);
        }
        self.slots[d as usize] = self.rows.len() as u16;
        self.rows.push_reserved(row);
        [0; HEAD_BLOCKS]
    }
}

/// The least index from a number on whose address isn't 0.
pub fn first_from(row: &Row, from: usize) -> Option<usize>
    ensures { LeastFrom (λ (k : ℕ). k) (λ k. nat_lt 0 (slice_index row.now k)) from result }
{
    for k in from..HEAD_BLOCKS {
        if row[k] > 0 {
            return Some(k);
        }
    }
    None
}

/// Addresses, without those from one on.
pub fn cut_row(old: &Row, n: usize) -> Row
    ensures { result ≡ table.cut_addresses n old.now }
{
    let mut row = *old;
    for k in n..HEAD_BLOCKS {
        row[k] = 0;
    }
    row
}

/// Entries with a data page for one block.
pub fn with_entry(old: &Row, k: usize, a: u16) -> Row
    requires below { k < head_blocks }
    requires leaf { a < 65535 }
    ensures { result ≡ slice_set old.now k (a + 1) }
{
    let mut row = *old;
    row[k] = a + 1;
    row
}
