//! A head as the table keeps it.
ghost use Rattle.std.specs.Prelude.{◌≡◌, ◌+◌, ◌*◌, ◌⊎◌, ◌^◌, ◌<◌, ◌≤◌, ℕ, true, false, length, nat_lt};
ghost use Rattle.jn_base.specs.declared.names.BlockNo.{BlockNo as ABlock};
ghost use Rattle.jn_base.specs.Limits.{head_blocks, most_maps, most_blocks};
ghost use Rattle.jn_index.specs.Least.{LeastFrom};
ghost use Rattle.jn_records.specs.declared.head.Head.TheVariants.{Free};
ghost use Rattle.jn_records.specs.Heads.{head_page, has_page};
ghost use Rattle.jn_records.specs.Layouts.{head_map};
ghost use Rattle.jn_records.specs.Heads as heads;
ghost use Rattle.jn_files.specs.Table as table;
ghost use Rattle.jn_files.specs.Inside as inside;

use crate::maps::{MapRow, Maps, Row, cut_row, first_from, with_entry};
use crate::named::{name_maps, name_row, unname_maps, unname_row};
use jn_alloc::FreeList;
use jn_base::{BlockNo, FileNo, HEAD_BLOCKS, MOST_MAPS, Page, PageWriter};
use jn_records::{Head, used_page};
use std::marker::Model;

/// A head with its addresses in place, so that none of its changes takes memory. Contracts see the head.
#[derive(Drop)]
pub struct Slot {
    file: Option<FileNo>,
    /// Of its first blocks the addresses; of no meaning where no file has the head.
    addresses: Row,
    /// Of no meaning there either.
    maps: MapRow,
}

impl Model for Slot {
    ghost use Rattle.jn_records.specs.declared.head.Head.{Head};
    ghost use Rattle.jn_files.specs.Table.{head_with};

    ghost Value = { Head };

    ghost view = { λ s. head_with s.file s.addresses s.maps };
}

impl Slot {
    pub fn free() -> Self
        ensures { result ≡ Free }
    {
        Slot {
            file: None,
            addresses: [0; HEAD_BLOCKS],
            maps: [0; MOST_MAPS],
        }
    }

    /// The head of a file without blocks.
    pub fn fresh(file: FileNo) -> Self
        ensures fresh { result ≡ table.fresh_head file }
        ensures fits { file.0 < 2 ^ 32 }
    {
        Slot {
            file: Some(file),
            addresses: [0; HEAD_BLOCKS],
            maps: [0; MOST_MAPS],
        }
    }

    pub fn of_head(head: &Head) -> Self
        requires { has_page head.now ≡ true }
        ensures { result ≡ head.now }
    {
        match head {
            Head::Free => Slot::free(),
            Head::Used {
                file,
                addresses,
                maps,
            } => Slot {
                file: Some(*file),
                addresses: addresses_in(addresses.as_slice()),
                maps: maps_in(maps.as_slice()),
            },
        }
    }

    /// The head's page.
    #[tactic(auto, unfolding(jn_records::specs::Heads::head_page))]
    pub fn page(&self) -> Page
        ensures { result ≡ head_page self.now }
    {
        match self.file {
            None => PageWriter::new().finish(),
            Some(file) => used_page(file, &self.addresses, &self.maps),
        }
    }

    pub fn is_free(&self) -> bool
        ensures { result ≡ heads.is_free self.now }
    {
        self.file.is_none()
    }

    /// The number of the file that has it, if one has.
    pub fn number(&self) -> Option<u32>
        ensures { result ≡ inside.head_number self.now }
    {
        match self.file {
            None => None,
            Some(file) => Some(file.0),
        }
    }

    /// The address of one of its first blocks, 0 where there is none.
    pub fn address(&self, p: u16) -> u16
        requires { p < head_blocks }
        ensures { result ≡ inside.head_address self.now p }
    {
        match self.file {
            None => 0,
            Some(_) => self.addresses[p as usize],
        }
    }

    /// The least of its first blocks from a number on that has an address.
    fn first_block(&self, from: usize) -> Option<usize>
        ensures { LeastFrom (λ (p : ℕ). p) (λ p. nat_lt 0 (inside.head_address self.now p)) from result }
    {
        match self.file {
            None => None,
            Some(_) => first_from(&self.addresses, from),
        }
    }

    /// The address of a map page, 0 where there is none.
    pub fn map(&self, j: u16) -> u16
        requires { j < most_maps }
        ensures { result ≡ head_map self.now j }
    {
        match self.file {
            None => 0,
            Some(_) => self.maps[j as usize],
        }
    }

    /// Whether it has map pages.
    fn has_maps(&self) -> bool
        ensures { result ≡ false → (j : ℕ) → head_map self.now j ≡ 0 }
    {
        match self.file {
            None => false,
            Some(_) => self.maps != [0; MOST_MAPS],
        }
    }

    /// Its data pages are named: of its blocks and of its map pages.
    pub fn name_all(&self, named: &mut Vec<bool>, maps: &Maps)
        requires head { table.IsHeadOf (length named.old.items) self.now }
        requires rows { table.AreRows (length named.old.items) maps.now }
        ensures { named.new.items ≡ inside.named_head maps.now self.now named.old.items }
    {
        match self.file {
            None => {}
            Some(_) => {
                name_row(named, &self.addresses);
                name_maps(named, maps, &self.maps);
            }
        }
    }

    /// Its data pages are named no more: of its blocks from `n` on, and of the map pages whose first block is `n` or above.
    pub fn unname_from(
        &self,
        n: u16,
        named: &mut Vec<bool>,
        free: &mut FreeList,
        held: &[bool],
        maps: &Maps,
    )
        requires kept { inside.AreFree held.now named.old.items free.old }
        requires head { table.IsHeadOf (length held.now) self.now }
        requires rows { table.AreRows (length held.now) maps.now }
        ensures kept { inside.AreFree held.now named.new.items free.new }
        ensures named { named.new.items ≡ inside.unnamed_head maps.now n self.now named.old.items }
        ensures promised { free.new.promised ≡ free.old.promised }
    {
        match self.file {
            None => {}
            Some(_) => {
                unname_row(named, free, held, &self.addresses, n as usize);
                unname_maps(named, free, held, maps, &self.maps, kept_maps(n));
            }
        }
    }

    /// The address of the map page that a block falls inside of, and isn't the first of: 0 where there is none.
    pub fn cut_map(&self, n: u16) -> u16
        requires { n < most_blocks }
        ensures { result ≡ table.cut_map n self.now }
    {
        if n < HEAD_BLOCKS as u16 || n % HEAD_BLOCKS as u16 == 0 {
            return 0;
        }
        self.map(n / HEAD_BLOCKS as u16 - 1)
    }

    /// The head without its blocks from one on, and without the map pages whose first block is that one or above.
    pub fn cut(&self, n: u16) -> Self
        ensures { result ≡ table.cut_head n self.now }
    {
        Slot {
            file: self.file,
            addresses: cut_row(&self.addresses, n as usize),
            maps: cut_maps(&self.maps, kept_maps(n)),
        }
    }

    /// The head with a data page for a block.
    pub fn with_leaf(&self, p: u16, a: u16) -> Self
        requires block { p < head_blocks }
        requires leaf { a < 65535 }
        ensures { result ≡ table.with_leaf p a self.now }
    {
        Slot {
            file: self.file,
            addresses: with_entry(&self.addresses, p as usize, a),
            maps: self.maps,
        }
    }

    /// The head with a data page as a map page.
    pub fn with_map(&self, j: u16, d: u16) -> Self
        requires range { j < most_maps }
        requires leaf { d < 65535 }
        ensures { result ≡ table.with_map j d self.now }
    {
        let mut maps = self.maps;
        maps[j as usize] = d + 1;
        Slot {
            file: self.file,
            addresses: self.addresses,
            maps,
        }
    }
}

/// The least block from a number on that has an address, by a head with these map pages.
pub fn block_from(head: &Slot, maps: &Maps, from: usize) -> Option<BlockNo>
    requires head { table.IsHeadOf (length maps.now) head.now }
    requires rows { table.AreRows (length maps.now) maps.now }
    requires few { length maps.now ≤ 65535 }
    ensures { LeastFrom (λ (p : ABlock). p.0) (inside.has_block maps.now head.now) from result }
{
    if let Some(p) = head.first_block(from) {
        return Some(BlockNo(p as u16));
    }
    if !head.has_maps() {
        return None;
    }
    for j in first_map(from)..MOST_MAPS as u16 {
        if let Some(p) = block_in_map(maps, head.map(j), j as usize, from) {
            return Some(p);
        }
    }
    None
}

/// The first map page whose range may have a block from a number on.
fn first_map(from: usize) -> u16
    ensures { (result ≡ 0) ⊎ (head_blocks * (result + 1) ≤ from) }
{
    let range = from / HEAD_BLOCKS;
    if range < 2 {
        return 0;
    }
    if range > MOST_MAPS {
        return MOST_MAPS as u16;
    }
    range as u16 - 1
}

/// The least block of a map page from a number on that has an address, where an address leads to the page.
fn block_in_map(maps: &Maps, address: u16, j: usize, from: usize) -> Option<BlockNo>
    requires below { address ≤ length maps.now }
    requires rows { table.AreRows (length maps.now) maps.now }
    requires range { j < most_maps }
    ensures { LeastFrom (λ (p : ABlock). p.0) (inside.has_entry maps.now address j) from result }
{
    if address == 0 {
        return None;
    }
    let first = HEAD_BLOCKS * (j + 1);
    let k = first_from(maps.row(address - 1), from.saturating_sub(first))?;
    Some(BlockNo((first + k) as u16))
}

/// How many map pages a cut keeps.
pub fn kept_maps(n: u16) -> usize
    ensures { result ≡ table.kept_maps n }
{
    n.saturating_sub(1) as usize / HEAD_BLOCKS
}

fn addresses_in(list: &[u16]) -> Row
    requires { length list.now ≡ head_blocks }
    ensures { result ≡ list.now }
{
    let mut addresses = [0; HEAD_BLOCKS];
    addresses.copy_from_slice(list);
    addresses
}

fn maps_in(list: &[u16]) -> MapRow
    requires { length list.now ≡ most_maps }
    ensures { result ≡ list.now }
{
    let mut maps = [0; MOST_MAPS];
    maps.copy_from_slice(list);
    maps
}

fn cut_maps(old: &MapRow, n: usize) -> MapRow
    ensures { result ≡ table.cut_addresses n old.now }
{
    let mut maps = *old;
    for j in n..MOST_MAPS {
        maps[j] = 0;
    }
    maps
}
