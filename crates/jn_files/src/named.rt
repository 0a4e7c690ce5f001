//! Which data pages are named, and so which are free.
ghost use Rattle.std.specs.Prelude.{◌≡◌, ◌<◌, ◌≤◌, true, false, length, drop, slice_index_or, slice_set};
ghost use Rattle.jn_records.specs.Heads.{all_within};
ghost use Rattle.jn_alloc.specs.Free.{count_of, is_free as is_free_number};
ghost use Rattle.jn_files.specs.Table as table;
ghost use Rattle.jn_files.specs.Inside as inside;

use crate::maps::{MapRow, Maps, Row};
use jn_alloc::FreeList;
use jn_base::{HEAD_BLOCKS, MOST_MAPS};

/// The data page that an address leads to is named.
fn name_one(named: &mut Vec<bool>, address: u16)
    requires { address ≤ length named.old.items }
    ensures { named.new.items ≡ inside.named_one address named.old.items }
{
    if address > 0 {
        named[address as usize - 1] = true;
    }
}

/// And those that these addresses lead to.
pub fn name_row(named: &mut Vec<bool>, row: &Row)
    requires { all_within (length named.old.items) row.now ≡ true }
    ensures { named.new.items ≡ inside.named_all row.now named.old.items }
{
    for k in 0..HEAD_BLOCKS {
        name_one(named, row[k]);
    }
}

/// And those that a map page leads to, and itself.
fn name_map(named: &mut Vec<bool>, maps: &Maps, address: u16)
    requires below { address ≤ length named.old.items }
    requires rows { table.AreRows (length named.old.items) maps.now }
    ensures { named.new.items ≡ inside.named_map maps.now address named.old.items }
{
    if address > 0 {
        name_row(named, maps.row(address - 1));
        name_one(named, address);
    }
}

pub fn name_maps(named: &mut Vec<bool>, maps: &Maps, addresses: &MapRow)
    requires below { all_within (length named.old.items) addresses.now ≡ true }
    requires rows { table.AreRows (length named.old.items) maps.now }
    ensures { named.new.items ≡ inside.named_maps maps.now addresses.now named.old.items }
{
    for j in 0..MOST_MAPS {
        name_map(named, maps, addresses[j]);
    }
}

/// The data page that an address leads to is named no more. It is free then, unless it is held.
pub fn unname_one(named: &mut Vec<bool>, free: &mut FreeList, held: &[bool], address: u16)
    requires kept { inside.AreFree held.now named.old.items free.old }
    requires below { address ≤ length held.now }
    ensures kept { inside.AreFree held.now named.new.items free.new }
    ensures named { named.new.items ≡ inside.unnamed_one address named.old.items }
    ensures promised { free.new.promised ≡ free.old.promised }
{
    if address == 0 {
        return;
    }
    let a = address as usize - 1;
    let frees = named[a] && !held[a];
    named[a] = false;
    give_if(frees, free, address - 1);
}

fn give_if(frees: bool, free: &mut FreeList, a: u16)
    requires below { frees ≡ true → a < count_of free.old }
    requires used { frees ≡ true → is_free_number free.old a ≡ false }
    ensures { free.new ≡ inside.given_if frees a free.old }
{
    if frees {
        free.give(a);
    }
}

/// And those that these addresses lead to, from one on.
pub fn unname_row(named: &mut Vec<bool>, free: &mut FreeList, held: &[bool], row: &Row, from: usize)
    requires kept { inside.AreFree held.now named.old.items free.old }
    requires below { all_within (length held.now) row.now ≡ true }
    ensures kept { inside.AreFree held.now named.new.items free.new }
    ensures named { named.new.items ≡ inside.unnamed_all (drop from row.now) named.old.items }
    ensures promised { free.new.promised ≡ free.old.promised }
{
    for k in from..HEAD_BLOCKS {
        unname_one(named, free, held, row[k]);
    }
}

/// And those that a map page leads to, and itself.
fn unname_map(named: &mut Vec<bool>, free: &mut FreeList, held: &[bool], maps: &Maps, address: u16)
    requires kept { inside.AreFree held.now named.old.items free.old }
    requires below { address ≤ length held.now }
    requires rows { table.AreRows (length held.now) maps.now }
    ensures kept { inside.AreFree held.now named.new.items free.new }
    ensures named { named.new.items ≡ inside.unnamed_map maps.now address named.old.items }
    ensures promised { free.new.promised ≡ free.old.promised }
{
    if address == 0 {
        return;
    }
    unname_row(named, free, held, maps.row(address - 1), 0);
    unname_one(named, free, held, address);
}

/// And those of map pages from one on.
pub fn unname_maps(
    named: &mut Vec<bool>,
    free: &mut FreeList,
    held: &[bool],
    maps: &Maps,
    addresses: &MapRow,
    from: usize,
)
    requires kept { inside.AreFree held.now named.old.items free.old }
    requires below { all_within (length held.now) addresses.now ≡ true }
    requires rows { table.AreRows (length held.now) maps.now }
    ensures kept { inside.AreFree held.now named.new.items free.new }
    ensures named { named.new.items ≡ inside.unnamed_maps maps.now (drop from addresses.now) named.old.items }
    ensures promised { free.new.promised ≡ free.old.promised }
{
    for j in from..MOST_MAPS {
        unname_map(named, free, held, maps, addresses[j]);
    }
}

/// A data page that is held is named in place of the one that an address leads to.
pub fn rename(named: &mut Vec<bool>, free: &mut FreeList, held: &[bool], old: u16, a: u16)
    requires kept { inside.AreFree held.now named.old.items free.old }
    requires below { old ≤ length held.now }
    requires held { slice_index_or held.now a false ≡ true }
    ensures kept { inside.AreFree held.now named.new.items free.new }
    ensures named { named.new.items ≡ slice_set (inside.unnamed_one old named.old.items) a true }
    ensures promised { free.new.promised ≡ free.old.promised }
{
    unname_one(named, free, held, old);
    name_held(named, free, held, a);
}

/// A data page that is held is named: it wasn't free.
pub fn name_held(named: &mut Vec<bool>, free: &FreeList, held: &[bool], a: u16)
    requires kept { inside.AreFree held.now named.old.items free.now }
    requires held { slice_index_or held.now a false ≡ true }
    ensures kept { inside.AreFree held.now named.new.items free.now }
    ensures named { named.new.items ≡ slice_set named.old.items a true }
{
    named[a as usize] = true;
}
