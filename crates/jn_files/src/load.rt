//! What a table is loaded from, page by page.
ghost use Rattle.std.specs.Prelude.{◌≡◌, ◌^◌, ◌≢◌, ◌<◌, ◌≤◌, ◌+◌, ℕ, suc, false, not, length, List, slice_index_or, Err, IfOk, IsOk, IsErr};
ghost use Rattle.jn_alloc.specs.Free.{is_free as is_free_number, count_of};
ghost use Rattle.jn_base.specs.Limits.{most_maps};
ghost use Rattle.jn_base.specs.declared.fault.CallFault.TheVariants.{Stopped as LoadStopped};
ghost use Rattle.jn_records.specs.declared.head.Head.{Head as HeadOf};
ghost use Rattle.jn_records.specs.Heads.{IsMapPage, map_page, IsMapRow, head_in};
ghost use Rattle.jn_records.specs.MapPlaces.{map_count, maps_named};
ghost use Rattle.jn_records.specs.StablePages.{counts_of, data_place, page_count};
ghost use Rattle.jn_store.specs.Store.{IsCalm, IsServed, IsStop, StoreRead};
ghost use Rattle.jn_files.specs.Table as table;
ghost use Rattle.jn_files.specs.Pages as pages;
ghost use Rattle.jn_files.specs.Calls as calls;
ghost use Rattle.jn_files.specs.Inside as inside;

use crate::fault::LoadFault;
use crate::maps::{Maps, Row};
use crate::slot::Slot;
use jn_alloc::FreeList;
use jn_base::{MOST_MAPS, Page, Stopped};
use jn_records::{Head, Root, map_entries};
use jn_store::StableStore;
use std::alloc::{AllocError, Global};

/// The heads that a store holds, and the map pages that they name.
#[derive(Drop)]
pub struct PagesRead {
    pub slots: Vec<Slot>,
    pub maps: Maps,
}

/// Reads the heads, and cleans and reads their map pages.
pub fn read_pages<S: StableStore>(
    alloc: Global,
    store: &mut S,
    root: &Root,
) -> Result<PagesRead, LoadFault>
    requires counts { (S.view store.old).count ≡ 1 + root.now.pool + root.now.heads + root.now.leaves }
    requires loadable { (heads : List HeadOf) × pages.MapsLoadable (counts_of root.now) heads (S.view store.old) }
    ensures found { (heads : List HeadOf) → pages.MapsLoadable (counts_of root.now) heads (S.view store.old) → IfOk result (λ r. inside.IsReadFrom (counts_of root.now) heads r.slots.items r.maps (S.view store.new)) }
    ensures read { (heads : List HeadOf) → pages.MapsLoadable (counts_of root.now) heads (S.view store.old) → calls.LoadedFrom (counts_of root.now) heads (S.view store.old) (S.view store.new) }
    ensures mended { IsOk result → (heads : List HeadOf) → pages.MapsLoadable (counts_of root.now) heads (S.view store.old) → calls.MendsMaps (counts_of root.now) heads (S.view store.old) (S.view store.new) }
    ensures few { root.now.heads < 2 ^ 16 }
    ensures served { IsOk result → 0 < root.now.heads → IsServed (S.view store.old) (S.view store.new) }
    ensures stops { IsOk result → (S.view store.new).stops ≡ (S.view store.old).stops }
    ensures stop { result ≡ Err LoadStopped → IsStop (S.view store.old) (S.view store.new) }
    ensures calm { IsCalm (S.view store.old) → result ≢ Err LoadStopped }
{
    let slots = read_slots(alloc, store, root)?;
    let maps = read_maps(alloc, store, root, &slots)?;
    Ok(PagesRead { slots, maps })
}

/// The heads of a store.
fn read_slots<S: StableStore>(
    alloc: Global,
    store: &mut S,
    root: &Root,
) -> Result<Vec<Slot>, LoadFault>
    requires counts { (S.view store.old).count ≡ 1 + root.now.pool + root.now.heads + root.now.leaves }
    requires loadable { (heads : List HeadOf) × pages.MapsLoadable (counts_of root.now) heads (S.view store.old) }
    ensures heads { (heads : List HeadOf) → pages.MapsLoadable (counts_of root.now) heads (S.view store.old) → IfOk result (λ slots. slots.items ≡ heads) }
    ensures few { root.now.heads < 2 ^ 16 }
    ensures read { StoreRead (S.view store.old) root.now.heads (S.view store.new) }
    ensures served { IsOk result → 0 < root.now.heads → IsServed (S.view store.old) (S.view store.new) }
    ensures stops { IsOk result → (S.view store.new).stops ≡ (S.view store.old).stops }
    ensures stop { result ≡ Err LoadStopped → IsStop (S.view store.old) (S.view store.new) }
    ensures calm { IsCalm (S.view store.old) → result ≢ Err LoadStopped }
{
    let mut slots = Vec::with_capacity(alloc, root.heads as usize)?;
    for slot in 0..root.heads {
        let head = read_slot(
            alloc,
            store,
            1 + u32::from(root.pool) + u32::from(slot),
            root.leaves,
        )?;
        slots.push(head)?;
    }
    Ok(slots)
}

/// The head whose page stands clean at a place.
fn read_slot<S: StableStore>(
    alloc: Global,
    store: &mut S,
    place: u32,
    leaves: u16,
) -> Result<Slot, LoadFault>
    requires there { place < (S.view store.old).count }
    requires readable { (h : HeadOf) × inside.IsHeadAt (S.view store.old) place leaves h }
    ensures found { (h : HeadOf) → inside.IsHeadAt (S.view store.old) place leaves h → IfOk result (λ slot. slot ≡ h) }
    ensures read { StoreRead (S.view store.old) 1 (S.view store.new) }
    ensures served { IsOk result → IsServed (S.view store.old) (S.view store.new) }
    ensures stop { result ≡ Err LoadStopped → IsStop (S.view store.old) (S.view store.new) }
    ensures calm { IsCalm (S.view store.old) → result ≢ Err LoadStopped }
{
    let page = store.get(place)?;
    let Some(head) = Head::decode(alloc, &page, leaves)? else {
        unreachable!()
    };
    Ok(Slot::of_head(&head))
}

/// The map pages that heads name, of which each is cleaned and read.
fn read_maps<S: StableStore>(
    alloc: Global,
    store: &mut S,
    root: &Root,
    slots: &[Slot],
) -> Result<Maps, LoadFault>
    requires fits { (S.view store.old).count ≡ page_count (counts_of root.now) }
    requires heads { (slot : ℕ) → table.IsHeadOf root.now.leaves (head_in slots.now slot) }
    requires pages { inside.AreMapPages (counts_of root.now) (inside.IsMapOfHeads slots.now (length slots.now)) (S.view store.old) }
    ensures cleaned { inside.MapsCleaned (counts_of root.now) (inside.IsMapOfHeads slots.now (length slots.now)) (maps_named slots.now) (S.view store.old) (S.view store.new) }
    ensures read { IfOk result (λ maps. inside.MapsHeld (counts_of root.now) (inside.IsMapOfHeads slots.now (length slots.now)) maps (S.view store.new)) }
    ensures mended { IsOk result → inside.MapsMended (counts_of root.now) (inside.IsMapOfHeads slots.now (length slots.now)) (S.view store.old) (S.view store.new) }
    ensures few { root.now.leaves < 2 ^ 16 }
    ensures served { IsOk result → inside.KeepsPower (S.view store.old) (S.view store.new) }
    ensures stop { result ≡ Err LoadStopped → IsStop (S.view store.old) (S.view store.new) }
    ensures calm { IsCalm (S.view store.old) → result ≢ Err LoadStopped }
{
    let mut maps = Maps::new(alloc, root.leaves)?;
    for slot in slots {
        read_maps_of(store, root, slot, &mut maps)?;
    }
    Ok(maps)
}

/// The map pages of a head.
fn read_maps_of<S: StableStore>(
    store: &mut S,
    root: &Root,
    slot: &Slot,
    maps: &mut Maps,
) -> Result<(), Stopped>
    requires fits { (S.view store.old).count ≡ page_count (counts_of root.now) }
    requires rows { length maps.old ≡ root.now.leaves }
    requires head { table.IsHeadOf root.now.leaves slot.now }
    requires pages { inside.AreMapPages (counts_of root.now) (inside.IsMapOfHead slot.now most_maps) (S.view store.old) }
    ensures cleaned { inside.MapsCleaned (counts_of root.now) (inside.IsMapOfHead slot.now most_maps) (map_count slot.now) (S.view store.old) (S.view store.new) }
    ensures read { IsOk result → inside.MapsRead (counts_of root.now) (inside.IsMapOfHead slot.now most_maps) (S.view store.old) maps.old (S.view store.new) maps.new }
    ensures mended { IsOk result → inside.MapsMended (counts_of root.now) (inside.IsMapOfHead slot.now most_maps) (S.view store.old) (S.view store.new) }
    ensures served { IsOk result → inside.KeepsPower (S.view store.old) (S.view store.new) }
    ensures stop { IsErr result → IsStop (S.view store.old) (S.view store.new) }
    ensures calm { IsCalm (S.view store.old) → IsOk result }
{
    for j in 0..MOST_MAPS as u16 {
        read_map(store, root, slot.map(j), maps)?;
    }
    Ok(())
}

/// The map page that an address leads to, if it leads to one.
fn read_map<S: StableStore>(
    store: &mut S,
    root: &Root,
    address: u16,
    maps: &mut Maps,
) -> Result<(), Stopped>
    requires fits { (S.view store.old).count ≡ page_count (counts_of root.now) }
    requires rows { length maps.old ≡ root.now.leaves }
    requires below { address ≤ root.now.leaves }
    requires pages { inside.AreMapPages (counts_of root.now) (λ d. address ≡ suc d) (S.view store.old) }
    ensures cleaned { inside.MapsCleaned (counts_of root.now) (λ d. address ≡ suc d) (inside.one_if address) (S.view store.old) (S.view store.new) }
    ensures read { IsOk result → inside.MapsRead (counts_of root.now) (λ d. address ≡ suc d) (S.view store.old) maps.old (S.view store.new) maps.new }
    ensures mended { IsOk result → inside.MapsMended (counts_of root.now) (λ d. address ≡ suc d) (S.view store.old) (S.view store.new) }
    ensures served { IsOk result → inside.KeepsPower (S.view store.old) (S.view store.new) }
    ensures stop { IsErr result → IsStop (S.view store.old) (S.view store.new) }
    ensures calm { IsCalm (S.view store.old) → IsOk result }
{
    if address == 0 {
        return Ok(());
    }
    let place = data_place(root, address - 1);
    store.cleanup(place)?;
    let page = store.get(place)?;
    maps.replace(address - 1, row_of(&page, root.leaves));
    Ok(())
}

/// The place of a data page.
fn data_place(root: &Root, d: u16) -> u32
    ensures { result ≡ data_place (counts_of root.now) d }
{
    1 + u32::from(root.pool) + u32::from(root.heads) + u32::from(d)
}

/// The entries of a map page.
fn row_of(page: &Page, leaves: u16) -> Row
    requires { IsMapPage leaves page.now }
    ensures page { page.now ≡ map_page result }
    ensures row { IsMapRow leaves result }
{
    let Some(row) = map_entries(page, leaves) else {
        unreachable!()
    };
    row
}

/// The list of the heads that no file has.
pub fn free_heads(alloc: Global, slots: &[Slot]) -> Result<FreeList, AllocError>
    requires { length slots.now ≤ 65535 }
    ensures { IfOk result (λ free. inside.AreFreeHeads slots.now free) }
{
    let mut free = FreeList::new(alloc, slots.len() as u16, &[])?;
    for (slot, head) in slots.iter().enumerate() {
        if !head.is_free() {
            free.take_this(slot as u16);
        }
    }
    Ok(free)
}

/// The list of the data pages that nothing names.
pub fn free_leaves(alloc: Global, leaves: u16, named: &[bool]) -> Result<FreeList, AllocError>
    requires { length named.now ≡ leaves }
    ensures count { IfOk result (λ free. count_of free ≡ leaves) }
    ensures promised { IfOk result (λ free. free.promised ≡ 0) }
    ensures each { IfOk result (λ free. (a : ℕ) → a < leaves → is_free_number free a ≡ not (slice_index_or named.now a false)) }
{
    let mut free = FreeList::new(alloc, leaves, &[])?;
    for a in 0..leaves {
        if named[a as usize] {
            free.take_this(a);
        }
    }
    Ok(free)
}

/// Of each data page, whether a head or a map page names it.
pub fn named_pages(
    alloc: Global,
    leaves: u16,
    slots: &[Slot],
    maps: &Maps,
) -> Result<Vec<bool>, AllocError>
    requires heads { (slot : ℕ) → table.IsHeadOf leaves (head_in slots.now slot) }
    requires rows { table.AreRows leaves maps.now }
    ensures length { IfOk result (λ named. length named.items ≡ leaves) }
    ensures named { IfOk result (λ named. inside.AreNamed (table.layouts_of maps.now slots.now) named.items) }
{
    let mut named = none_set(alloc, leaves)?;
    for slot in slots {
        slot.name_all(&mut named, maps);
    }
    Ok(named)
}

/// So many flags, none of which is set.
pub fn none_set(alloc: Global, count: u16) -> Result<Vec<bool>, AllocError>
    ensures length { IfOk result (λ flags. length flags.items ≡ count) }
    ensures few { count < 2 ^ 16 }
    ensures none { IfOk result (λ flags. (a : ℕ) → slice_index_or flags.items a false ≡ false) }
{
    let mut flags = Vec::with_capacity(alloc, count as usize)?;
    flags.resize(count as usize, false)?;
    Ok(flags)
}
