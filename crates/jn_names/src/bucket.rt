//! A bucket's block: whether it is one, and how it changes.
ghost use Rattle.std.specs.Prelude.{◌≡◌, ◌≤◌, ◌<◌, ◌+◌, ◌*◌, ◌++◌, ◌∷◌, ℕ, List, [], length, take, drop, true, Some, is_some, OnOk, IfSome};
ghost use Rattle.jn_order.specs.Changes.{or_also};
ghost use Rattle.jn_names.specs.Buckets.{Slot, slot_front, places_in, bucket_in, find_in, place_of, bound_in, unbound_in};
ghost use Rattle.jn_names.specs.Calls.{entries_of};
ghost use Rattle.jn_names.specs.Places.{are_named, IsPut};

use crate::entry::{Entries, Entry};
use crate::name::Name;
use crate::place::{PLACE, behind, entry_bytes, file_at, find, is_only_place, name_at, put_at};
use jn_base::{Block, FileNo};
use std::alloc::AllocError;

/// The places of a bucket.
pub const PLACES: usize = 6;

/// Whether the block is this bucket.
pub fn is_bucket(block: &Block, bucket: u16) -> bool
    ensures { result ≡ is_some (bucket_in bucket block.now) }
{
    let mut rest: &[u8] = block;
    for place in 0..PLACES {
        if !is_only_place(rest, PLACES - 1 - place, bucket) {
            return false;
        }
        rest = behind(rest);
    }
    rest == [0; 34].as_slice()
}

/// The file of a name.
pub fn find_name(block: &Block, name: &[u8]) -> Option<FileNo>
    requires { 1 ≤ length name.now }
    ensures { result ≡ find_in name.now (places_in block.now) }
{
    find(block, PLACES, name)
}

/// The first place with a name, or the first free one for the empty name.
fn place_of(block: &Block, name: &[u8]) -> Option<usize>
    ensures place { result ≡ place_of name.now (places_in block.now) }
    ensures few { IfSome result (λ place. place < 6) }
{
    let mut rest: &[u8] = block;
    for place in 0..PLACES {
        if name_at(rest) == name {
            return Some(place);
        }
        rest = behind(rest);
    }
    None
}

/// The place of a name, or else the first free one.
fn place_for(block: &Block, name: &[u8]) -> Option<usize>
    ensures place { result ≡ or_also (place_of name.now (places_in block.now)) (place_of [] (places_in block.now)) }
    ensures few { IfSome result (λ place. place < 6) }
{
    match place_of(block, name) {
        Some(place) => Some(place),
        None => place_of(block, &[]),
    }
}

/// Gives a name its file, in its place or else in the first free one. Whether there is one.
pub fn bind(block: &mut Block, name: &[u8], file: FileNo) -> bool
    requires { length name.now ≤ 64 }
    ensures { (k : ℕ) (slots : List Slot) → bucket_in k block.old ≡ Some slots → IsPut (bound_in name.now file slots) result block.new }
{
    let Some(place) = place_for(block, name) else {
        return false;
    };
    put_at(block, PLACE * place, &entry_bytes(name, file));
    true
}

/// Frees the place of a name. Whether there is one.
pub fn unbind(block: &mut Block, name: &[u8]) -> bool
    ensures { (k : ℕ) (slots : List Slot) → bucket_in k block.old ≡ Some slots → IsPut (unbound_in name.now slots) result block.new }
{
    let Some(place) = place_of(block, name) else {
        return false;
    };
    put_at(block, PLACE * place, &[0; 69]);
    true
}

/// Adds the entry of the place at the front of bytes, if there is one.
fn add_entry(entries: &mut Entries, bytes: &[u8]) -> Result<(), AllocError>
    requires long { 69 ≤ length bytes.now }
    requires named { are_named (slot_front bytes.now ∷ []) ≡ true }
    ensures { OnOk result (entries.new ≡ entries.old ++ entries_of (slot_front bytes.now ∷ [])) }
{
    let name = name_at(bytes);
    if name.is_empty() {
        return Ok(());
    }
    let entry = Entry {
        name: Name::new(name),
        file: file_at(bytes),
    };
    entries.push(entry)
}

/// Adds the entries of a bucket to others.
pub fn add_entries(entries: &mut Entries, block: &Block) -> Result<(), AllocError>
    requires { are_named (places_in block.now) ≡ true }
    ensures { OnOk result (entries.new ≡ entries.old ++ entries_of (places_in block.now)) }
{
    let mut rest: &[u8] = block;
    for _ in 0..PLACES {
        add_entry(entries, rest)?;
        rest = behind(rest);
    }
    Ok(())
}
