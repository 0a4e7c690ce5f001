//! Which puts of a list find their map pages.
ghost use Rattle.std.specs.Prelude.{◌≡◌, ◌<◌, ◌-◌, ◌/◌, ◌^◌, length, take, slice_get, Some};
ghost use Rattle.jn_base.specs.Limits.{head_blocks};
ghost use Rattle.jn_records.specs.declared.intention.Intention.{Intention as AnIntention};
ghost use Rattle.jn_records.specs.MapPlaces.{MapPlaces, has_map_after, places_then, range_of};

use crate::intention::{Intention, What};
use jn_base::{BlockNo, FileNo, HEAD_BLOCKS};

/// Whether map page `map` is there after an intention of its file.
fn has_map_after(what: What, block: BlockNo, map: usize, there: bool) -> bool
    requires { map < 2 ^ 16 }
    ensures { result ≡ has_map_after what block.0 map there }
{
    let block = usize::from(block.0);
    match what {
        What::Fresh | What::Gone => false,
        What::Cut => there && HEAD_BLOCKS * (map + 1) < block,
        What::Put => there || block / HEAD_BLOCKS == map + 1,
    }
}

/// Whether a file's map page is there after the list.
fn there_then(list: &[Intention], file: FileNo, map: usize, there: bool) -> bool
    requires { map < 2 ^ 16 }
    ensures { (places : MapPlaces) → places file map ≡ there → result ≡ places_then list.now places file map }
{
    let mut found = there;
    for intention in list {
        if intention.file == file {
            found = has_map_after(intention.what, intention.block, map, found);
        }
    }
    found
}

/// Whether the map page of the intention at `k` is there in its turn, where `there` says whether it is there before the list.
pub fn finds_map(list: &[Intention], k: usize, there: bool) -> bool
    requires { k < length list.now }
    ensures { (i : AnIntention) (places : MapPlaces) → slice_get list.now k ≡ Some i → places i.file (range_of i.block.0) ≡ there
        → result ≡ places_then (take k list.now) places i.file (range_of i.block.0) }
{
    let put = &list[k];
    let map = (usize::from(put.block.0) / HEAD_BLOCKS).saturating_sub(1);
    there_then(&list[..k], put.file, map, there)
}
