//! How often each address is written in the heads of an image and in its map pages.
ghost use Rattle.std.specs.Prelude.{◌≡◌, ◌↔◌, ◌<◌, ◌+◌, ◌*◌, ℕ, List, length, slice_index, IfOk, IsTrue};
ghost use Rattle.jn_records.specs.Heads.{IsMapPage};
ghost use Rattle.jn_records.specs.StablePages.{HasEntries, data_place, page_count};
ghost use Rattle.jn_image.specs.Form.{image_counts};
ghost use Rattle.jn_image.specs.Repeats.{Finds};
ghost use Rattle.jn_image.specs.Unsound.{seen};
ghost use Rattle.jn_image.specs.Written.{noted, noted_all, no_times, maps_noted, all_maps_noted, head_noted, heads_noted, AreEntries, page_noted, pages_noted, all_noted, IsMapWhereNamed, IsTwice, IsNotTwice};

use crate::image::Image;
use jn_base::Page;
use jn_records::{Head, is_map_page, read_entries};
use std::alloc::{AllocError, Global};

/// Of each address how often heads name it as that of a map page, at most twice.
pub(crate) fn named_maps(
    alloc: Global,
    leaves: u16,
    heads: &[Option<Head>],
) -> Result<Vec<u8>, AllocError>
    ensures { IfOk result (λ v. v.items ≡ all_maps_noted (no_times leaves) heads.now) }
{
    let mut times = no_times(alloc, leaves)?;
    for head in heads {
        note_maps(&mut times, head);
    }
    Ok(times)
}

/// The first data page that is named as a map page and is none.
pub(crate) fn first_no_map(image: &Image, named: &[u8]) -> Option<u32>
    requires pages { length image.now.pages ≡ 2 * page_count (image_counts image.now) }
    requires named { length named.now ≡ image.now.leaves + 1 }
    ensures { Finds (IsMapWhereNamed (seen image.now) named.now) result }
{
    for i in 0..usize::from(image.leaf_count()) {
        if !is_as_named(image, named[i + 1], i) {
            return Some(i as u32);
        }
    }
    None
}

/// The least address that is written twice. A map page that is named twice is read once.
pub(crate) fn first_twice(
    alloc: Global,
    image: &Image,
    heads: &[Option<Head>],
    named: &[u8],
) -> Result<Option<u32>, AllocError>
    requires pages { length image.now.pages ≡ 2 * page_count (image_counts image.now) }
    requires named { length named.now ≡ image.now.leaves + 1 }
    ensures { IfOk result (λ r. (entries : ℕ → List ℕ) → AreEntries (seen image.now) entries → Finds (IsNotTwice image.now.leaves (all_noted image.now.leaves heads.now named.now entries)) r) }
{
    let mut times = no_times(alloc, image.leaf_count())?;
    note_heads(&mut times, heads);
    note_pages(&mut times, image, named);
    Ok(least_twice(&times, image.leaf_count()))
}

// ---- one address after another

/// No address is written: there is one for each data page, behind 0.
fn no_times(alloc: Global, leaves: u16) -> Result<Vec<u8>, AllocError>
    ensures { IfOk result (λ v. v.items ≡ no_times leaves) }
{
    let mut times = Vec::new(alloc);
    for _ in 0..usize::from(leaves) + 1 {
        times.push(0)?;
    }
    Ok(times)
}

/// Address 0 is none. What is written a second time counts no further.
fn note(times: &mut Vec<u8>, address: usize)
    ensures { times.new.items ≡ noted times.old.items address }
{
    if 0 < address && address < times.len() && times[address] < 2 {
        times[address] += 1;
    }
}

fn note_all(times: &mut Vec<u8>, addresses: &[u16])
    ensures { times.new.items ≡ noted_all times.old.items addresses.now }
{
    for address in addresses {
        note(times, usize::from(*address));
    }
}

/// The least address that was noted twice.
fn least_twice(times: &[u8], leaves: u16) -> Option<u32>
    ensures { Finds (IsNotTwice leaves times.now) result }
{
    for i in 0..usize::from(leaves) + 1 {
        if is_twice(times, i) {
            return Some(i as u32);
        }
    }
    None
}

fn is_twice(times: &[u8], i: usize) -> bool
    ensures { IsTrue result ↔ IsTwice times.now i }
{
    i < times.len() && times[i] > 1
}

// ---- heads and map pages

fn note_maps(times: &mut Vec<u8>, head: &Option<Head>)
    ensures { times.new.items ≡ maps_noted times.old.items head.now }
{
    match head {
        Some(Head::Used { maps, .. }) => note_all(times, maps.as_slice()),
        Some(Head::Free) | None => {}
    }
}

fn note_head(times: &mut Vec<u8>, head: &Option<Head>)
    ensures { times.new.items ≡ head_noted times.old.items head.now }
{
    match head {
        Some(
            Head::Used {
                addresses,
                maps,
                ..
            },
        ) => {
            note_all(times, addresses.as_slice());
            note_all(times, maps.as_slice());
        }
        Some(Head::Free) | None => {}
    }
}

fn note_heads(times: &mut Vec<u8>, heads: &[Option<Head>])
    ensures { times.new.items ≡ heads_noted times.old.items heads.now }
{
    for head in heads {
        note_head(times, head);
    }
}

/// The entries of each data page that is named as a map page.
fn note_pages(times: &mut Vec<u8>, image: &Image, named: &[u8])
    requires pages { length image.now.pages ≡ 2 * page_count (image_counts image.now) }
    requires named { length named.now ≡ image.now.leaves + 1 }
    ensures { (entries : ℕ → List ℕ) → AreEntries (seen image.now) entries → times.new.items ≡ pages_noted named.now entries times.old.items 0 image.now.leaves }
{
    for i in 0..usize::from(image.leaf_count()) {
        note_page(times, named[i + 1], data_page(image, i));
    }
}

fn note_page(times: &mut Vec<u8>, named: u8, page: &Page)
    ensures { (entries : List ℕ) → HasEntries page.now entries → times.new.items ≡ page_noted named entries times.old.items }
{
    if named > 0 {
        let entries = read_entries(page);
        note_all(times, &entries);
    }
}

/// Whether a data page is a map page, where it is named as one.
fn is_as_named(image: &Image, named: u8, i: usize) -> bool
    requires pages { length image.now.pages ≡ 2 * page_count (image_counts image.now) }
    requires within { i < image.now.leaves }
    ensures { IsTrue result ↔ (0 < named → IsMapPage image.now.leaves ((seen image.now).bytes (data_place (image_counts image.now) i))) }
{
    if named == 0 {
        return true;
    }
    is_map_page(data_page(image, i), image.leaf_count())
}

fn data_page(image: &Image, i: usize) -> &Page
    requires pages { length image.now.pages ≡ 2 * page_count (image_counts image.now) }
    requires within { i < image.now.leaves }
    ensures { result.now ≡ (seen image.now).bytes (data_place (image_counts image.now) i) }
{
    image.page(1 + image.pool as usize + image.heads as usize + i)
}
