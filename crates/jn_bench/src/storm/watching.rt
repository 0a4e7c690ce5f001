//! A store whose puts and gets are watched: what they tell of map pages.
ghost use Rattle.std.specs.Prelude.{◌≡◌, IfOk};

use byteorder::{BigEndian, ByteOrder};
use jn_base::{FaultKind, HEAD_BLOCKS, MOST_MAPS, Outside, Page, Stopped};
use jn_device::blank_page;
use jn_intent::PageCounts;
use jn_records::read_entries;
use jn_store::{Powered, StableStore};
use std::alloc::{AllocError, Global};

/// How often each thing came about on the pages of servers.
#[derive(Clone, Copy)]
pub(crate) struct MapCounts {
    /// A head was put that names one map page more.
    pub(crate) fresh: u64,
    /// A map page was put without some of its blocks.
    pub(crate) inside: u64,
    /// A head was put without the map page at whose first block its file was cut.
    pub(crate) first: u64,
    /// A restart found a cut that had put its map page and not yet its head.
    pub(crate) parts: u64,
    /// A restart before the end of a run read a map page.
    pub(crate) restarts: u64,
}

/// The addresses of map pages in a head.
type Maps = [u16; MOST_MAPS];

fn add(count: &mut u64) {
    *count = count.saturating_add(1);
}

impl MapCounts {
    pub(crate) fn new() -> MapCounts {
        MapCounts {
            fresh: 0,
            inside: 0,
            first: 0,
            parts: 0,
            restarts: 0,
        }
    }

    pub(crate) fn add_all(&mut self, other: &MapCounts) {
        self.fresh = self.fresh.saturating_add(other.fresh);
        self.inside = self.inside.saturating_add(other.inside);
        self.first = self.first.saturating_add(other.first);
        self.parts = self.parts.saturating_add(other.parts);
        self.restarts = self.restarts.saturating_add(other.restarts);
    }
}

/// A map page whose cut has begun, and what it was before.
#[derive(Clone, Copy)]
struct Begun {
    place: usize,
    before: Page,
}

/// What a server's stable pages hold, as far as its calls told, and what was counted.
#[derive(Drop)]
struct Watch {
    /// The place of the first head, and of the first data page.
    heads: usize,
    leaves: usize,
    pages: Vec<Page>,
    begun: Option<Begun>,
    has_read: bool,
    is_over: bool,
    counts: MapCounts,
}

fn maps_of(head: &Page) -> Maps {
    let mut maps = [0; MOST_MAPS];
    BigEndian::read_u16_into(
        &head[5 + 2 * HEAD_BLOCKS..5 + 2 * HEAD_BLOCKS + 2 * MOST_MAPS],
        &mut maps,
    );
    maps
}

/// Whether a head has this address of a map page.
fn names(head: &Page, address: usize) -> bool {
    maps_of(head).iter().any(|map| usize::from(*map) == address)
}

/// Whether a map page lost blocks.
fn loses(before: &Page, after: &Page) -> bool {
    let entries = read_entries(after);
    for (k, entry) in read_entries(before).iter().enumerate() {
        if *entry != 0 && entries.get(k) == Some(&0) {
            return true;
        }
    }
    false
}

/// Whether this slot of the pool has the cut of a head's file at a block.
fn is_cut(slot: &Page, head: &Page, block: usize) -> bool {
    slot[0] == 1
        && slot[20] == 3
        && slot[21..25] == head[1..5]
        && usize::from(BigEndian::read_u16(&slot[25..27])) == block
}

impl Watch {
    fn new(alloc: Global, counts: PageCounts) -> Result<Watch, AllocError> {
        let heads = 1 + usize::from(counts.pool);
        let leaves = heads + usize::from(counts.heads);
        let mut pages = Vec::new(alloc);
        for _page in 0..leaves + usize::from(counts.leaves) {
            pages.push(blank_page())?;
        }
        Ok(Watch {
            heads,
            leaves,
            pages,
            begun: None,
            has_read: false,
            is_over: false,
            counts: MapCounts::new(),
        })
    }

    fn page(&self, place: usize) -> Page {
        match self.pages.get(place) {
            Some(page) => *page,
            None => blank_page(),
        }
    }

    fn set_page(&mut self, place: usize, page: &Page) {
        if let Some(kept) = self.pages.get_mut(place) {
            *kept = *page;
        }
    }

    fn is_head(&self, place: usize) -> bool {
        self.heads <= place && place < self.leaves
    }

    /// Whether some head names this page as a map page.
    fn is_map(&self, place: usize) -> bool {
        if place < self.leaves {
            return false;
        }
        let address = (place - self.leaves).saturating_add(1);
        for head in self.heads..self.leaves {
            if names(&self.page(head), address) {
                return true;
            }
        }
        false
    }

    /// Whether the pool has the cut of a head's file at a block.
    fn has_cut(&self, head: &Page, block: usize) -> bool {
        for slot in 1..self.heads {
            if is_cut(&self.page(slot), head, block) {
                return true;
            }
        }
        false
    }

    /// A head is put in place of another one.
    fn count_maps(&mut self, before: &Page, after: &Page) {
        let maps = maps_of(after);
        for (j, old) in maps_of(before).iter().enumerate() {
            let is_there = maps.get(j) != Some(&0);
            if *old == 0 && is_there {
                add(&mut self.counts.fresh);
            }
            let block = HEAD_BLOCKS.saturating_mul(j.saturating_add(1));
            if *old != 0 && !is_there && self.has_cut(after, block) {
                add(&mut self.counts.first);
            }
        }
    }

    /// A page is to be put.
    fn begin(&mut self, place: usize, page: &Page) {
        let before = self.page(place);
        if self.is_map(place) && loses(&before, page) {
            self.begun = Some(Begun { place, before });
        }
    }

    /// A page was put. A cut begins with its map page, and the next put is that of its head.
    fn put(&mut self, place: usize, page: &Page) {
        let before = self.page(place);
        if self.is_head(place) {
            self.count_maps(&before, page);
        }
        if self.is_map(place) && loses(&before, page) {
            add(&mut self.counts.inside);
        } else {
            self.begun = None;
        }
        self.set_page(place, page);
    }

    /// A page was got. A restart gets the heads before their map pages, and nothing else gets these.
    fn got(&mut self, place: usize, page: &Page) {
        if self.is_head(place) && self.page(place) != *page {
            self.begun = None;
        }
        if self.is_map(place) {
            self.got_map(place, page);
        }
        self.set_page(place, page);
    }

    fn got_map(&mut self, place: usize, page: &Page) {
        if !self.has_read && !self.is_over {
            self.has_read = true;
            add(&mut self.counts.restarts);
        }
        let Some(begun) = self.begun else {
            return;
        };
        if begun.place == place {
            self.begun = None;
            let before = begun.before;
            if before != *page {
                add(&mut self.counts.parts);
            }
        }
    }
}

/// A store that is watched. No call of its own comes to the device.
#[derive(Drop)]
pub(crate) struct Watched<S: Powered + Drop> {
    store: S,
    watch: Watch,
}

impl<S: Powered + Drop> Watched<S> {
    pub(crate) fn new(alloc: Global, store: S, counts: PageCounts) -> Result<Watched<S>, AllocError>
        ensures { IfOk result (λ w. ⟦<Watched<S> as StableStore>⟧.view w ≡ S.view store) }
    {
        Ok(Watched {
            store,
            watch: Watch::new(alloc, counts)?,
        })
    }

    pub(crate) fn counts(&self) -> MapCounts {
        self.watch.counts
    }
}

impl<S: Powered + Drop> StableStore for Watched<S> {
    ghost view = { λ s. S.view s.store };

    ghost count_fits = { λ s. S.count_fits s.store };

    fn count(&self) -> u32 {
        self.store.count()
    }

    fn get(&mut self, i: u32) -> Result<Page, Stopped> {
        let page = self.store.get(i)?;
        self.watch.got(i as usize, &page);
        Ok(page)
    }

    fn put(&mut self, i: u32, page: &Page) -> Result<(), Stopped> {
        self.watch.begin(i as usize, page);
        self.store.put(i, page)?;
        self.watch.put(i as usize, page);
        Ok(())
    }

    fn cleanup(&mut self, i: u32) -> Result<bool, Stopped> {
        self.store.cleanup(i)
    }
}

impl<S: Powered + Drop> Powered for Watched<S> {
    ghost device = { λ s. S.device s.store };

    ghost seen = { λ s. S.seen s.store };

    fn power_up(&mut self) {
        self.watch.has_read = false;
        self.store.power_up();
    }

    fn power_off(&mut self) {
        self.store.power_off();
    }

    fn decay(&mut self, p: u32) -> bool {
        self.store.decay(p)
    }

    fn revive(&mut self, p: u32) {
        self.store.revive(p);
    }

    fn arm(&mut self, n: u32, kind: FaultKind) -> bool {
        self.store.arm(n, kind)
    }

    fn disarm(&mut self) {
        self.watch.is_over = true;
        self.store.disarm();
    }

    fn outside(&self) -> &[Outside] {
        self.store.outside()
    }

    fn clear_outside(&mut self) {
        self.store.clear_outside();
    }
}
