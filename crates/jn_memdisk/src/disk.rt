// The disk.
ghost use Rattle.std.specs.Prelude.{◌≡◌, ◌≤◌, ◌<◌, ◌+◌, ◌^◌, ◌/◌, ◌*◌, ℕ, List, length, vec_len, IfOk, true};
ghost use Rattle.jn_device.specs.Calls.{GetStep};
ghost use Rattle.jn_memdisk.specs.Faults.{all_within};
ghost use Rattle.jn_phys.specs.Answers.{look_read};

use crate::call::{bumped, get_is_done, get_stops, put_is_done, put_stops};
use crate::faults::Faults;
use crate::pages::{Pages, blank_halves};
use jn_base::{FaultKind, Outside, Page, Stopped};
use jn_device::Half;
use jn_phys::{Found, PhysDisk, PhysPower};
use std::alloc::{AllocError, Global};

/// Pages in memory, with power, and room for sixteen faults that wait and sixteen that were reported.
#[derive(Drop)]
pub struct MemDisk {
    pages: Pages,
    faults: Faults,
    power: bool,
    calls: u64,
    puts: u64,
    stops: u64,
    ghost within: { all_within (vec_len pages.halves) faults.waiting.items ≡ true },
}

impl MemDisk {
    ghost use Rattle.jn_memdisk.specs.Disk.{HasHalves, IsNew, IsBlank};

    /// So many good pages of zeros, with power.
    pub fn new(alloc: Global, count: u32) -> Result<Self, AllocError>
        requires { 2 * (count / 2) ≡ count }
        ensures blank { IfOk result (λ d. IsBlank count (⟦<MemDisk as PhysDisk>⟧.state d)) }
        ensures new { IfOk result (λ d. IsNew (⟦<MemDisk as PhysDisk>⟧.state d)) }
    {
        let halves = blank_halves(alloc, count)?;
        MemDisk::from_pages(alloc, halves)
    }

    /// A disk of these pages, with power. Page p and page p + half of their number are partners.
    pub fn from_pages(alloc: Global, pages: Vec<Half>) -> Result<Self, AllocError>
        requires even { 2 * (vec_len pages / 2) ≡ vec_len pages }
        requires few { vec_len pages < 2 ^ 32 }
        ensures holds { IfOk result (λ d. HasHalves pages.items (⟦<MemDisk as PhysDisk>⟧.state d)) }
        ensures new { IfOk result (λ d. IsNew (⟦<MemDisk as PhysDisk>⟧.state d)) }
    {
        Ok(MemDisk {
            pages: Pages::new(alloc, pages)?,
            faults: Faults::new(alloc)?,
            power: true,
            calls: 0,
            puts: 0,
            stops: 0,
        })
    }

    /// The pages, good or bad, with the bytes that they keep.
    pub fn pages(&self) -> &[Half]
        ensures { HasHalves result.now (⟦<MemDisk as PhysDisk>⟧.state self.now) }
    {
        &self.pages.halves
    }

    /// The pages, good or bad, with the bytes that they keep.
    pub fn into_pages(self) -> Vec<Half>
        ensures { HasHalves result.items (⟦<MemDisk as PhysDisk>⟧.state self) }
    {
        self.pages.halves
    }

    /// How many calls were done under power.
    pub fn calls(&self) -> u64
        ensures { result ≡ (⟦<MemDisk as PhysDisk>⟧.state self.now).calls }
    {
        self.calls
    }

    /// A get but for its bytes: whether the page is good.
    fn look(&mut self, p: u32) -> Result<bool, Stopped>
        requires { p < (⟦<MemDisk as PhysDisk>⟧.state self.old).count }
        ensures step { GetStep (⟦<MemDisk as PhysDisk>⟧.state self.old) p (look_read result ((⟦<MemDisk as PhysDisk>⟧.state self.new).pages p).bytes) (⟦<MemDisk as PhysDisk>⟧.state self.new) }
    {
        if !self.power {
            self.stops = bumped(self.stops);
            return Err(Stopped);
        }
        let kind = if self.faults.waiting.is_empty() {
            None
        } else {
            self.faults.strike()
        };
        // Most calls go this short way.
        if kind.is_none() {
            self.calls = bumped(self.calls);
            return Ok(self.pages.read(p));
        }
        self.faults.tell(self.pages.told_got(p, kind));
        let outcome = self.pages.get_outcome(p, kind);
        let answer = self.pages.get(p, kind, outcome);
        if get_is_done(outcome) {
            self.calls = bumped(self.calls);
        }
        if get_stops(outcome) {
            self.power = false;
            self.stops = bumped(self.stops);
        }
        answer
    }
}

impl PhysDisk for MemDisk {
    ghost use Rattle.jn_memdisk.specs.Disk.{pages_of};

    ghost state = { λ d. record {
      count = vec_len d.pages.halves;
      pages = pages_of d.pages;
      power = d.power;
      waiting = d.faults.waiting.items;
      told = d.faults.told.items;
      calls = d.calls;
      puts = d.puts;
      stops = d.stops;
    } };

    ghost few_fails = { λ d q. d.pages.few_fails q };

    ghost count_fits = { λ d. d.pages.few };

    fn count(&self) -> u32 {
        self.pages.count()
    }

    fn get(&mut self, p: u32, into: &mut Page) -> Result<bool, Stopped> {
        let good = self.look(p)?;
        if good {
            *into = self.pages.halves[p as usize].bytes;
        }
        Ok(good)
    }

    fn compare(&mut self, p: u32, page: &Page) -> Result<Found, Stopped> {
        if !self.look(p)? {
            return Ok(Found::LooksBad);
        }
        if self.pages.halves[p as usize].bytes == *page {
            Ok(Found::Same)
        } else {
            Ok(Found::Other)
        }
    }

    fn put(&mut self, p: u32, page: &Page) -> Result<(), Stopped> {
        if !self.power {
            self.stops = bumped(self.stops);
            return Err(Stopped);
        }
        let kind = if self.faults.waiting.is_empty() {
            None
        } else {
            self.faults.strike()
        };
        // Most calls go this short way.
        if kind.is_none() {
            self.pages.write(p, page);
            self.calls = bumped(self.calls);
            self.puts = bumped(self.puts);
            return Ok(());
        }
        self.faults.tell(self.pages.told_put(p, kind));
        let outcome = self.pages.put_outcome(p, kind);
        self.pages.put(p, kind, outcome, page);
        if put_is_done(outcome) {
            self.calls = bumped(self.calls);
            self.puts = bumped(self.puts);
        }
        if put_stops(outcome) {
            self.power = false;
            self.stops = bumped(self.stops);
            return Err(Stopped);
        }
        Ok(())
    }

    fn put_and_compare(&mut self, p: u32, page: &Page) -> Result<Found, Stopped> {
        // Where no fault waits, the page is there, and needn't be compared.
        let is_there = self.power && self.faults.waiting.is_empty();
        self.put(p, page)?;
        if is_there {
            let good = self.look(p)?;
            return Ok(if good { Found::Same } else { Found::LooksBad });
        }
        self.compare(p, page)
    }
}

impl PhysPower for MemDisk {
    fn power_up(&mut self) {
        self.pages.rest();
        self.power = true;
    }

    fn power_off(&mut self) {
        self.power = false;
    }

    fn decay(&mut self, p: u32) -> bool {
        let allowed = !self.pages.decay_outside(p);
        self.pages.meet(Some(FaultKind::Decay(p)));
        allowed
    }

    fn revive(&mut self, p: u32) {
        self.pages.meet(Some(FaultKind::Revive(p)));
    }

    fn arm(&mut self, n: u32, kind: FaultKind) -> bool {
        self.faults.arm(n, kind)
    }

    fn disarm(&mut self) {
        self.faults.disarm();
    }

    fn outside(&self) -> &[Outside] {
        &self.faults.told
    }

    fn clear_outside(&mut self) {
        self.faults.clear_told();
    }
}
