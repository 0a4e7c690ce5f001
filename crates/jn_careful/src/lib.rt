//! Careful pages: gets and puts that are repeated until they hold (Lampson and Sturgis 1979).
#![tactic(auto)]

ghost use Rattle.std.specs.Prelude.{◌≡◌, ◌≢◌, ◌≤◌, ◌<◌, [], ℕ, is_err, true, Ok};
ghost use Rattle.jn_careful.specs.Careful.{CarefulGot, CarefulPut, page_read, page_compared};
ghost use Rattle.jn_careful.specs.Tries.{MakesGets, MakesPuts};
ghost use Rattle.jn_phys.specs.Answers.{IsCompared};
ghost use Rattle.jn_device.specs.Events.{PowersUp, powered_off, Decays, Revives, Arms, is_within, disarmed, cleared};

mod one_call;

use jn_base::{FaultKind, Outside, Page, Stopped};
use jn_phys::{Found, PhysDisk, PhysPower};
pub use one_call::a_good_page_is_got_by_one_call;
use std::marker::Model;

/// How often a call is tried. A page fails at most three times until it is read.
const TRIES: u32 = 4;

/// A disk whose pages are got and put carefully. Contracts see the disk itself.
#[derive(Drop)]
pub struct Careful<D> {
    disk: D,
}

impl<D> Model for Careful<D> {
    ghost Value = { D };

    ghost view = { λ c. c.disk };
}

impl<D> Careful<D> {
    pub fn new(disk: D) -> Self
        ensures { result ≡ disk }
    {
        Careful { disk }
    }

    pub fn into_inner(self) -> D
        ensures { result ≡ self }
    {
        let Careful { disk } = self;
        disk
    }
}

impl<D: PhysDisk> Careful<D> {
    /// How many physical pages there are.
    pub fn count(&self) -> u32
        ensures { result ≡ (D.state self.now).count }
    {
        self.disk.count()
    }

    /// Reads a page: true where its bytes are in `into`, and false exactly where it is bad at the
    /// return. But for true, `into` is as it was. At most 4 device calls.
    pub fn get(&mut self, p: u32, into: &mut Page) -> Result<bool, Stopped>
        requires { p < (D.state self.old).count }
        ensures got { CarefulGot (D.state self.old) p (page_read result into.new) (D.state self.new) }
        ensures makes { MakesGets (D.state self.old) p (page_read result into.new) (D.state self.new) }
        ensures kept { result ≢ Ok true → into.new ≡ into.old }
    {
        for _try in 0..TRIES {
            if self.disk.get(p, into)? {
                return Ok(true);
            }
        }
        Ok(false)
    }

    /// A get that compares the page where it stands; it looks bad exactly where it is bad at the
    /// return. At most 4 device calls.
    pub fn compare(&mut self, p: u32, page: &Page) -> Result<Found, Stopped>
        requires { p < (D.state self.old).count }
        ensures got { CarefulGot (D.state self.old) p (page_compared result ((D.state self.new).pages p).bytes) (D.state self.new) }
        ensures makes { MakesGets (D.state self.old) p (page_compared result ((D.state self.new).pages p).bytes) (D.state self.new) }
        ensures compared { IsCompared result ((D.state self.new).pages p).bytes page.now }
    {
        for _try in 0..TRIES {
            let found = self.disk.compare(p, page)?;
            if found != Found::LooksBad {
                return Ok(found);
            }
        }
        Ok(Found::LooksBad)
    }

    /// Puts the page and reads it back, until it is there: Ok means that it is good with these
    /// bytes. At most 8 device calls.
    pub fn put(&mut self, p: u32, page: &Page) -> Result<(), Stopped>
        requires { p < (D.state self.old).count }
        ensures put { CarefulPut (D.state self.old) p page.now (is_err result) (D.state self.new) }
        ensures makes { MakesPuts (D.state self.old) p page.now (is_err result) (D.state self.new) }
    {
        for _try in 0..TRIES {
            let found = self.disk.put_and_compare(p, page)?;
            if found == Found::Same {
                return Ok(());
            }
        }
        unreachable!()
    }
}

/// The device's power and faults, handed on as `PhysPower` has them.
impl<D: PhysPower> Careful<D> {
    pub fn power_up(&mut self)
        ensures up { PowersUp (D.state self.old) (D.state self.new) }
    {
        self.disk.power_up();
    }

    pub fn power_off(&mut self)
        ensures off { D.state self.new ≡ powered_off (D.state self.old) }
    {
        self.disk.power_off();
    }

    pub fn decay(&mut self, p: u32) -> bool
        requires { p < (D.state self.old).count }
        ensures decays { Decays (D.state self.old) p result (D.state self.new) }
    {
        self.disk.decay(p)
    }

    pub fn revive(&mut self, p: u32)
        requires { p < (D.state self.old).count }
        ensures revives { Revives (D.state self.old) p (D.state self.new) }
    {
        self.disk.revive(p);
    }

    pub fn arm(&mut self, n: u32, kind: FaultKind) -> bool
        requires from_one { 0 < n }
        requires within { is_within (D.state self.old).count kind ≡ true }
        requires none_told { (D.state self.old).told ≡ [] }
        ensures arms { Arms (D.state self.old) n kind result (D.state self.new) }
    {
        self.disk.arm(n, kind)
    }

    pub fn disarm(&mut self)
        ensures disarmed { D.state self.new ≡ disarmed (D.state self.old) }
    {
        self.disk.disarm();
    }

    pub fn outside(&self) -> &[Outside]
        ensures { result.now ≡ (D.state self.now).told }
    {
        self.disk.outside()
    }

    pub fn clear_outside(&mut self)
        ensures cleared { D.state self.new ≡ cleared (D.state self.old) }
    {
        self.disk.clear_outside();
    }
}
