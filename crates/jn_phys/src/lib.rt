//! A disk of physical pages, as the layers above see it.
//!
//! Every call is the device step of `jn_device`: a get and a put meet at most one fault each, and
//! nothing else happens to the pages. No call takes memory.
#![tactic(auto)]

ghost use Rattle.std.specs.Prelude.{◌≡◌, ◌≢◌, ◌≤◌, ◌<◌, ◌^◌, [], ℕ, is_err, true, Ok};
ghost use Rattle.jn_device.specs.Device.{DeviceState};
ghost use Rattle.jn_device.specs.Calls.{GetStep, PutStep};
ghost use Rattle.jn_device.specs.Events.{PowersUp, powered_off, Decays, Revives, Arms, is_within, disarmed, cleared};
ghost use Rattle.jn_phys.specs.Answers.{look_read, look_compared, IsCompared, PutCompared};

use jn_base::{FaultKind, Outside, Page, Stopped};

/// How a page that is got compares with another.
#[derive(Clone, Copy, Debug, PartialEq, Eq)]
pub enum Found {
    /// It is good and has the same bytes.
    Same,
    /// It is good and has other bytes.
    Other,
    LooksBad,
}

/// Physical pages, numbered from 0. Page p and page p + count / 2 are partners.
pub trait PhysDisk {
    /// The pages, the power, the faults that wait and the counts.
    ghost state: { Self → DeviceState };

    /// How many physical pages there are.
    fn count(&self) -> u32
        ensures { result ≡ (state self.now).count };

    /// Reads a page: true where it is good, and its bytes are in `into`, which is else as it was.
    /// Stopped is answered without power, and at a stop, which takes the power.
    fn get(&mut self, p: u32, into: &mut Page) -> Result<bool, Stopped>
        requires { p < (state self.old).count }
        ensures step { GetStep (state self.old) p (look_read result into.new) (state self.new) }
        ensures kept { result ≢ Ok true → into.new ≡ into.old };

    /// The same device call, which compares the page where it stands.
    fn compare(&mut self, p: u32, page: &Page) -> Result<Found, Stopped>
        requires { p < (state self.old).count }
        ensures step { GetStep (state self.old) p (look_compared result ((state self.new).pages p).bytes) (state self.new) }
        ensures compared { IsCompared result ((state self.new).pages p).bytes page.now };

    /// Ok doesn't say that the page is there: a put may miss its page or spoil it, unnoticed.
    fn put(&mut self, p: u32, page: &Page) -> Result<(), Stopped>
        requires { p < (state self.old).count }
        ensures step { PutStep (state self.old) p page.now (is_err result) (state self.new) };

    /// A put, and where that is answered Ok the get that compares the page with what was put: two device calls.
    fn put_and_compare(&mut self, p: u32, page: &Page) -> Result<Found, Stopped>
        requires { p < (state self.old).count }
        ensures { PutCompared (state self.old) p page.now result (state self.new) };

    /// A page fails at most three times between two reads.
    ghost few_fails: { (d : Self) (q : ℕ) → ((state d).pages q).fails ≤ 3 };

    /// A page's number fits a `u32`.
    ghost count_fits: { (d : Self) → (state d).count < 2 ^ 32 };
}

/// A disk whose power and faults can be set.
pub trait PhysPower: PhysDisk {
    /// The power comes: each page has failed no more, and missed no put.
    fn power_up(&mut self)
        ensures up { PowersUp (Self.state self.old) (Self.state self.new) };

    /// The power goes.
    fn power_off(&mut self)
        ensures off { Self.state self.new ≡ powered_off (Self.state self.old) };

    /// A page goes bad. False exactly where that is not allowed, and then nothing is done. It is
    /// not listed as outside.
    fn decay(&mut self, p: u32) -> bool
        requires { p < (Self.state self.old).count }
        ensures decays { Decays (Self.state self.old) p result (Self.state self.new) };

    /// A page is good again, with the bytes that it keeps.
    fn revive(&mut self, p: u32)
        requires { p < (Self.state self.old).count }
        ensures revives { Revives (Self.state self.old) p (Self.state self.new) };

    /// A fault strikes at the n-th call from now, counted under power. False exactly where sixteen
    /// wait, or one for that call, and then nothing is done. Nothing may be left in `outside`, so
    /// that its room suffices.
    fn arm(&mut self, n: u32, kind: FaultKind) -> bool
        requires from_one { 0 < n }
        requires within { is_within (Self.state self.old).count kind ≡ true }
        requires none_told { (Self.state self.old).told ≡ [] }
        ensures arms { Arms (Self.state self.old) n kind result (Self.state self.new) };

    /// No fault waits any more.
    fn disarm(&mut self)
        ensures disarmed { Self.state self.new ≡ disarmed (Self.state self.old) };

    /// The faults that gets and puts reported as outside the allowed ones, the oldest first.
    fn outside(&self) -> &[Outside]
        ensures { result.now ≡ (Self.state self.now).told };

    /// Forgets the faults that were outside.
    fn clear_outside(&mut self)
        ensures cleared { Self.state self.new ≡ cleared (Self.state self.old) };
}
