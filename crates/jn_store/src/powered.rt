// A store whose power and faults can be set.
ghost use Rattle.std.specs.Prelude.{◌≡◌, ◌<◌, [], ℕ, true};
ghost use Rattle.jn_device.specs.Device.{DeviceState};
ghost use Rattle.jn_device.specs.Events.{PowersUp, powered_off, Decays, Revives, Arms, is_within, disarmed, cleared};
ghost use Rattle.jn_store.specs.Pairs.{pairs_view};
ghost use Rattle.jn_store.specs.Store.{HasSamePages};

use crate::StableStore;
use jn_base::{FaultKind, Outside};

/// A store on a device whose power and faults can be set. Pages are the device's here. No call changes a candidate.
pub trait Powered: StableStore {
    /// The device that the store stands on.
    ghost device: { Self → DeviceState };

    /// The power comes: each page has failed no more, and missed no put.
    fn power_up(&mut self)
        ensures up { PowersUp (device self.old) (device self.new) }
        ensures pages { HasSamePages (Self.view self.old) (Self.view self.new) };

    /// The power goes.
    fn power_off(&mut self)
        ensures off { device self.new ≡ powered_off (device self.old) }
        ensures pages { HasSamePages (Self.view self.old) (Self.view self.new) };

    /// A page goes bad. False exactly where that is not allowed, and then nothing is done.
    fn decay(&mut self, p: u32) -> bool
        requires { p < (device self.old).count }
        ensures decays { Decays (device self.old) p result (device self.new) }
        ensures pages { HasSamePages (Self.view self.old) (Self.view self.new) };

    /// A page is good again, with the bytes that it keeps.
    fn revive(&mut self, p: u32)
        requires { p < (device self.old).count }
        ensures revives { Revives (device self.old) p (device self.new) }
        ensures pages { HasSamePages (Self.view self.old) (Self.view self.new) };

    /// A fault strikes at the n-th call from now. False exactly where sixteen wait, or one for that
    /// call, and then nothing is done.
    fn arm(&mut self, n: u32, kind: FaultKind) -> bool
        requires from_one { 0 < n }
        requires within { is_within (device self.old).count kind ≡ true }
        requires none_told { (device self.old).told ≡ [] }
        ensures arms { Arms (device self.old) n kind result (device self.new) }
        ensures pages { HasSamePages (Self.view self.old) (Self.view self.new) };

    /// No fault waits any more.
    fn disarm(&mut self)
        ensures disarmed { device self.new ≡ disarmed (device self.old) }
        ensures pages { HasSamePages (Self.view self.old) (Self.view self.new) };

    /// The faults that were outside the allowed ones, the oldest first.
    fn outside(&self) -> &[Outside]
        ensures { result.now ≡ (device self.now).told };

    /// Forgets the faults that were outside.
    fn clear_outside(&mut self)
        ensures cleared { device self.new ≡ cleared (device self.old) }
        ensures pages { HasSamePages (Self.view self.old) (Self.view self.new) };

    /// Each stable page is a pair of the device's pages.
    ghost seen: { (s : Self) → Self.view s ≡ pairs_view (device s) };
}
