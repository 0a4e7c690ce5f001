//! What befalls the device below a server between two calls.
ghost use Rattle.std.specs.Prelude.{◌≡◌, ◌<◌, [], true};
ghost use Rattle.jn_device.specs.Events.{Decays, Revives, Arms, is_within, disarmed, cleared};
ghost use Rattle.jn_server.specs.Befalling.{Befalls};
ghost use Rattle.jn_server.specs.Seen.{view_with};

use crate::server::Server;
use jn_base::{FaultKind, Outside};
use jn_store::Powered;

impl<S: Powered> Server<S> {
    /// A page of the device goes bad. False exactly where that is not allowed, and then nothing is done.
    pub fn decay(&mut self, p: u32) -> bool
        requires { p < (S.device self.old.storage.0).count }
        ensures decays { Decays (S.device self.old.storage.0) p result (S.device self.new.storage.0) }
        ensures befalls { Befalls (view_with (λ s. S.view s) self.old) (view_with (λ s. S.view s) self.new) }
    {
        self.storage.decay(p)
    }

    /// A page of the device is good again, with the bytes that it keeps.
    pub fn revive(&mut self, p: u32)
        requires { p < (S.device self.old.storage.0).count }
        ensures revives { Revives (S.device self.old.storage.0) p (S.device self.new.storage.0) }
        ensures befalls { Befalls (view_with (λ s. S.view s) self.old) (view_with (λ s. S.view s) self.new) }
    {
        self.storage.revive(p);
    }

    /// A fault strikes at the n-th call from now. False exactly where sixteen wait, or one for that call, and then
    /// nothing is done.
    pub fn arm(&mut self, n: u32, kind: FaultKind) -> bool
        requires from_one { 0 < n }
        requires within { is_within (S.device self.old.storage.0).count kind ≡ true }
        requires none_told { (S.device self.old.storage.0).told ≡ [] }
        ensures arms { Arms (S.device self.old.storage.0) n kind result (S.device self.new.storage.0) }
        ensures befalls { Befalls (view_with (λ s. S.view s) self.old) (view_with (λ s. S.view s) self.new) }
    {
        self.storage.arm(n, kind)
    }

    /// No fault waits any more.
    pub fn disarm(&mut self)
        ensures disarmed { S.device self.new.storage.0 ≡ disarmed (S.device self.old.storage.0) }
        ensures befalls { Befalls (view_with (λ s. S.view s) self.old) (view_with (λ s. S.view s) self.new) }
    {
        self.storage.disarm();
    }

    /// The faults that were outside the allowed ones, the oldest first.
    pub fn outside(&self) -> &[Outside]
        ensures { result.now ≡ (S.device self.now.storage.0).told }
    {
        self.storage.outside()
    }

    /// Forgets the faults that were outside.
    pub fn clear_outside(&mut self)
        ensures cleared { S.device self.new.storage.0 ≡ cleared (S.device self.old.storage.0) }
        ensures befalls { Befalls (view_with (λ s. S.view s) self.old) (view_with (λ s. S.view s) self.new) }
    {
        self.storage.clear_outside();
    }
}
