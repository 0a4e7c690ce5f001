// The disk's power and faults, handed on.
ghost use Rattle.std.specs.Prelude.{refl};

use crate::Pairs;
use jn_base::{FaultKind, Outside};
use jn_phys::PhysPower;
use jn_store::Powered;

impl<D: PhysPower> Powered for Pairs<D> {
    ghost device = { λ s. D.state s };

    ghost seen = { λ s. refl };

    #[tactic(auto, using(jn_store::proofs::Events::powers_up_pages))]
    fn power_up(&mut self) {
        self.disk.power_up();
    }

    #[tactic(auto, using(jn_store::proofs::Events::off_pages))]
    fn power_off(&mut self) {
        self.disk.power_off();
    }

    #[tactic(auto, using(jn_store::proofs::Events::decays_pages))]
    fn decay(&mut self, p: u32) -> bool {
        self.disk.decay(p)
    }

    #[tactic(auto, using(jn_store::proofs::Events::revives_pages))]
    fn revive(&mut self, p: u32) {
        self.disk.revive(p);
    }

    #[tactic(auto, using(jn_store::proofs::Events::arms_pages))]
    fn arm(&mut self, n: u32, kind: FaultKind) -> bool {
        self.disk.arm(n, kind)
    }

    #[tactic(auto, using(jn_store::proofs::Events::disarmed_pages))]
    fn disarm(&mut self) {
        self.disk.disarm();
    }

    fn outside(&self) -> &[Outside] {
        self.disk.outside()
    }

    #[tactic(auto, using(jn_store::proofs::Events::cleared_pages))]
    fn clear_outside(&mut self) {
        self.disk.clear_outside();
    }
}
