//! Which calls of an object in memory are to fail, and how often one did.

ghost use Rattle.std.specs.Prelude.{◌≡◌};
ghost use Rattle.jn_base.specs.Counts.{bumped};
ghost use Rattle.jn_host.specs.FaultPlan.{Plans, after_call, fails_next};

use crate::Failed;

/// The calls that are to fail, by their numbers from 1, and how many calls were made.
#[derive(Debug, Drop)]
pub struct FaultPlan {
    pub failing: Vec<u64>,
    pub calls: u64,
}

impl FaultPlan {
    pub fn new(failing: Vec<u64>) -> FaultPlan
        ensures { Plans failing result }
    {
        FaultPlan { failing, calls: 0 }
    }

    /// Counts a call, and answers whether it is to fail.
    pub fn strikes(&mut self) -> bool
        ensures counted { self.new ≡ after_call self.old }
        ensures planned { result ≡ fails_next self.old }
    {
        self.calls = self.calls.saturating_add(1);
        let call = self.calls;
        self.failing.iter().any(|number| *number == call)
    }
}

/// One more fault in an object's count.
pub fn failed(faults: &mut u64) -> Failed
    ensures { faults.new ≡ bumped faults.old }
{
    *faults = faults.saturating_add(1);
    Failed
}
