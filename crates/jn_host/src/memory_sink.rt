//! A sink that lies in memory.

ghost use Rattle.std.specs.Prelude.{◌≡◌, ◌<◌, Some, IfOk, [], length, min, is_err, true};
ghost use Rattle.jn_host.specs.Outside.{SinkWrote};
ghost use Rattle.jn_host.specs.FaultPlan.{Plans, after_call, fails_next};

use crate::fault_plan::{FaultPlan, failed};
use crate::{Failed, Sink};
use std::alloc::Global;

/// Keeps in memory the bytes that it takes, at most a limit of them a call. Chosen calls fail, and
/// so does one that is refused memory.
#[derive(Debug, Drop)]
pub struct MemorySink {
    bytes: Vec<u8>,
    limit: usize,
    plan: FaultPlan,
    faults: u64,
    ghost takes: { 0 < limit },
}

impl MemorySink {
    /// An empty sink that takes at most `limit` bytes a call, and whose calls numbered in `failing`,
    /// from 1, fail.
    pub fn new(alloc: Global, failing: Vec<u64>, limit: usize) -> MemorySink
        requires { 0 < limit }
        ensures taken { ⟦<MemorySink as Sink>⟧.taken result ≡ Some [] }
        ensures faults { ⟦<MemorySink as Sink>⟧.faults result ≡ 0 }
        ensures plan { Plans failing result.plan }
        ensures limit { result.limit ≡ limit }
    {
        MemorySink {
            bytes: Vec::new(alloc),
            limit,
            plan: FaultPlan::new(failing),
            faults: 0,
        }
    }

    /// The bytes taken so far.
    pub fn taken(&self) -> &[u8]
        ensures { ⟦<MemorySink as Sink>⟧.taken self.now ≡ Some result.now }
    {
        self.bytes.as_slice()
    }
}

impl Sink for MemorySink {
    ghost taken = { λ s. Some s.bytes.items };

    ghost faults = { λ s. s.faults };

    fn write(&mut self, from: &[u8]) -> Result<usize, Failed>
        ensures wrote { let s = ⟦<MemorySink as Sink>⟧ in
            SinkWrote (s.taken self.old) (s.faults self.old) from.now result (s.taken self.new) (s.faults self.new) }
        ensures planned { fails_next self.old.plan ≡ true → is_err result ≡ true }
        ensures most { IfOk result (λ n. n ≡ min (length from.now) self.old.limit) }
        ensures plan { self.new.plan ≡ after_call self.old.plan }
        ensures limit { self.new.limit ≡ self.old.limit }
    {
        if self.plan.strikes() {
            return Err(failed(&mut self.faults));
        }
        let count = from.len().min(self.limit);
        match self.bytes.extend_from_slice(&from[..count]) {
            Ok(()) => Ok(count),
            Err(_refused) => Err(failed(&mut self.faults)),
        }
    }
}
