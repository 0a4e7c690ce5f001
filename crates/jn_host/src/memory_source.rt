//! A source that lies in memory.

ghost use Rattle.std.specs.Prelude.{◌≡◌, ◌<◌, ◌≤◌, Some, IfOk, drop, length, min, is_err, vec_len};
ghost use Rattle.std.specs.Option.{option_map};
ghost use Rattle.jn_host.specs.Outside.{SourceRead};
ghost use Rattle.jn_host.specs.FaultPlan.{Plans, after_call, fails_next};

use crate::fault_plan::{FaultPlan, failed};
use crate::{Failed, Source};

/// Gives bytes that lie in memory, at most a limit of them a call. Chosen calls fail.
#[derive(Debug, Drop)]
pub struct MemorySource {
    bytes: Vec<u8>,
    at: usize,
    limit: usize,
    plan: FaultPlan,
    faults: u64,
    ghost within: { at ≤ vec_len bytes },
    ghost gives: { 0 < limit },
}

impl MemorySource {
    /// A source of `bytes` that gives at most `limit` a call, and whose calls numbered in `failing`,
    /// from 1, fail.
    pub fn new(bytes: Vec<u8>, failing: Vec<u64>, limit: usize) -> MemorySource
        requires { 0 < limit }
        ensures left { ⟦<MemorySource as Source>⟧.left result ≡ Some bytes.items }
        ensures faults { ⟦<MemorySource as Source>⟧.faults result ≡ 0 }
        ensures plan { Plans failing result.plan }
        ensures limit { result.limit ≡ limit }
    {
        MemorySource {
            bytes,
            at: 0,
            limit,
            plan: FaultPlan::new(failing),
            faults: 0,
        }
    }
}

impl Source for MemorySource {
    ghost left = { λ s. Some (drop s.at s.bytes.items) };

    ghost faults = { λ s. s.faults };

    fn read(&mut self, into: &mut [u8]) -> Result<usize, Failed>
        ensures read { let s = ⟦<MemorySource as Source>⟧ in
            SourceRead (s.left self.old) (s.faults self.old) into.old result (s.left self.new) (s.faults self.new) into.new }
        ensures planned { is_err result ≡ fails_next self.old.plan }
        // As many as the room, the limit and the bytes left allow.
        ensures most { IfOk result (λ n. let most = min (length into.old) self.old.limit in
            Some n ≡ option_map (λ bytes. min most (length bytes)) (⟦<MemorySource as Source>⟧.left self.old)) }
        ensures plan { self.new.plan ≡ after_call self.old.plan }
        ensures limit { self.new.limit ≡ self.old.limit }
    {
        if self.plan.strikes() {
            return Err(failed(&mut self.faults));
        }
        let left = &self.bytes[self.at..];
        let count = into.len().min(self.limit).min(left.len());
        into[..count].copy_from_slice(&left[..count]);
        self.at += count;
        Ok(count)
    }
}
