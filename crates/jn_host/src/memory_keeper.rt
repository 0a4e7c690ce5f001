//! A keeper that lies in memory.

ghost use Rattle.std.specs.Prelude.{◌≡◌, ℕ, Some, None, Err, List, ◌↔◌, true};
ghost use Rattle.std.specs.Option.{option_map};
ghost use Rattle.std.specs.BTreeMap.{get_by_text};
ghost use Rattle.jn_host.specs.Outside.{KeeperLoaded, KeeperSaved, kept_at};
ghost use Rattle.jn_host.specs.FaultPlan.{Plans, after_call, fails_next};
ghost use Rattle.jn_host.specs.declared.KeepFailure.TheVariants.{Failed as CallFailed};

use crate::fault_plan::{FaultPlan, failed};
use crate::{KeepFailure, Keeper};
use std::alloc::Global;
use std::collections::BTreeMap;

/// Keeps byte strings in memory. Chosen loads and saves fail and change nothing.
#[derive(Drop)]
pub struct MemoryKeeper {
    alloc: Global,
    held: BTreeMap<String, Vec<u8>>,
    loads: FaultPlan,
    saves: FaultPlan,
    faults: u64,
}

impl MemoryKeeper {
    /// An empty keeper whose loads and saves with these numbers, each from 1, fail.
    pub fn new(alloc: Global, failing_loads: Vec<u64>, failing_saves: Vec<u64>) -> MemoryKeeper
        ensures kept { (name : List ℕ) → kept_at (⟦<MemoryKeeper as Keeper>⟧.kept result) name ≡ Some None }
        ensures faults { ⟦<MemoryKeeper as Keeper>⟧.faults result ≡ 0 }
        ensures loads { Plans failing_loads result.loads }
        ensures saves { Plans failing_saves result.saves }
    {
        MemoryKeeper {
            alloc,
            held: BTreeMap::new(alloc),
            loads: FaultPlan::new(failing_loads),
            saves: FaultPlan::new(failing_saves),
            faults: 0,
        }
    }

    /// What the name holds.
    pub fn get(&self, name: &str) -> Option<&[u8]>
        ensures { kept_at (⟦<MemoryKeeper as Keeper>⟧.kept self.now) name.now ≡ Some (option_map (λ s. s.now) result) }
    {
        self.held.get(name).map(|bytes| bytes.as_slice())
    }
}

impl Keeper for MemoryKeeper {
    ghost kept = { λ s. Some (λ name. option_map (λ v. v.items) (get_by_text s.held name)) };

    ghost faults = { λ s. s.faults };

    fn load(&mut self, alloc: Global, name: &str) -> Result<Option<Vec<u8>>, KeepFailure>
        ensures loaded { let s = ⟦<MemoryKeeper as Keeper>⟧ in
            KeeperLoaded (s.kept self.old) (s.faults self.old) name.now result (s.kept self.new) (s.faults self.new) }
        ensures planned { (result ≡ Err CallFailed) ↔ (fails_next self.old.loads ≡ true) }
        ensures loads { self.new.loads ≡ after_call self.old.loads }
        ensures saves { self.new.saves ≡ self.old.saves }
    {
        if self.loads.strikes() {
            return Err(failed(&mut self.faults).into());
        }
        match self.held.get(name) {
            Some(bytes) => Ok(Some(Vec::from_slice(alloc, bytes.as_slice())?)),
            None => Ok(None),
        }
    }

    fn save(&mut self, name: &str, bytes: &[u8]) -> Result<(), KeepFailure>
        ensures saved { let s = ⟦<MemoryKeeper as Keeper>⟧ in
            KeeperSaved (s.kept self.old) (s.faults self.old) name.now bytes.now result (s.kept self.new) (s.faults self.new) }
        ensures planned { (result ≡ Err CallFailed) ↔ (fails_next self.old.saves ≡ true) }
        ensures saves { self.new.saves ≡ after_call self.old.saves }
        ensures loads { self.new.loads ≡ self.old.loads }
    {
        if self.saves.strikes() {
            return Err(failed(&mut self.faults).into());
        }
        let name = String::from_str(self.alloc, name)?;
        let bytes = Vec::from_slice(self.alloc, bytes)?;
        self.held.insert(name, bytes)?;
        Ok(())
    }
}
