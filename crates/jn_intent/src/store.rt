//! The store below a storage.
ghost use Rattle.std.specs.Prelude.{◌≡◌, ◌≤◌, ◌<◌, ◌+◌, ◌-◌, ◌*◌, [], true, length, nat_lt, is_ok, OnErr, OnOk};
ghost use Rattle.jn_device.specs.Events.{Decays, Revives, Arms, is_within, disarmed, cleared};
ghost use Rattle.jn_files.specs.Calls.{TouchesAll};
ghost use Rattle.jn_page_state.specs.Puts.{IsFewer};
ghost use Rattle.jn_page_state.specs.Recoverable.{IsRecoverable};
ghost use Rattle.jn_recovery.specs.Matches.{IsKeptMemory};
ghost use Rattle.jn_storage.specs.Storage.{IsServing};
ghost use Rattle.jn_store.specs.Store.{IsCalm, IsStop, StoreLater};
ghost use Rattle.jn_intent.specs.Events.{Befalls};
ghost use Rattle.jn_intent.specs.Scrubbing.{Scrubbed};

use crate::Intents;
use jn_base::{FaultKind, Outside, ServerNo, Stopped};
use jn_recovery::clean_pages;
use jn_storage::Storage;
use jn_store::{Powered, StableStore};

impl<S: StableStore> Intents<S> {
    /// Whose storage it is.
    pub fn server(&self) -> ServerNo
        ensures { result ≡ (⟦<Intents<S> as Storage>⟧.view self.now).accounts.server }
    {
        self.server
    }

    /// Whether a record is rubbish: an intention that no prepared work has. It makes no device call.
    pub fn has_rubbish(&self) -> bool
        ensures { result ≡ nat_lt 0 (length (⟦<Intents<S> as Storage>⟧.view self.now).accounts.rubbish) }
    {
        self.sets.has_rubbish()
    }

    /// For proofs alone: while the store has power, what is kept in memory is what stands on the pages, and a recovery may begin from them.
    pub fn is_kept(&self)
        ensures kept { IsKeptMemory self.now.1 (S.view self.now.0) }
        ensures recoverable { IsRecoverable self.now.1.server self.now.1.table.counts (S.view self.now.0) }
    {
        let _sets = &self.sets;
    }

    /// The store, which alone outlives a stop. A recovery may begin from it, whatever call was stopped.
    pub fn into_store(self) -> S
        ensures same { result ≡ self.0 }
        ensures recoverable { IsRecoverable self.1.server self.1.table.counts (S.view result) }
    {
        self.store
    }

    /// Cleans each page of the store, from the first on. Nothing that is found changes, and each data page is touched then.
    pub fn scrub(&mut self) -> Result<(), Stopped>
        requires serving { IsServing (⟦<Intents<S> as Storage>⟧.view self.old) }
        ensures scrubbed { Scrubbed (⟦<Intents<S> as Storage>⟧.view self.old) (is_ok result) (⟦<Intents<S> as Storage>⟧.view self.new) }
        ensures touched { OnOk result (TouchesAll self.old.1.table self.new.1.table) }
    {
        let count = self.store.count();
        clean_pages(&mut self.store, 0, count)?;
        self.table.touch_all();
        self.table.is_table();
        Ok(())
    }
}

impl<S: Powered> Intents<S> {
    /// A page of the device goes bad. False exactly where that is not allowed, and then nothing is done.
    pub fn decay(&mut self, p: u32) -> bool
        requires { p < (S.device self.old.0).count }
        ensures decays { Decays (S.device self.old.0) p result (S.device self.new.0) }
        ensures memory { self.new.1 ≡ self.old.1 }
        ensures befalls { Befalls (⟦<Intents<S> as Storage>⟧.view self.old) (⟦<Intents<S> as Storage>⟧.view self.new) }
    {
        self.store.decay(p)
    }

    /// A page of the device is good again, with the bytes that it keeps.
    pub fn revive(&mut self, p: u32)
        requires { p < (S.device self.old.0).count }
        ensures revives { Revives (S.device self.old.0) p (S.device self.new.0) }
        ensures memory { self.new.1 ≡ self.old.1 }
        ensures befalls { Befalls (⟦<Intents<S> as Storage>⟧.view self.old) (⟦<Intents<S> as Storage>⟧.view self.new) }
    {
        self.store.revive(p);
    }

    /// A fault strikes at the n-th call from now. False exactly where sixteen wait, or one for that call, and then
    /// nothing is done.
    pub fn arm(&mut self, n: u32, kind: FaultKind) -> bool
        requires from_one { 0 < n }
        requires within { is_within (S.device self.old.0).count kind ≡ true }
        requires none_told { (S.device self.old.0).told ≡ [] }
        ensures arms { Arms (S.device self.old.0) n kind result (S.device self.new.0) }
        ensures memory { self.new.1 ≡ self.old.1 }
        ensures befalls { Befalls (⟦<Intents<S> as Storage>⟧.view self.old) (⟦<Intents<S> as Storage>⟧.view self.new) }
    {
        self.store.arm(n, kind)
    }

    /// No fault waits any more.
    pub fn disarm(&mut self)
        ensures disarmed { S.device self.new.0 ≡ disarmed (S.device self.old.0) }
        ensures memory { self.new.1 ≡ self.old.1 }
        ensures befalls { Befalls (⟦<Intents<S> as Storage>⟧.view self.old) (⟦<Intents<S> as Storage>⟧.view self.new) }
    {
        self.store.disarm();
    }

    /// The faults that were outside the allowed ones, the oldest first.
    pub fn outside(&self) -> &[Outside]
        ensures { result.now ≡ (S.device self.now.0).told }
    {
        self.store.outside()
    }

    /// Forgets the faults that were outside.
    pub fn clear_outside(&mut self)
        ensures cleared { S.device self.new.0 ≡ cleared (S.device self.old.0) }
        ensures memory { self.new.1 ≡ self.old.1 }
        ensures befalls { Befalls (⟦<Intents<S> as Storage>⟧.view self.old) (⟦<Intents<S> as Storage>⟧.view self.new) }
    {
        self.store.clear_outside();
    }
}
