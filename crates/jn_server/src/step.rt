//! What a server does without a message.
ghost use Rattle.std.specs.Prelude.{◌≡◌, ◌↔◌, ◌<◌, true, [], Some, is_some, IsFalse, IfOk, OnOk};
ghost use Rattle.jn_intent.specs.Scrubbing.{counts_in};
ghost use Rattle.jn_lock_rows.specs.Matching.{are_rising};
ghost use Rattle.jn_rows.specs.Outcomes.{RowOutcome};
ghost use Rattle.jn_system.specs.WholeSystem.Servers.{server_step, server_again};
ghost use Rattle.jn_system.specs.WholeSystem.World.{Memory};
ghost use Rattle.jn_server.specs.Counted.{CountsAll};
ghost use Rattle.jn_server.specs.Holding.{HoldsAll};
ghost use Rattle.jn_server.specs.Handling.{Steps, LeavesByWork, TimesOut};
ghost use Rattle.jn_server.specs.Remaining.{steps_left};
ghost use Rattle.jn_server.specs.Seen.{view_with, memory_of, room_of, IsServer};
ghost use Rattle.jn_server.specs.Settled.{IsSettledState};
ghost use Rattle.jn_server.specs.Standing.{standing_pages};
ghost use Rattle.jn_server.specs.Reading.{IsRoomOfPages, StandsOnPages};
ghost use Rattle.jn_storage.specs.Calls.{state};
ghost use Rattle.jn_transactions.specs.Telling.{added};

use crate::fault::ServerFault;
use crate::server::Server;
use jn_base::Tid;
use jn_msgs::Out;
use jn_storage::{FlagStore, WorkStore};
use jn_store::StableStore;
use std::alloc::AllocError;

impl<S: StableStore> Server<S> {
    /// For proofs alone: what the rows read of the storage is what stands on its pages, no record and no head is there that nothing
    /// names, and the works stand in rising order of their names.
    pub fn reads_pages(&self)
        requires serves { IsServer (view_with (λ s. S.view s) self.now) }
        ensures room { IsRoomOfPages (view_with (λ s. S.view s) self.now) }
        ensures counted { let v = view_with (λ s. S.view s) self.now in CountsAll (counts_in v.storage.accounts) (state v.storage) (standing_pages v.storage.store) }
        ensures order { are_rising (view_with (λ s. S.view s) self.now).worker.table ≡ true }
    {
        self.storage.is_kept();
        self.worker.is_in_order();
    }

    /// For proofs alone: what the storage counts, and which map pages it knows, is what stands on its pages, from which a
    /// recovery may begin.
    pub fn counts_pages(&self)
        ensures { StandsOnPages (view_with (λ s. S.view s) self.now) }
    {
        self.storage.is_kept();
    }

    /// Whether a background step has something to do. It makes no device call.
    pub fn has_work(&self) -> bool
        requires serves { IsServer (view_with (λ s. S.view s) self.now) }
        ensures work { let v = view_with (λ s. S.view s) self.now in result ≡ is_some (server_step (memory_of v) (state v.storage) (room_of v.storage)) }
        ensures room { IsRoomOfPages (view_with (λ s. S.view s) self.now) }
    {
        self.reads_pages();
        self.worker.has_going() || self.storage.has_rubbish()
    }

    /// Whether a work is prepared or a transaction has a flag. It makes no device call.
    pub fn unsettled(&self) -> bool
        requires serves { IsServer (view_with (λ s. S.view s) self.now) }
        ensures settled { IsFalse result ↔ IsSettledState (state (view_with (λ s. S.view s) self.now).storage) }
    {
        !(self.storage.works().is_empty() && self.storage.flags().is_empty())
    }

    /// One background step: the next intention of a going work is carried out, or a work that is carried out is forgotten, or
    /// a rubbish record is erased. False exactly where nothing is to do. Each leaves one less to make.
    pub fn step(&mut self, out: &mut Out) -> Result<bool, ServerFault>
        requires serves { IsServer (view_with (λ s. S.view s) self.old) }
        ensures steps { let v = view_with (λ s. S.view s) self.old in Steps (server_step (memory_of v) (state v.storage) (room_of v.storage)) v out.old result (view_with (λ s. S.view s) self.new) out.new }
        ensures left { let v = view_with (λ s. S.view s) self.old in IfOk result (λ did. did ≡ true → (row : RowOutcome Memory) → server_step (memory_of v) (state v.storage) (room_of v.storage) ≡ Some row → LeavesByWork v row (view_with (λ s. S.view s) self.new)) }
        ensures holds { OnOk result (HoldsAll (view_with (λ s. S.view s) self.old) → HoldsAll (view_with (λ s. S.view s) self.new)) }
        ensures less { IfOk result (λ did. did ≡ true → steps_left (view_with (λ s. S.view s) self.new) < steps_left (view_with (λ s. S.view s) self.old)) }
        ensures some { let v = view_with (λ s. S.view s) self.old in is_some (server_step (memory_of v) (state v.storage) (room_of v.storage)) ≡ true → 0 < steps_left v }
        ensures room { IsRoomOfPages (view_with (λ s. S.view s) self.old) }
    {
        self.reads_pages();
        Ok(self.worker.step(&mut self.storage, out)?)
    }

    /// Sends once more what still waits for an answer: first the worker's questions, then what the coordinator has told. It makes
    /// no device call.
    pub fn again(&self, out: &mut Out) -> Result<(), AllocError>
        requires serves { IsServer (view_with (λ s. S.view s) self.now) }
        ensures sent { let v = view_with (λ s. S.view s) self.now in OnOk result (out.new ≡ added out.old (server_again (memory_of v) (state v.storage)) []) }
    {
        self.worker.again(out)?;
        self.coordinator.again(out)
    }

    /// From now on the transaction's active work gives way to others. False exactly where the transaction has no live work
    /// here. It makes no device call.
    pub fn timeout(&mut self, tid: Tid) -> bool
        requires serves { IsServer (view_with (λ s. S.view s) self.old) }
        ensures times_out { TimesOut tid (view_with (λ s. S.view s) self.old) result (view_with (λ s. S.view s) self.new) }
        ensures storage { self.new.storage ≡ self.old.storage }
    {
        self.worker.timeout(tid)
    }
}
