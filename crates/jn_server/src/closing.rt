//! What a server does once its clients are dismissed, and how it cleans its pages.
ghost use Rattle.std.specs.Prelude.{◌≡◌, is_ok, OnOk};
ghost use Rattle.jn_coord.specs.Remembered.{table_of};
ghost use Rattle.jn_intent.specs.Scrubbing.{Scrubbed};
ghost use Rattle.jn_msgs.specs.Collected.{Collected};
ghost use Rattle.jn_system.specs.WholeSystem.Servers.{of_coordinator};
ghost use Rattle.jn_rows.specs.Coordinator.{close_clients_row};
ghost use Rattle.jn_server.specs.Handling.{Does};
ghost use Rattle.jn_storage.specs.DeviceCalls.{row_calls};
ghost use Rattle.jn_server.specs.Seen.{view_with, memory_of, IsServer};
ghost use Rattle.jn_worker.specs.Leaving.{beside_of};

use crate::fault::ServerFault;
use crate::server::Server;
use jn_base::Stopped;
use jn_store::StableStore;

impl<S: StableStore> Server<S> {
    /// Each outcome counts as thanked: what is over goes with its flag, and what is undecided stays. Nothing is sent.
    pub fn close_clients(&mut self) -> Result<(), ServerFault>
        requires serves { IsServer (view_with (λ s. S.view s) self.old) }
        ensures does { (before : Collected) → let v = view_with (λ s. S.view s) self.old in Does row_calls (of_coordinator (memory_of v) (close_clients_row (table_of v.coordinator) v.tickets)) v before result (view_with (λ s. S.view s) self.new) before }
        ensures beside { OnOk result (beside_of (view_with (λ s. S.view s) self.new).storage.accounts ≡ beside_of (view_with (λ s. S.view s) self.old).storage.accounts) }
    {
        self.coordinator.close_clients(&mut self.storage)?;
        Ok(())
    }

    /// Cleans each page of the store, from the first on. Nothing that is found changes, and nothing that the server remembers.
    pub fn scrub(&mut self) -> Result<(), Stopped>
        requires serves { IsServer (view_with (λ s. S.view s) self.old) }
        ensures scrubbed { Scrubbed (view_with (λ s. S.view s) self.old).storage (is_ok result) (view_with (λ s. S.view s) self.new).storage }
        ensures tables { view_with (λ s. S.view s) self.new ≡ record (view_with (λ s. S.view s) self.old) { storage = (view_with (λ s. S.view s) self.new).storage } }
        ensures serves { OnOk result (IsServer (view_with (λ s. S.view s) self.new)) }
    {
        self.storage.scrub()
    }
}
