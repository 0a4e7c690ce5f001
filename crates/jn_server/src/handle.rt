//! What a server does with a message.
ghost use Rattle.std.specs.Prelude.{◌≡◌, ◌<◌, ◌+◌, ◌^◌, true, false, OnOk};
ghost use Rattle.jn_coord.specs.Calls.{free_of};
ghost use Rattle.jn_msgs.specs.Ranges.{CanBeTaken};
ghost use Rattle.jn_coord.specs.Remembered.{table_of};
ghost use Rattle.jn_system.specs.WholeSystem.Servers.{of_worker, of_coordinator, server_row, is_for_worker};
ghost use Rattle.jn_rows.specs.Coordinator.{coordinator_row};
ghost use Rattle.jn_rows.specs.Worker.{worker_row};
ghost use Rattle.jn_server.specs.Handling.{Does, LeavesBeside};
ghost use Rattle.jn_server.specs.Holding.{HoldsAll};
ghost use Rattle.jn_storage.specs.DeviceCalls.{row_calls};
ghost use Rattle.jn_server.specs.Seen.{view_with, memory_of, room_of, IsServer};
ghost use Rattle.jn_server.specs.Reading.{IsRoomOfPages};
ghost use Rattle.jn_storage.specs.Calls.{state};
ghost use Rattle.jn_worker.specs.Fitting.{seen};

use crate::fault::ServerFault;
use crate::server::Server;
use jn_msgs::{Message, Out};
use jn_store::StableStore;

impl<S: StableStore> Server<S> {
    /// The worker takes a message.
    fn work_on(&mut self, message: &Message, out: &mut Out) -> Result<(), ServerFault>
        requires serves { IsServer (view_with (λ s. S.view s) self.old) }
        requires next { self.old.tickets.next + 1 < 2 ^ 32 }
        requires taken { CanBeTaken message.now }
        ensures does { let v = view_with (λ s. S.view s) self.old in Does row_calls (of_worker (memory_of v) (worker_row v.worker.table (seen v.storage) v.tickets message.now)) v out.old result (view_with (λ s. S.view s) self.new) out.new }
        ensures beside { let v = view_with (λ s. S.view s) self.old in OnOk result (LeavesBeside v (of_worker (memory_of v) (worker_row v.worker.table (seen v.storage) v.tickets message.now)) (view_with (λ s. S.view s) self.new)) }
        ensures holds { OnOk result (HoldsAll (view_with (λ s. S.view s) self.old) → HoldsAll (view_with (λ s. S.view s) self.new)) }
    {
        self.worker
            .handle(&mut self.storage, message, &mut self.tickets, out)?;
        Ok(())
    }

    /// The coordinator takes a message.
    fn coordinate(&mut self, message: &Message, out: &mut Out) -> Result<(), ServerFault>
        requires serves { IsServer (view_with (λ s. S.view s) self.old) }
        requires next { self.old.tickets.next + 1 < 2 ^ 32 }
        requires taken { CanBeTaken message.now }
        ensures does { let v = view_with (λ s. S.view s) self.old in Does row_calls (of_coordinator (memory_of v) (coordinator_row (table_of v.coordinator) (free_of v.storage) v.tickets message.now)) v out.old result (view_with (λ s. S.view s) self.new) out.new }
        ensures beside { let v = view_with (λ s. S.view s) self.old in OnOk result (LeavesBeside v (of_coordinator (memory_of v) (coordinator_row (table_of v.coordinator) (free_of v.storage) v.tickets message.now)) (view_with (λ s. S.view s) self.new)) }
        ensures holds { OnOk result (HoldsAll (view_with (λ s. S.view s) self.old) → HoldsAll (view_with (λ s. S.view s) self.new)) }
    {
        self.coordinator
            .handle(&mut self.storage, message, &mut self.tickets, out)?;
        Ok(())
    }

    /// Does what a message asks: what is for a worker is done by the worker, all else by the coordinator. A message that no table
    /// takes is ignored, and noted so.
    pub fn handle(&mut self, message: &Message, out: &mut Out) -> Result<(), ServerFault>
        requires serves { IsServer (view_with (λ s. S.view s) self.old) }
        requires next { self.old.tickets.next + 1 < 2 ^ 32 }
        requires taken { CanBeTaken message.now }
        ensures does { let v = view_with (λ s. S.view s) self.old in Does row_calls (server_row (memory_of v) (state v.storage) (room_of v.storage) message.now) v out.old result (view_with (λ s. S.view s) self.new) out.new }
        ensures beside { let v = view_with (λ s. S.view s) self.old in OnOk result (LeavesBeside v (server_row (memory_of v) (state v.storage) (room_of v.storage) message.now) (view_with (λ s. S.view s) self.new)) }
        ensures holds { OnOk result (HoldsAll (view_with (λ s. S.view s) self.old) → HoldsAll (view_with (λ s. S.view s) self.new)) }
        ensures room { IsRoomOfPages (view_with (λ s. S.view s) self.old) }
    {
        self.reads_pages();
        if is_for_worker(message) {
            return self.work_on(message, out);
        }
        self.coordinate(message, out)
    }
}

/// Whether a message is for the worker of its server.
fn is_for_worker(message: &Message) -> bool
    ensures { result ≡ is_for_worker message.now }
{
    matches!(
        message,
        Message::Open(..)
            | Message::Op(..)
            | Message::Prepare(..)
            | Message::Commit(..)
            | Message::Drop(..)
    )
}
