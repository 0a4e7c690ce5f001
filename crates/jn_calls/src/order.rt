//! What clients are told to do.

ghost use Rattle.std.specs.Prelude.{◌≡◌, IfOk};

use jn_base::{Call, Command, ServerNo};
use std::alloc::AllocError;

/// What an event tells a client.
#[derive(Drop)]
pub enum Order {
    /// One step of its transaction: a begin, an open, an operation, an end or an abort.
    Command(Command),
    /// A call at a server.
    Call(ServerNo, Call),
}

impl Order {
    /// The same once more.
    pub fn copy(&self) -> Result<Order, AllocError>
        ensures { IfOk result (λ order. order ≡ self.now) }
    {
        Ok(match self {
            Order::Command(command) => Order::Command(command.copy()?),
            Order::Call(server, call) => Order::Call(*server, call.copy()?),
        })
    }
}
