//! A server that is up.
ghost use Rattle.std.specs.Prelude.{◌≡◌};

use crate::show::Shown;
use jn_base::Tickets;
use jn_coord::Coordinator;
use jn_intent::Intents;
use jn_rows::Transaction;
use jn_store::StableStore;
use jn_worker::Worker;
use std::marker::Model;

/// A server that is up: a worker and a coordinator over one storage, which draw their names from the same tickets.
/// Contracts see these parts.
#[derive(Drop)]
pub struct Server<S: StableStore> {
    pub(crate) storage: Intents<S>,
    pub(crate) worker: Worker,
    pub(crate) coordinator: Coordinator,
    pub(crate) tickets: Tickets,
    /// Room for what a show reports.
    pub(crate) room: Vec<Shown>,
}

impl<S: StableStore> Model for Server<S> {
    ghost use Rattle.jn_server.specs.Seen.{Parts};

    ghost Value = { Parts S };

    ghost view = { λ s. record { storage = s.storage; worker = s.worker; coordinator = s.coordinator; tickets = s.tickets } };
}

impl<S: StableStore> Server<S> {
    /// The live transactions, in rising order of their names.
    pub fn transactions(&self) -> &[Transaction]
        ensures { result.now ≡ self.now.coordinator.transactions }
    {
        self.coordinator.transactions()
    }
}
