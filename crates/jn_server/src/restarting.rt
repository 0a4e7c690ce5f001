//! How a server comes up on its store, and how it goes down.
ghost use Rattle.std.specs.Prelude.{◌≡◌, ◌<◌, ◌^◌, IfOk, IfErr};
ghost use Rattle.jn_base.specs.declared.names.ServerNo.{ServerNo};
ghost use Rattle.jn_coord.specs.Restoring.{Restored};
ghost use Rattle.jn_page_state.specs.Recoverable.{IsRecoverable};
ghost use Rattle.jn_recovery.specs.Counts.{counts_by};
ghost use Rattle.jn_recovery.specs.Memory.{view_of};
ghost use Rattle.jn_recovery.specs.declared.load.DownCause.TheVariants.{Memory};
ghost use Rattle.jn_server.specs.Restarting.{IsRestarted, IsNotRestarted, IsLeft, AreTables};
ghost use Rattle.jn_server.specs.Seen.{view_with};
ghost use Rattle.jn_storage.specs.Storage.{IsRecovered};
ghost use Rattle.jn_worker.specs.Restoring.{Restores};

use crate::server::Server;
use jn_base::Tickets;
use jn_coord::Coordinator;
use jn_intent::{Down, DownCause, Found, Intents, PageCounts};
use jn_store::StableStore;
use jn_worker::Worker;
use std::alloc::{AllocError, Global};

/// The tables of a storage that was recovered.
fn tables<S: StableStore>(
    alloc: Global,
    storage: &Intents<S>,
) -> Result<(Worker, Coordinator), AllocError>
    requires recovered { IsRecovered (view_of storage.now.1 (S.view storage.now.0)) }
    ensures { IfOk result (λ r. AreTables (view_of storage.now.1 (S.view storage.now.0)) r.0 r.1) }
{
    let worker = Worker::restore(alloc, storage)?;
    let coordinator = Coordinator::restore(alloc, storage)?;
    Ok((worker, coordinator))
}

/// The store of a storage for whose tables there is no memory.
fn given_back<S: StableStore>(storage: Intents<S>) -> Down<S>
    ensures store { result.store ≡ storage.0 }
    ensures cause { result.cause ≡ Memory }
{
    Down {
        store: storage.into_store(),
        cause: DownCause::Memory,
    }
}

/// The server that stands on a store of so many pages, whatever was stopped there before. It begins an epoch of its own, knows the
/// works that were prepared and the transactions that have flags, and nothing else. Where it doesn't come up the store is given
/// back, and the next restart may begin there. The device has power.
pub fn restart<S: StableStore>(
    alloc: Global,
    store: S,
    counts: PageCounts,
) -> Result<(Server<S>, Found), Down<S>>
    requires recoverable { (server : ServerNo) × IsRecoverable server (counts_by counts) (S.view store) }
    ensures up { (server : ServerNo) → IsRecoverable server (counts_by counts) (S.view store) → IfOk result (λ r. IsRestarted server (counts_by counts) (S.view store) r.1 (view_with (λ s. S.view s) r.0)) }
    ensures down { (server : ServerNo) → IsRecoverable server (counts_by counts) (S.view store) → IfErr result (λ d. IsNotRestarted server (counts_by counts) (S.view store) d.cause (S.view d.store)) }
{
    match Intents::load(alloc, store, counts) {
        Err(Down { store, cause }) => Err(Down { store, cause }),
        Ok((storage, found)) => match tables(alloc, &storage) {
            Err(_refused) => Err(given_back(storage)),
            Ok((worker, coordinator)) => {
                let tickets = Tickets {
                    server: storage.server(),
                    epoch: found.epoch,
                    next: 0,
                };
                let up = Server {
                    storage,
                    worker,
                    coordinator,
                    tickets,
                    room: Vec::new(alloc),
                };
                Ok((up, found))
            }
        },
    }
}

impl<S: StableStore> Server<S> {
    /// The server goes down. Nothing but its store survives, from which a restart may begin, whatever call was stopped.
    pub fn crash(self) -> S
        ensures store { result ≡ self.storage.0 }
        ensures left { IsLeft (view_with (λ s. S.view s) self) (S.view result) }
    {
        self.storage.into_store()
    }
}
