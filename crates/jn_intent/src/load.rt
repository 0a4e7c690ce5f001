//! How a server's storage comes up on its store.
ghost use Rattle.std.specs.Prelude.{◌≡◌, IfOk, IfErr};
ghost use Rattle.jn_base.specs.declared.names.ServerNo.{ServerNo};
ghost use Rattle.jn_page_state.specs.Recoverable.{IsRecoverable};
ghost use Rattle.jn_recovery.specs.Kept.{memory_kept};
ghost use Rattle.jn_recovery.specs.Loading.{IsLoaded, IsDown, IsUntouched};
ghost use Rattle.jn_recovery.specs.Counts.{counts_by};
ghost use Rattle.jn_recovery.specs.Matches.{Matches};

use crate::Intents;
use jn_recovery::{DownCause, Found, Kept, PageCounts, recover};
use jn_storage::Storage;
use jn_store::StableStore;
use std::alloc::Global;

/// A store from which no storage came. The next recovery may begin from it.
#[derive(Drop)]
pub struct Down<S> {
    pub store: S,
    pub cause: DownCause,
}

impl<S: StableStore> Intents<S> {
    /// The storage that stands on a store of so many pages, whatever was stopped there before. Root, records, heads and
    /// the map pages that heads name are cleaned, the restart is counted in the root, and what an unfinished preparation or a
    /// removed work left is erased. Another data page is cleaned later, before its first get.
    pub fn load(alloc: Global, store: S, counts: PageCounts) -> Result<(Intents<S>, Found), Down<S>>
        requires recoverable { (server : ServerNo) × IsRecoverable server (counts_by counts) (S.view store) }
        ensures loaded { (server : ServerNo) → IsRecoverable server (counts_by counts) (S.view store) → IfOk result (λ r. IsLoaded server (counts_by counts) (S.view store) r.1 (⟦<Intents<S> as Storage>⟧.view r.0)) }
        ensures down { (server : ServerNo) → IsRecoverable server (counts_by counts) (S.view store) → IfErr result (λ d. IsDown server (counts_by counts) (S.view store) d.cause (S.view d.store)) }
        ensures untouched { IfOk result (λ r. IsUntouched r.0.1.table) }
    {
        let mut store = store;
        match recover(alloc, &mut store, counts) {
            Ok((kept, found)) => Ok((on_store(alloc, store, kept), found)),
            Err(cause) => Err(Down { store, cause }),
        }
    }
}

/// What was kept stands on its store. No flag was promised a record yet.
fn on_store<S: StableStore>(alloc: Global, store: S, kept: Kept) -> Intents<S>
    requires { Matches (memory_kept kept) (S.view store) }
    ensures { result ≡ (store, memory_kept kept) }
{
    Intents {
        store,
        server: kept.server,
        epoch: kept.epoch,
        sets: kept.sets,
        table: kept.table,
        works: kept.works,
        flags: kept.flags,
        rooms: Vec::new(alloc),
    }
}
