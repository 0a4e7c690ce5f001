//! The store of a new server.

ghost use Rattle.std.specs.Prelude.{◌≡◌, IfOk};
ghost use Rattle.jn_records.specs.Pages.{format_version};
ghost use Rattle.jn_server_tests.specs.Restarts.{MayBegin};

use jn_base::ServerNo;
use jn_disks::put_root;
use jn_intent::PageCounts;
use jn_records::{FORMAT_VERSION, Root};
use jn_store::{ArrayStore, StableStore};
use std::alloc::{AllocError, Global};

fn root_of(server: ServerNo, counts: PageCounts) -> Root
    ensures { result ≡ record { version = format_version; server = server; pool = counts.pool; heads = counts.heads; leaves = counts.leaves; epoch = 0 } }
{
    Root {
        version: FORMAT_VERSION,
        server,
        pool: counts.pool,
        heads: counts.heads,
        leaves: counts.leaves,
        epoch: 0,
    }
}

/// The store of a new server, in memory.
pub(crate) fn new_array(
    alloc: Global,
    server: ServerNo,
    counts: PageCounts,
) -> Result<ArrayStore, AllocError>
    ensures { IfOk result (λ store. MayBegin server counts (⟦<ArrayStore as StableStore>⟧.view store)) }
{
    let root = root_of(server, counts);
    let pages = 1 + u32::from(root.pool) + u32::from(root.heads) + u32::from(root.leaves);
    let mut store = ArrayStore::new(alloc, pages)?;
    put_root(&mut store, root);
    Ok(store)
}
