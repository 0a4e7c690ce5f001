//! What a recovery reads of its store, and puts there.
ghost use Rattle.std.specs.Prelude.{◌≡◌, ◌≢◌, ◌<◌, ◌+◌, ℕ, true, List, Err, IfOk, IfErr, OnOk, OnErr, is_ok};
ghost use Rattle.jn_base.specs.declared.names.ServerNo.{ServerNo};
ghost use Rattle.jn_page_state.specs.Recoverable.{IsRecoverable};
ghost use Rattle.jn_page_state.specs.Standing.{IsStanding};
ghost use Rattle.jn_records.specs.declared.head.Head.{Head};
ghost use Rattle.jn_records.specs.declared.root.Root.{Root as RootOf};
ghost use Rattle.jn_records.specs.Pages.{root_page, IsRoot, last_epoch};
ghost use Rattle.jn_records.specs.StablePages.{Counts};
ghost use Rattle.jn_store.specs.Store.{IsCalm, IsOnly, IsServed, IsStop, StorePut, StoreRead};
ghost use Rattle.jn_recovery.specs.Loading.{IsDown};
ghost use Rattle.jn_recovery.specs.Counts.{counts_by};
ghost use Rattle.jn_recovery.specs.Opening.{RootRead, next_root, IsOpened, IsBegun, ErasesAll, EraseStopped};
ghost use Rattle.jn_recovery.specs.declared.load.DownCause.TheVariants.{Stopped as DownStopped};

use crate::PageCounts;
use crate::cleaning::clean_pages;
use crate::load::DownCause;
use jn_base::Stopped;
use jn_files::FileTable;
use jn_records::{FORMAT_VERSION, Root};
use jn_sets::Sets;
use jn_store::StableStore;
use std::alloc::Global;

/// What stands on a store.
#[derive(Drop)]
pub(crate) struct Opened {
    pub(crate) root: Root,
    pub(crate) sets: Sets,
    pub(crate) table: FileTable,
}

/// Reads what stands on the store, counts the restart, and erases what counts for nothing.
pub(crate) fn begin_epoch<S: StableStore>(
    alloc: Global,
    store: &mut S,
    counts: PageCounts,
) -> Result<(Opened, u32), DownCause>
    requires recoverable { (server : ServerNo) × IsRecoverable server (counts_by counts) (S.view store.old) }
    ensures begun { (server : ServerNo) → IsRecoverable server (counts_by counts) (S.view store.old) → IfOk result (λ r. IsBegun server (counts_by counts) (S.view store.old) r.0 r.1 (S.view store.new)) }
    ensures down { (server : ServerNo) → IsRecoverable server (counts_by counts) (S.view store.old) → IfErr result (λ cause. IsDown server (counts_by counts) (S.view store.old) cause (S.view store.new)) }
{
    let mut opened = open_store(alloc, store, counts)?;
    let epoch = count_restart(store, &opened.root)?;
    erase_all(&mut opened.sets, store)?;
    Ok((opened, epoch))
}

/// Cleans the pages of the root, the records and the heads, and reads them, and then each map page that a head names. The other
/// data pages stay as they are.
fn open_store<S: StableStore>(
    alloc: Global,
    store: &mut S,
    counts: PageCounts,
) -> Result<Opened, DownCause>
    requires recoverable { (server : ServerNo) × IsRecoverable server (counts_by counts) (S.view store.old) }
    ensures opened { (server : ServerNo) → IsRecoverable server (counts_by counts) (S.view store.old) → IfOk result (λ o. IsOpened server (counts_by counts) (S.view store.old) o (S.view store.new)) }
    ensures down { (server : ServerNo) → IsRecoverable server (counts_by counts) (S.view store.old) → IfErr result (λ cause. IsDown server (counts_by counts) (S.view store.old) cause (S.view store.new)) }
{
    let front = counts.front();
    clean_pages(store, 0, front)?;
    let root = read_root(store)?;
    let sets = Sets::load(alloc, store, &root)?;
    let table = FileTable::load(alloc, store, &root)?;
    Ok(Opened { root, sets, table })
}

/// The root, unless its epoch is the last.
fn read_root<S: StableStore>(store: &mut S) -> Result<Root, DownCause>
    requires there { 0 < (S.view store.old).count }
    requires readable { (root : RootOf) × IsRoot root × IsOnly (S.view store.old) 0 (root_page root) }
    ensures root { (root : RootOf) → IsRoot root → IsOnly (S.view store.old) 0 (root_page root) → RootRead root result }
    ensures read { StoreRead (S.view store.old) 1 (S.view store.new) }
    ensures served { result ≢ Err DownStopped → IsServed (S.view store.old) (S.view store.new) }
    ensures stop { result ≡ Err DownStopped → IsStop (S.view store.old) (S.view store.new) }
    ensures calm { IsCalm (S.view store.old) → result ≢ Err DownStopped }
{
    let page = store.get(0)?;
    let Some(root) = Root::decode(&page) else {
        unreachable!()
    };
    if root.epoch == u32::MAX {
        return Err(DownCause::EpochsUsedUp);
    }
    Ok(root)
}

/// Puts the root with the next epoch, in the version that is written.
fn count_restart<S: StableStore>(store: &mut S, root: &Root) -> Result<u32, Stopped>
    requires there { 0 < (S.view store.old).count }
    requires before_last { root.now.epoch < last_epoch }
    ensures epoch { IfOk result (λ epoch. epoch ≡ root.now.epoch + 1) }
    ensures put { StorePut (S.view store.old) 0 (root_page (next_root root.now)) (is_ok result) (S.view store.new) }
{
    let epoch = root.epoch + 1;
    let next = Root {
        version: FORMAT_VERSION,
        server: root.server,
        pool: root.pool,
        heads: root.heads,
        leaves: root.leaves,
        epoch,
    };
    store.put(0, &next.encode())?;
    Ok(epoch)
}

/// Erases each record of an intention that no prepared work has.
fn erase_all<S: StableStore>(sets: &mut Sets, store: &mut S) -> Result<(), Stopped>
    requires standing { (server : ServerNo) × (g : Counts) × (epoch : ℕ) × (heads : List Head) × (maps : List (List ℕ)) × IsStanding server g (S.view store.old) epoch sets.old heads maps }
    ensures done { (server : ServerNo) (g : Counts) (epoch : ℕ) (heads : List Head) (maps : List (List ℕ)) → IsStanding server g (S.view store.old) epoch sets.old heads maps
        → OnOk result (ErasesAll server g (S.view store.old) epoch heads maps sets.old sets.new (S.view store.new)) }
    ensures stopped { (server : ServerNo) (g : Counts) (epoch : ℕ) (heads : List Head) (maps : List (List ℕ)) → IsStanding server g (S.view store.old) epoch sets.old heads maps
        → OnErr result (EraseStopped server g (S.view store.old) g.pool (S.view store.new)) }
{
    for _slot in 0..sets.slots() {
        if !sets.erase_one(store)? {
            return Ok(());
        }
    }
    Ok(())
}
