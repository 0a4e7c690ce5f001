//! A server's store in memory: a new one, one of the pages of a server that was closed, and the pages of a store.
#![tactic(auto)]

ghost use Rattle.std.specs.Prelude.{◌≡◌, ◌≤◌, ◌<◌, ◌+◌, ◌^◌, ℕ, IfOk};
ghost use Rattle.jn_base.specs.declared.names.ServerNo.{ServerNo};
ghost use Rattle.jn_disks.specs.Disks.{IsNewStore, IsNewDisk, HasNewDevice, AreSound, HasPages, IsStoreOfPages, no_files, files_in};
ghost use Rattle.jn_page_state.specs.Images.{CountsFit, IsImage};
ghost use Rattle.jn_memdisk.specs.Disk.{IsNew};
ghost use Rattle.jn_order.specs.Files.{Files};
ghost use Rattle.jn_records.specs.declared.root.Root.{Root as RootOf};
ghost use Rattle.jn_records.specs.Pages.{format_version};
ghost use Rattle.jn_records.specs.StablePages.{Counts, counts_of, page_count};
ghost use Rattle.jn_store.specs.DeviceCalls.{put_calls};
ghost use Rattle.jn_store.specs.Store.{StoreView, IsBlank};

use jn_device::Half;
use jn_memdisk::MemDisk;
use jn_records::Root;
use jn_stable::Pairs;
use jn_store::{Powered, StableStore};
use std::alloc::{AllocError, Global};

/// The store of a new server: zeros behind its root.
pub fn new_store(alloc: Global, root: Root) -> Result<Pairs<MemDisk>, AllocError>
    requires { root.version ≡ format_version }
    ensures new { IfOk result (λ store. IsNewDisk root (⟦<Pairs<MemDisk> as StableStore>⟧.view store)) }
    ensures device { IfOk result (λ store. HasNewDevice root (⟦<Pairs<MemDisk> as Powered>⟧.device store)) }
{
    let pages = 1 + u32::from(root.pool) + u32::from(root.heads) + u32::from(root.leaves);
    let mut store = Pairs::new(MemDisk::new(alloc, 2 * pages)?);
    put_root(&mut store, root);
    Ok(store)
}

/// A new store is fixed by its pages. A recovery may begin there and finds the root's epoch alone, and the pages are a sound image
/// without files.
pub fn a_new_store_is_a_new_disk()
    ensures disk { (root : RootOf) (v : StoreView) → root.version ≡ format_version → root.epoch < 2 ^ 32 → CountsFit root.server (counts_of root) → IsNewStore root v → IsNewDisk root v }
    ensures image { (root : RootOf) (v : StoreView) → root.version ≡ format_version → root.epoch < 2 ^ 32 → CountsFit root.server (counts_of root) → IsNewStore root v → IsImage root.server (counts_of root) no_files v }
{}

/// Puts the root of a new server to a store of zeros.
pub fn put_root<S: StableStore>(store: &mut S, root: Root)
    requires version { root.version ≡ format_version }
    requires blank { IsBlank (1 + root.pool + root.heads + root.leaves) (S.view store.old) }
    ensures new { IsNewDisk root (S.view store.new) }
    ensures device { (S.view store.new).device.count ≡ (S.view store.old).device.count }
    ensures calls { (S.view store.new).calls ≤ put_calls }
{
    let Ok(()) = store.put(0, &root.encode()) else {
        unreachable!()
    };
}

/// The store of a server that was closed, of its pages. Page p and page p + half of their number are halves of one.
pub fn store_of_pages(alloc: Global, pages: Vec<Half>) -> Result<Pairs<MemDisk>, AllocError>
    requires sound { (version : ℕ) × (server : ServerNo) × (g : Counts) × AreSound version server g pages.items }
    ensures found { (version : ℕ) (server : ServerNo) (g : Counts) → AreSound version server g pages.items → IfOk result (λ store. IsStoreOfPages version server g pages.items (⟦<Pairs<MemDisk> as StableStore>⟧.view store)) }
    ensures pages { IfOk result (λ store. HasPages pages.items (⟦<Pairs<MemDisk> as Powered>⟧.device store)) }
    ensures new { IfOk result (λ store. IsNew (⟦<Pairs<MemDisk> as Powered>⟧.device store)) }
{
    Ok(Pairs::new(MemDisk::from_pages(alloc, pages)?))
}

/// The pages of a store, good or bad, with the bytes that they keep.
pub fn pages_of_store(store: Pairs<MemDisk>) -> Vec<Half>
    ensures sound { (server : ServerNo) (g : Counts) (files : Files) → IsImage server g files (⟦<Pairs<MemDisk> as StableStore>⟧.view store) → page_count g ≡ (⟦<Pairs<MemDisk> as StableStore>⟧.view store).count
        → AreSound format_version server g result.items × (files_in g result.items ≡ files) }
    ensures pages { HasPages result.items (⟦<Pairs<MemDisk> as Powered>⟧.device store) }
{
    let count = 2 * store.count();
    let mut pages = store.into_inner().into_pages();
    pages.truncate(count as usize);
    pages
}
