//! The disks that a run begins with, in memory: new ones, or those of images.

ghost use Rattle.std.specs.Prelude.{◌≡◌, ◌≤◌, Err, IfOk, length, map};
ghost use Rattle.jn_disks.specs.Disks.{IsNewDisk, HasNewDevice};
ghost use Rattle.jn_image_files.specs.declared.refusal.Refusal.{Refusal as ARefusal};
ghost use Rattle.jn_options.specs.Words.{AreWithinLimits};
ghost use Rattle.jn_options.specs.declared.asked.Opening.TheVariants.{Images};
ghost use Rattle.jn_records.specs.Pages.{format_version};
ghost use Rattle.jn_events.specs.Stores.{AreStores};
ghost use Rattle.jn_run.specs.Opening.{AreDisks, AreOpened, FailsToOpen};
ghost use Rattle.jn_run.specs.Outcome.{IsRefusedImage, IsRefusedOf};
ghost use Rattle.jn_run.specs.Running.{IsStore};
ghost use Rattle.jn_run.specs.declared.opening.OpenFault.TheVariants as opens;

use crate::running::Disks;
use jn_base::ServerNo;
use jn_disks::new_store;
use jn_host::{KeepFailure, Keeper};
use jn_image_files::{ExamineFault, Refusal, examine, load_images};
use jn_intent::PageCounts;
use jn_memdisk::MemDisk;
use jn_options::{Geometry, Opening, Options};
use jn_records::{FORMAT_VERSION, Root};
use jn_stable::Pairs;
use jn_store::{Powered, StableStore};
use std::alloc::{AllocError, Global};

/// Why a run has no disks to begin with.
#[derive(Clone, Copy, Debug, PartialEq, Eq, Drop)]
pub enum OpenFault {
    /// An image is refused.
    Refused(Refusal),
    /// The keeper failed.
    Keep,
    /// There is no memory.
    Memory,
}

impl From<AllocError> for OpenFault {
    ghost from_gives = { λ _ e. e ≡ opens.Memory };

    fn from(_e: AllocError) -> OpenFault {
        OpenFault::Memory
    }
}

/// The stores of the servers that a run begins with, server 0 first, each with its counts of pages.
pub fn open_stores<I: Keeper>(
    alloc: Global,
    options: &Options,
    keeper: &mut I,
) -> Result<Vec<(Disks, PageCounts)>, OpenFault>
    requires limits { AreWithinLimits options.now }
    ensures stores { IfOk result (λ v. AreStores (⟦<Pairs<MemDisk> as StableStore>⟧.view) 0 v.items) }
    ensures count { IfOk result (λ v. length v.items ≡ options.now.servers) }
    ensures opened { IfOk result (λ v. AreOpened (⟦<Pairs<MemDisk> as StableStore>⟧.view) (⟦<Pairs<MemDisk> as Powered>⟧.device) options.now.opening (I.kept keeper.old) v.items) }
    ensures refused { (r : ARefusal) → result ≡ Err (opens.Refused r) → IsRefusedImage options.now (I.kept keeper.old) r }
    ensures kept { FailsToOpen options.now.opening (I.kept keeper.old) (I.faults keeper.old) result (I.kept keeper.new) (I.faults keeper.new) }
{
    match &options.opening {
        Opening::New(geometry) => Ok(new_stores(alloc, options.servers, *geometry)?),
        Opening::Images(name) => open_images(alloc, name.as_str(), options.servers, keeper),
    }
}

/// The stores of images of this name.
fn open_images<I: Keeper>(
    alloc: Global,
    name: &str,
    servers: u8,
    keeper: &mut I,
) -> Result<Vec<(Disks, PageCounts)>, OpenFault>
    requires few { servers ≤ 8 }
    ensures stores { IfOk result (λ v. AreStores (⟦<Pairs<MemDisk> as StableStore>⟧.view) 0 v.items) }
    ensures count { IfOk result (λ v. length v.items ≡ servers) }
    ensures opened { IfOk result (λ v. AreOpened (⟦<Pairs<MemDisk> as StableStore>⟧.view) (⟦<Pairs<MemDisk> as Powered>⟧.device) (Images name.now) (I.kept keeper.old) v.items) }
    ensures refused { (r : ARefusal) → result ≡ Err (opens.Refused r) → IsRefusedOf name.now servers (I.kept keeper.old) r }
    ensures kept { FailsToOpen (Images name.now) (I.kept keeper.old) (I.faults keeper.old) result (I.kept keeper.new) (I.faults keeper.new) }
{
    let found = match load_images(alloc, keeper, name, servers) {
        Ok(found) => found,
        Err(KeepFailure::Failed) => return Err(OpenFault::Keep),
        Err(KeepFailure::Memory) => return Err(OpenFault::Memory),
    };
    match examine(alloc, &found) {
        Ok(stores) => Ok(stores),
        Err(ExamineFault::Refused(refusal)) => Err(OpenFault::Refused(refusal)),
        Err(ExamineFault::Memory) => Err(OpenFault::Memory),
    }
}

/// The stores of new servers.
pub fn new_stores(
    alloc: Global,
    servers: u8,
    geometry: Geometry,
) -> Result<Vec<(Disks, PageCounts)>, AllocError>
    ensures stores { IfOk result (λ v. AreStores (⟦<Pairs<MemDisk> as StableStore>⟧.view) 0 v.items) }
    ensures new { IfOk result (λ v. AreDisks (⟦<Pairs<MemDisk> as StableStore>⟧.view) geometry v.items) }
    ensures count { IfOk result (λ v. length v.items ≡ servers) }
{
    let counts = PageCounts {
        pool: geometry.pool,
        heads: geometry.heads,
        leaves: geometry.leaves,
    };
    let mut stores = Vec::new(alloc);
    for server in 0..servers {
        stores.push((new_disk(alloc, ServerNo(server), counts)?, counts))?;
    }
    Ok(stores)
}

/// The store of a new server.
fn new_disk(alloc: Global, server: ServerNo, counts: PageCounts) -> Result<Disks, AllocError>
    ensures store { IfOk result (λ store. IsStore (⟦<Pairs<MemDisk> as StableStore>⟧.view) server.0 (store, counts)) }
    ensures new { IfOk result (λ store. IsNewDisk (record { version = format_version; server = server; pool = counts.pool; heads = counts.heads; leaves = counts.leaves; epoch = 0 }) (⟦<Pairs<MemDisk> as StableStore>⟧.view store)) }
    ensures device { IfOk result (λ store. HasNewDevice (record { version = format_version; server = server; pool = counts.pool; heads = counts.heads; leaves = counts.leaves; epoch = 0 }) (⟦<Pairs<MemDisk> as StableStore>⟧.view store).device) }
{
    let root = Root {
        version: FORMAT_VERSION,
        server,
        pool: counts.pool,
        heads: counts.heads,
        leaves: counts.leaves,
        epoch: 0,
    };
    new_store(alloc, root)
}

/// The counts of pages of these stores.
pub fn counts_of(
    alloc: Global,
    stores: &[(Disks, PageCounts)],
) -> Result<Vec<PageCounts>, AllocError>
    ensures { IfOk result (λ v. v.items ≡ map (λ x. x.1) stores.now) }
{
    let mut counts = Vec::new(alloc);
    for store in stores {
        counts.push(store.1)?;
    }
    Ok(counts)
}
