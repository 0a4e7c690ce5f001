//! The stores that a run begins with: new ones, or those of images that are set back to version 1.
ghost use Rattle.std.specs.Prelude.{◌≤◌, IfOk, vec_len};
ghost use Rattle.jn_run.specs.Running.{IsStore};
ghost use Rattle.jn_events.specs.Stores.{AreStores};

use crate::storm::judging::Wrong;
use jn_base::ServerNo;
use jn_disks::new_store;
use jn_image_files::{ExamineFault, examine};
use jn_intent::PageCounts;
use jn_memdisk::MemDisk;
use jn_records::{FORMAT_VERSION, Root};
use jn_replay::Files;
use jn_run_tests::{Images, Servers};
use jn_stable::Pairs;
use jn_store::StableStore;
use sha2::{Digest, Sha256};
use std::alloc::{AllocError, Global};

/// With what a run begins: the files of all servers, and the images that have them, or none where the disks are new.
#[derive(Drop)]
pub(crate) struct Start {
    pub(crate) files: Files,
    pub(crate) images: Option<Images>,
}

/// A server's store, with its counts of pages.
pub(crate) type Disk = (Pairs<MemDisk>, PageCounts);

/// How many bytes an image has before its pages, and how many a digest has.
const HEADER: usize = 16;

const DIGEST: usize = 32;

fn set_version(image: &mut Vec<u8>, place: usize) {
    if let Some(version) = image.get_mut(place) {
        *version = 1;
    }
}

/// Sets an image back to version 1, whose files have no block past 119: its own version, and that in each half of its root.
pub(crate) fn set_back(image: &mut Vec<u8>) -> Result<(), AllocError> {
    let size = image.len().saturating_sub(DIGEST);
    let half = size.saturating_sub(HEADER) / 2;
    set_version(image, 8);
    set_version(image, HEADER + 5);
    set_version(image, half.saturating_add(HEADER + 5));
    image.truncate(size);
    let digest = Sha256::digest(image.as_slice());
    image.extend_from_slice(&digest)
}

/// The stores of new servers, eight of them at most.
fn new_disks(alloc: Global, servers: Servers) -> Result<Vec<Disk>, AllocError>
    ensures few { IfOk result (λ disks. vec_len disks ≤ 8) }
    ensures stores { IfOk result (λ disks. AreStores (⟦<Pairs<MemDisk> as StableStore>⟧.view) 0 disks.items) }
{
    let mut disks = Vec::new(alloc);
    for server in 0..servers.count.min(8) {
        disks.push(new_disk(alloc, ServerNo(server), servers.pages)?)?;
    }
    Ok(disks)
}

/// The store of a new server.
fn new_disk(alloc: Global, server: ServerNo, pages: PageCounts) -> Result<Disk, AllocError>
    ensures { IfOk result (λ disk. IsStore (⟦<Pairs<MemDisk> as StableStore>⟧.view) server.0 disk) }
{
    let root = Root {
        version: FORMAT_VERSION,
        server,
        pool: pages.pool,
        heads: pages.heads,
        leaves: pages.leaves,
        epoch: 0,
    };
    Ok((new_store(alloc, root)?, pages))
}

/// The images of one or two servers.
fn found_in(alloc: Global, images: &Images, count: u8) -> Result<Vec<Option<Vec<u8>>>, AllocError>
    ensures few { IfOk result (λ found. vec_len found ≤ 8) }
{
    let first = Vec::from_slice(alloc, &images.first)?;
    if count == 1 {
        return Ok(vec![in alloc; Some(first)]?);
    }
    let second = Vec::from_slice(alloc, &images.second)?;
    Ok(vec![in alloc; Some(first), Some(second)]?)
}

/// The stores of images of one or two servers.
fn disks_of(alloc: Global, images: &Images, count: u8) -> Result<Vec<Disk>, Wrong>
    ensures few { IfOk result (λ disks. vec_len disks ≤ 8) }
    ensures stores { IfOk result (λ disks. AreStores (⟦<Pairs<MemDisk> as StableStore>⟧.view) 0 disks.items) }
{
    let found = found_in(alloc, images, count)?;
    match examine(alloc, &found) {
        Ok(disks) => Ok(disks),
        Err(ExamineFault::Refused(refusal)) => Err(Wrong::Refused(refusal)),
        Err(ExamineFault::Memory) => Err(Wrong::Memory),
    }
}

impl Start {
    /// New disks.
    pub(crate) fn new(alloc: Global) -> Start {
        Start {
            files: Files::new(alloc),
            images: None,
        }
    }

    /// The stores of these servers.
    pub(crate) fn disks(&self, alloc: Global, servers: Servers) -> Result<Vec<Disk>, Wrong>
        ensures few { IfOk result (λ disks. vec_len disks ≤ 8) }
        ensures stores { IfOk result (λ disks. AreStores (⟦<Pairs<MemDisk> as StableStore>⟧.view) 0 disks.items) }
    {
        match &self.images {
            Some(images) => disks_of(alloc, images, servers.count),
            None => Ok(new_disks(alloc, servers)?),
        }
    }
}
