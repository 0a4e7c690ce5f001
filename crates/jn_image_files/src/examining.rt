//! Images that are examined.

ghost use Rattle.std.specs.Prelude.{◌≡◌, ◌≤◌, Err, Ok, IfOk, IfErr, length, vec_len};
ghost use Rattle.jn_host.specs.Outside.{found_bytes};
ghost use Rattle.jn_image.specs.Form.{image_bytes};
ghost use Rattle.jn_image_files.specs.Examined.{IsFirstRefused, IsRefused};
ghost use Rattle.jn_image_files.specs.Kept.{IsSoundImage};
ghost use Rattle.jn_image_files.specs.Opened.{found_at, IsStoreOf, AreStoresOf};
ghost use Rattle.jn_image_files.specs.declared.examining.ExamineFault.TheVariants as faults;
ghost use Rattle.jn_image_files.specs.declared.refusal.Refusal.{Refusal as ARefusal};

use crate::refusal::{Cause, Refusal};
use jn_base::ServerNo;
use jn_disks::store_of_pages;
use jn_image::{CheckError, DecodeError, Image, check, decode};
use jn_memdisk::MemDisk;
use jn_recovery::PageCounts;
use jn_stable::Pairs;
use jn_store::{Powered, StableStore};
use std::alloc::{AllocError, AllocFailed, Global};
use thiserror::Error;

/// Why there are no disks of images.
#[derive(Clone, Copy, Debug, PartialEq, Eq, Drop, Error)]
pub enum ExamineFault {
    /// An image is refused.
    #[error("an image is refused: {0:?}")]
    Refused(Refusal),
    /// There is no memory.
    #[error("there is no memory")]
    Memory,
}

impl From<AllocError> for ExamineFault {
    ghost from_gives = { λ _ e. e ≡ faults.Memory };

    fn from(_e: AllocError) -> ExamineFault {
        ExamineFault::Memory
    }
}

impl<T: Drop> From<AllocFailed<T>> for ExamineFault {
    ghost from_gives = { λ _ e. e ≡ faults.Memory };

    fn from(_e: AllocFailed<T>) -> ExamineFault {
        ExamineFault::Memory
    }
}

/// The disks of images that were loaded, server 0 first, with their counts of pages; or the first image that is refused.
pub fn examine(
    alloc: Global,
    found: &[Option<Vec<u8>>],
) -> Result<Vec<(Pairs<MemDisk>, PageCounts)>, ExamineFault>
    requires few { length found.now ≤ 8 }
    ensures count { IfOk result (λ stores. vec_len stores ≡ length found.now) }
    ensures stores { IfOk result (λ stores. AreStoresOf (⟦<Pairs<MemDisk> as StableStore>⟧.view) (⟦<Pairs<MemDisk> as Powered>⟧.device) (found_at found.now) stores.items) }
    ensures refused { (r : ARefusal) → result ≡ Err (faults.Refused r) → IsFirstRefused (found_at found.now) (length found.now) r }
{
    let mut stores = Vec::new(alloc);
    for content in found {
        let server = ServerNo(stores.len() as u8);
        stores.push(examine_image(alloc, content, server)?)?;
    }
    Ok(stores)
}

/// The disk of a server's image that was loaded, with its counts of pages; or why the image is refused, by the rules of
/// `docs/IMAGE.md`: it is missing, is no image, with its first fault, or isn't sound for this server, with the first reason. The
/// disk has both halves of the image's pages, as they are, and no call was made to it. A restart finds the image's files there.
pub fn examine_image(
    alloc: Global,
    content: &Option<Vec<u8>>,
    server: ServerNo,
) -> Result<(Pairs<MemDisk>, PageCounts), ExamineFault>
    ensures store { IfOk result (λ x. IsStoreOf (⟦<Pairs<MemDisk> as StableStore>⟧.view) (⟦<Pairs<MemDisk> as Powered>⟧.device) server (found_bytes content.now) x) }
    ensures refused { (r : ARefusal) → result ≡ Err (faults.Refused r) → (r.server ≡ server) × IsRefused server (found_bytes content.now) r.cause }
{
    let image = image_of(alloc, content, server)?;
    let counts = PageCounts {
        pool: image.pool,
        heads: image.heads,
        leaves: image.leaves,
    };
    let store = store_of_pages(alloc, image.pages.into_vec())?;
    Ok((store, counts))
}

/// The sound image of a server that was found.
fn image_of(
    alloc: Global,
    content: &Option<Vec<u8>>,
    server: ServerNo,
) -> Result<Image, ExamineFault>
    ensures sound { IfOk result (λ m. IsSoundImage server m × (found_bytes content.now ≡ Some (image_bytes m))) }
    ensures refused { (r : ARefusal) → result ≡ Err (faults.Refused r) → (r.server ≡ server) × IsRefused server (found_bytes content.now) r.cause }
{
    let Some(bytes) = content else {
        return refuse(server, Cause::Missing);
    };
    let image = match decode(alloc, bytes) {
        Ok(image) => image,
        Err(DecodeError::Bad(fault)) => return refuse(server, Cause::Bad(fault)),
        Err(DecodeError::Memory) => return Err(ExamineFault::Memory),
    };
    match check(alloc, &image, server) {
        Ok(()) => Ok(image),
        Err(CheckError::Unsound(fault)) => refuse(server, Cause::Unsound(fault)),
        Err(CheckError::Memory) => Err(ExamineFault::Memory),
    }
}

fn refuse(server: ServerNo, cause: Cause) -> Result<Image, ExamineFault>
    ensures { result ≡ Err (faults.Refused (record { server = server; cause = cause })) }
{
    Err(ExamineFault::Refused(Refusal { server, cause }))
}
