//! Disks that are saved as images.

ghost use Rattle.std.specs.Prelude.{◌≡◌, ◌≤◌, length, vec_len};
ghost use Rattle.jn_image_files.specs.Opened.{IsClosed, AreClosed};
ghost use Rattle.jn_image_files.specs.Saved.{SavesAll, SavesOne};
ghost use Rattle.jn_recovery.specs.Counts.{counts_by};

use crate::names::image_name;
use jn_base::ServerNo;
use jn_disks::pages_of_store;
use jn_host::{KeepFailure, Keeper};
use jn_image::{Image, encode};
use jn_memdisk::MemDisk;
use jn_records::{FORMAT_VERSION, ListOf};
use jn_recovery::PageCounts;
use jn_stable::Pairs;
use jn_store::Powered;
use std::alloc::Global;

/// Saves the disks of servers that were closed, server 0 first, each with its counts of pages. Where a call fails, the
/// images before it are saved, and nothing else is changed.
pub fn save_images<I: Keeper>(
    alloc: Global,
    keeper: &mut I,
    name: &str,
    stores: Vec<Pairs<MemDisk>>,
    counts: &[PageCounts],
) -> Result<(), KeepFailure>
    requires few { vec_len stores ≤ 8 }
    requires counts { length counts.now ≡ vec_len stores }
    requires closed { AreClosed (⟦<Pairs<MemDisk> as Powered>⟧.device) stores.items counts.now }
    ensures saved { SavesAll (⟦<Pairs<MemDisk> as Powered>⟧.device) name.now stores.items counts.now (I.kept keeper.old) (I.faults keeper.old) result (I.kept keeper.new) (I.faults keeper.new) }
{
    let mut server = 0;
    for store in stores {
        save_image(
            alloc,
            keeper,
            name,
            ServerNo(server),
            counts[usize::from(server)],
            store,
        )?;
        server += 1;
    }
    Ok(())
}

/// Saves the disk of one server that was closed, with its counts of pages, as a whole image of version 2 in the form of
/// `docs/IMAGE.md`, under the name of the server's image. Its pages are sound by now, so nobody looks at them again. Where the call
/// to the keeper fails or memory runs out, each name holds what it held.
pub fn save_image<I: Keeper>(
    alloc: Global,
    keeper: &mut I,
    name: &str,
    server: ServerNo,
    counts: PageCounts,
    store: Pairs<MemDisk>,
) -> Result<(), KeepFailure>
    requires server { server.0 ≤ 7 }
    requires closed { IsClosed server (counts_by counts) (⟦<Pairs<MemDisk> as Powered>⟧.device store) }
    ensures saved { SavesOne name.now (counts_by counts) server (⟦<Pairs<MemDisk> as Powered>⟧.device store) (I.kept keeper.old) (I.faults keeper.old) result (I.kept keeper.new) (I.faults keeper.new) }
{
    let image = Image {
        version: FORMAT_VERSION,
        server,
        pool: counts.pool,
        heads: counts.heads,
        leaves: counts.leaves,
        pages: ListOf::from_vec(pages_of_store(store)),
    };
    let bytes = encode(alloc, &image)?;
    let own = image_name(alloc, name, server)?;
    keeper.save(&own, &bytes)
}
