//! The disks that a run leaves, as images.

ghost use Rattle.std.specs.Prelude.{◌≡◌, ◌≤◌, length};
ghost use Rattle.jn_image_files.specs.Opened.{AreClosed};
ghost use Rattle.jn_run.specs.Keeping.{KeptAs, KeptWith};
ghost use Rattle.jn_writing.specs.Outside.{keeper_state};

use crate::running::Disks;
use jn_host::{KeepFailure, Keeper};
use jn_image_files::save_images;
use jn_intent::PageCounts;
use jn_memdisk::MemDisk;
use jn_options::Options;
use jn_stable::Pairs;
use jn_status::Status;
use jn_store::Powered;
use std::alloc::Global;

/// Keeps the stores of servers that were closed, server 0 first, where that is asked for.
pub fn keep<I: Keeper>(
    alloc: Global,
    options: &Options,
    stores: Vec<Disks>,
    counts: &[PageCounts],
    keeper: &mut I,
) -> Status
    requires few { length stores.items ≤ 8 }
    requires counts { length counts.now ≡ length stores.items }
    requires closed { AreClosed (⟦<Pairs<MemDisk> as Powered>⟧.device) stores.items counts.now }
    ensures kept { KeptWith (⟦<Pairs<MemDisk> as Powered>⟧.device) stores.items counts.now options.now.closing (keeper_state I.kept I.faults keeper.old) result (keeper_state I.kept I.faults keeper.new) }
{
    match &options.closing {
        None => Status::Done,
        Some(name) => keep_as(alloc, name.as_str(), stores, counts, keeper),
    }
}

/// Keeps them as images of this name.
fn keep_as<I: Keeper>(
    alloc: Global,
    name: &str,
    stores: Vec<Disks>,
    counts: &[PageCounts],
    keeper: &mut I,
) -> Status
    requires few { length stores.items ≤ 8 }
    requires counts { length counts.now ≡ length stores.items }
    requires closed { AreClosed (⟦<Pairs<MemDisk> as Powered>⟧.device) stores.items counts.now }
    ensures kept { KeptAs (⟦<Pairs<MemDisk> as Powered>⟧.device) stores.items counts.now name.now (keeper_state I.kept I.faults keeper.old) result (keeper_state I.kept I.faults keeper.new) }
{
    match save_images(alloc, keeper, name, stores, counts) {
        Ok(()) => Status::Done,
        Err(KeepFailure::Failed) => Status::Keep,
        Err(KeepFailure::Memory) => Status::Memory,
    }
}
