//! What a recovery finds, or why it finds nothing.
ghost use Rattle.std.specs.Prelude.{◌≡◌, IfOk, IfErr};
ghost use Rattle.jn_base.specs.declared.names.ServerNo.{ServerNo};
ghost use Rattle.jn_page_state.specs.Recoverable.{IsRecoverable};
ghost use Rattle.jn_recovery.specs.Loading.{IsLoaded, IsDown, IsUntouched};
ghost use Rattle.jn_recovery.specs.Counts.{counts_by};
ghost use Rattle.jn_recovery.specs.Matches.{Matches};
ghost use Rattle.jn_recovery.specs.Memory.{view_of};
ghost use Rattle.jn_recovery.specs.Kept.{memory_kept};
ghost use Rattle.jn_recovery.specs.declared.load.DownCause.TheVariants.{Stopped as DownStopped, Memory as DownMemory};

use crate::PageCounts;
use crate::gathering::{Kept, collect_flags, gather};
use crate::opening::begin_epoch;
use jn_base::{CallFault, Stopped};
use jn_records::{Flag, ListOf};
use jn_store::StableStore;
use std::alloc::{AllocError, Global};

/// Why a server has no storage.
#[derive(Clone, Copy, Debug, PartialEq, Eq, Drop)]
pub enum DownCause {
    /// The device has no power.
    Stopped,
    /// There is no memory for it.
    Memory,
    /// The root has the last epoch that there is room for.
    EpochsUsedUp,
}

/// What a recovery has found beside the works, which the storage lists.
#[derive(Drop)]
pub struct Found {
    /// The epoch that begins.
    pub epoch: u32,
    pub flags: ListOf<Flag>,
}

/// What a server keeps in memory of a store of so many pages, whatever was stopped there before. Root, records, heads and map
/// pages are cleaned, the restart is counted in the root, and what an unfinished preparation or a removed work left is erased.
/// The other data pages are left as they are: each is cleaned before its first get.
pub fn recover<S: StableStore>(
    alloc: Global,
    store: &mut S,
    counts: PageCounts,
) -> Result<(Kept, Found), DownCause>
    requires recoverable { (server : ServerNo) × IsRecoverable server (counts_by counts) (S.view store.old) }
    ensures matches { IfOk result (λ r. Matches (memory_kept r.0) (S.view store.new)) }
    ensures loaded { (server : ServerNo) → IsRecoverable server (counts_by counts) (S.view store.old) → IfOk result (λ r. IsLoaded server (counts_by counts) (S.view store.old) r.1 (view_of (memory_kept r.0) (S.view store.new))) }
    ensures down { (server : ServerNo) → IsRecoverable server (counts_by counts) (S.view store.old) → IfErr result (λ cause. IsDown server (counts_by counts) (S.view store.old) cause (S.view store.new)) }
    ensures untouched { IfOk result (λ r. IsUntouched r.0.table) }
{
    let (opened, epoch) = begin_epoch(alloc, store, counts)?;
    let kept = gather(alloc, opened, epoch)?;
    let flags = ListOf::from_vec(collect_flags(alloc, &kept.sets)?);
    Ok((kept, Found { epoch, flags }))
}

impl From<Stopped> for DownCause {
    ghost from_gives = { λ _ e. e ≡ DownStopped };

    fn from(_e: Stopped) -> DownCause {
        DownCause::Stopped
    }
}

impl From<AllocError> for DownCause {
    ghost from_gives = { λ _ e. e ≡ DownMemory };

    fn from(_e: AllocError) -> DownCause {
        DownCause::Memory
    }
}

impl From<CallFault> for DownCause {
    ghost use Rattle.jn_recovery.specs.Causes.{down_of};

    ghost from_gives = { λ fault e. e ≡ down_of fault };

    fn from(e: CallFault) -> DownCause {
        match e {
            CallFault::Stopped => DownCause::Stopped,
            CallFault::Memory => DownCause::Memory,
        }
    }
}
