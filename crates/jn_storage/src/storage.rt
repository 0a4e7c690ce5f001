// The traits of a server's storage.
ghost use Rattle.std.specs.Prelude.{◌≡◌, ◌<◌, is_ok, is_some};
ghost use Rattle.jn_base.specs.declared.names.LockUnit.TheVariants.{File, Block};
ghost use Rattle.jn_base.specs.Limits.{most_blocks};
ghost use Rattle.jn_storage.specs.Storage.{StorageView, IsServing};
ghost use Rattle.jn_storage.specs.Orderly.{file_there};
ghost use Rattle.jn_storage.specs.Calls.{state, NextFile, BlockRead, TellsWorks, TellsFlags, WorkPrepared, MarkedGoing, StepApplied, WorkRemoved, RecordErased, FlagPromised, PromiseReleased, MayPutFlag, FlagPut, FlagDropped, MayPrepare, IsReady, IsGoing, IsCarriedOut, HasFlag, NextBlock};

use crate::{PrepareFault, PromiseFault};
use jn_base::{Block, BlockNo, FileNo, LockUnit, Stopped, Tid, WorkId};
use jn_records::{Flag, Intention, WorkHead, WorkState};
use std::alloc::Global;

/// What is seen of a server's storage. Where a call is stopped, or a store is begun with, what is found
/// may differ from pick to pick, and then no call is made before a recovery.
pub trait Storage {
    /// The states that may be found, what is free and promised, and the store below.
    ghost view: { Self → StorageView };
}

/// The files of a server, as they are stored. A block's number is below `most_blocks`.
pub trait StoredFiles: Storage {
    fn file_there(&self, f: FileNo) -> bool
        requires serving { IsServing (Self.view self.now) }
        ensures { result ≡ file_there (state (Self.view self.now)).files f };

    /// The least file above `after`, or the least of all.
    fn next_file(&self, after: Option<FileNo>) -> Option<FileNo>
        requires serving { IsServing (Self.view self.now) }
        ensures { NextFile (state (Self.view self.now)).files after result };

    /// The least stored block of a file above `after`, or the least of all. It makes no device call.
    fn next_block(&self, f: FileNo, after: Option<BlockNo>) -> Option<BlockNo>
        requires serving { IsServing (Self.view self.now) }
        ensures { NextBlock (state (Self.view self.now)).files f after result };

    /// Whether the file is there and has its map page `j`, which is one of `MOST_MAPS`. It makes no device call, and no call but
    /// `apply_step` changes it.
    fn map_there(&self, f: FileNo, j: u8) -> bool
        requires serving { IsServing (Self.view self.now) }
        ensures { result ≡ (Self.view self.now).accounts.maps f j };

    /// Whether the block is stored.
    fn mapped(&self, f: FileNo, p: BlockNo) -> bool
        requires serving { IsServing (Self.view self.now) }
        requires range { p.0 < most_blocks }
        ensures { result ≡ is_some ((state (Self.view self.now)).files (Block f p)) };

    /// The block, where it is stored.
    fn read_block(&mut self, f: FileNo, p: BlockNo) -> Result<Option<Block>, Stopped>
        requires serving { IsServing (Self.view self.old) }
        requires range { p.0 < most_blocks }
        ensures read { BlockRead (Self.view self.old) f p result (Self.view self.new) };
}

/// The prepared works of a server. A ready work has its whole list stored and waits for the outcome of its
/// transaction; a going one is carried out, intention by intention, from the first one on after each recovery.
pub trait WorkStore: StoredFiles {
    /// Stores a work with its list and what it read, as ready. A put whose map page isn't there in its turn gets one, which
    /// is held and not put yet. It takes all its memory before it reaches the device.
    fn prepare(
        &mut self,
        alloc: Global,
        head: &WorkHead,
        list: &[Intention],
        reads: &[LockUnit],
    ) -> Result<(), PrepareFault>
        requires serving { IsServing (Self.view self.old) }
        requires may { MayPrepare (Self.view self.old) head.now list.now reads.now }
        ensures prepared { WorkPrepared (Self.view self.old) head.now list.now reads.now result (Self.view self.new) };

    /// Makes a ready work going: its transaction has committed. It takes no memory, nor does any call below.
    fn mark_going(&mut self, work: WorkId) -> Result<(), Stopped>
        requires serving { IsServing (Self.view self.old) }
        requires ready { IsReady (Self.view self.old) work }
        ensures marked { MarkedGoing (Self.view self.old) work (is_ok result) (Self.view self.new) };

    /// Carries out the next intention of a going work; false where none is left. A stop may leave some of the blocks that a cut
    /// takes away.
    fn apply_step(&mut self, work: WorkId) -> Result<bool, Stopped>
        requires serving { IsServing (Self.view self.old) }
        requires going { IsGoing (Self.view self.old) work }
        ensures applied { StepApplied (Self.view self.old) work result (Self.view self.new) };

    /// Removes a going work that is carried out.
    fn forget(&mut self, work: WorkId) -> Result<(), Stopped>
        requires serving { IsServing (Self.view self.old) }
        requires done { IsCarriedOut (Self.view self.old) work }
        ensures removed { WorkRemoved (Self.view self.old) work (is_ok result) (Self.view self.new) };

    /// Removes a ready work: its transaction was aborted.
    fn drop_ready(&mut self, work: WorkId) -> Result<(), Stopped>
        requires serving { IsServing (Self.view self.old) }
        requires ready { IsReady (Self.view self.old) work }
        ensures removed { WorkRemoved (Self.view self.old) work (is_ok result) (Self.view self.new) };

    /// Erases one record of an intention that no prepared work has; false where there is none.
    fn erase_step(&mut self) -> Result<bool, Stopped>
        requires serving { IsServing (Self.view self.old) }
        ensures erased { RecordErased (Self.view self.old) result (Self.view self.new) };

    /// The prepared works.
    fn works(&self) -> &[WorkState]
        requires serving { IsServing (Self.view self.now) }
        ensures { TellsWorks (Self.view self.now) result.now };
}

/// The commit flags of a server.
pub trait FlagStore: Storage {
    /// Promises a record for a flag, and makes the room in memory that it will fill.
    fn promise(&mut self, alloc: Global) -> Result<(), PromiseFault>
        requires serving { IsServing (Self.view self.old) }
        ensures promised { FlagPromised (Self.view self.old) result (Self.view self.new) };

    /// Gives back a promise. It takes no memory, nor does any call below.
    fn release_promise(&mut self)
        requires serving { IsServing (Self.view self.old) }
        requires promise { 0 < (Self.view self.old).accounts.promised_records }
        ensures released { PromiseReleased (Self.view self.old) (Self.view self.new) };

    /// Puts a flag into the record of a promise: its transaction has committed. It has 8 works at most.
    fn put_flag(&mut self, flag: &Flag) -> Result<(), Stopped>
        requires serving { IsServing (Self.view self.old) }
        requires may { MayPutFlag (Self.view self.old) flag.now }
        ensures put { FlagPut (Self.view self.old) flag.now (is_ok result) (Self.view self.new) };

    /// Drops a flag: every work of its transaction is done, and its client knows the outcome.
    fn drop_flag(&mut self, t: Tid) -> Result<(), Stopped>
        requires serving { IsServing (Self.view self.old) }
        requires live { HasFlag (Self.view self.old) t }
        ensures dropped { FlagDropped (Self.view self.old) t (is_ok result) (Self.view self.new) };

    /// The flags.
    fn flags(&self) -> &[Flag]
        requires serving { IsServing (Self.view self.now) }
        ensures { TellsFlags (Self.view self.now) result.now };
}
