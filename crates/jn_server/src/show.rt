//! What a server shows of its files.
ghost use Rattle.std.specs.Prelude.{◌≡◌, ◌<◌, [], ◌∷◌, ◌++◌, is_some, true, None, Ok, OnOk, IfOk, IfErr};
ghost use Rattle.jn_base.specs.declared.names.LockUnit.TheVariants.{File, Block as BlockUnit};
ghost use Rattle.jn_base.specs.Limits.{most_blocks};
ghost use Rattle.jn_system.specs.WholeSystem.Printing.{print_one};
ghost use Rattle.jn_rows.specs.Worker.{commit_holder};
ghost use Rattle.jn_server.specs.declared.show.Shown.TheVariants.{Page};
ghost use Rattle.jn_server.specs.Pieces.{is_at, to_print, TellsPiece, CutsPiece, is_of, TellsBlocks, TellsFile};
ghost use Rattle.jn_server.specs.Seen.{view_with, IsServer};
ghost use Rattle.jn_server.specs.Showing.{IsShown, CutsShort};
ghost use Rattle.jn_storage.specs.Calls.{state, BlockRead};
ghost use Rattle.jn_base.specs.declared.names.BlockNo.{BlockNo as ABlock};
ghost use Rattle.jn_base.specs.declared.names.FileNo.{FileNo as AFile};
ghost use Rattle.jn_index.specs.Least.{NextAfter};

use crate::fault::ServerFault;
use crate::server::Server;
use jn_base::{Block, BlockContent, BlockNo, FileNo, LockUnit, Stopped, Tid};
use jn_storage::StoredFiles;
use jn_store::StableStore;
use jn_works::{lesser_block, lesser_file};
use std::alloc::{AllocError, Global};
use std::mem::replace;

/// What is reported of a file or a block.
#[derive(Drop)]
pub enum Shown {
    /// The file is there.
    File(FileNo),
    /// A prepared work of the transaction holds the file or the block for commit.
    Locked(LockUnit, Tid),
    /// The block is stored, with these bytes.
    Page(FileNo, BlockNo, BlockContent),
}

impl<S: StableStore> Server<S> {
    /// Reports the files, in rising order: one that a prepared work holds for commit is reported as locked, alone; any other that is
    /// there with its blocks after it, each as locked or as it is stored. A show that is stopped reports nothing. Each stored block is
    /// read once.
    pub fn show(&mut self, alloc: Global) -> Result<Vec<Shown>, ServerFault>
        requires serves { IsServer (view_with (λ s. S.view s) self.old) }
        ensures shown { IfOk result (λ list. IsShown (view_with (λ s. S.view s) self.old) list.items (view_with (λ s. S.view s) self.new)) }
        ensures cut_short { IfErr result (λ fault. CutsShort fault (view_with (λ s. S.view s) self.old) (view_with (λ s. S.view s) self.new)) }
    {
        let mut list = self.take_room(alloc);
        let mut after = None;
        while let Some(file) = self.next_shown(after) {
            self.show_file(alloc, file, &mut list)?;
            after = Some(file);
        }
        Ok(list)
    }

    /// The room that was kept, with nothing in it.
    fn take_room(&mut self, alloc: Global) -> Vec<Shown>
        ensures same { self.new ≡ self.old }
        ensures empty { result.items ≡ [] }
    {
        let mut room = replace(&mut self.room, Vec::new(alloc));
        room.clear();
        room
    }

    /// Takes a list back, so that the next show needs no memory for its own.
    pub fn keep_room(&mut self, list: Vec<Shown>)
        ensures { self.new ≡ self.old }
    {
        self.room = list;
    }

    /// The least file above `after` that is there or held for commit.
    fn next_shown(&self, after: Option<FileNo>) -> Option<FileNo>
        requires serves { IsServer (view_with (λ s. S.view s) self.now) }
        ensures { NextAfter (λ (f : AFile). f.0) (λ f. is_some (to_print (view_with (λ s. S.view s) self.now) (File f))) after result }
    {
        let stored = self.storage.next_file(after);
        let locked = self.worker.next_locked(after);
        lesser_file(stored, locked)
    }

    /// The file is there or held for commit.
    fn show_file(
        &mut self,
        alloc: Global,
        file: FileNo,
        list: &mut Vec<Shown>,
    ) -> Result<(), ServerFault>
        requires serves { IsServer (view_with (λ s. S.view s) self.old) }
        requires there { is_some (to_print (view_with (λ s. S.view s) self.old) (File file)) ≡ true }
        ensures shown { OnOk result (TellsFile (view_with (λ s. S.view s) self.old) file list.old.items (view_with (λ s. S.view s) self.new) list.new.items) }
        ensures cut { IfErr result (λ fault. CutsPiece fault (is_of file) (view_with (λ s. S.view s) self.old) (view_with (λ s. S.view s) self.new)) }
    {
        let unit = LockUnit::File(file);
        if let Some(tid) = self.holder(unit) {
            tell(list, Shown::Locked(unit, tid))?;
            return Ok(());
        }
        self.show_stored(alloc, file, list)
    }

    /// The file is there and isn't held for commit.
    fn show_stored(
        &mut self,
        alloc: Global,
        file: FileNo,
        list: &mut Vec<Shown>,
    ) -> Result<(), ServerFault>
        requires serves { IsServer (view_with (λ s. S.view s) self.old) }
        requires there { is_some (to_print (view_with (λ s. S.view s) self.old) (File file)) ≡ true }
        requires free { commit_holder (File file) self.old.worker.table ≡ None }
        ensures shown { OnOk result (TellsFile (view_with (λ s. S.view s) self.old) file list.old.items (view_with (λ s. S.view s) self.new) list.new.items) }
        ensures cut { IfErr result (λ fault. CutsPiece fault (is_of file) (view_with (λ s. S.view s) self.old) (view_with (λ s. S.view s) self.new)) }
    {
        tell(list, Shown::File(file))?;
        self.show_blocks(alloc, file, list)
    }

    fn show_blocks(
        &mut self,
        alloc: Global,
        file: FileNo,
        list: &mut Vec<Shown>,
    ) -> Result<(), ServerFault>
        requires serves { IsServer (view_with (λ s. S.view s) self.old) }
        ensures shown { OnOk result (TellsBlocks (view_with (λ s. S.view s) self.old) file list.old.items (view_with (λ s. S.view s) self.new) list.new.items) }
        ensures cut { IfErr result (λ fault. CutsPiece fault (is_of file) (view_with (λ s. S.view s) self.old) (view_with (λ s. S.view s) self.new)) }
    {
        let mut after = None;
        while let Some(block) = self.next_block(file, after) {
            self.show_block(alloc, file, block, list)?;
            after = Some(block);
        }
        Ok(())
    }

    /// The least block of the file above `after` that is stored or held for commit.
    fn next_block(&self, file: FileNo, after: Option<BlockNo>) -> Option<BlockNo>
        requires serves { IsServer (view_with (λ s. S.view s) self.now) }
        ensures { NextAfter (λ (p : ABlock). p.0) (λ p. is_some (to_print (view_with (λ s. S.view s) self.now) (BlockUnit file p))) after result }
    {
        let stored = self.storage.next_block(file, after);
        let locked = self.worker.next_locked_block(file, after);
        lesser_block(stored, locked)
    }

    /// The block is stored or held for commit.
    fn show_block(
        &mut self,
        alloc: Global,
        file: FileNo,
        block: BlockNo,
        list: &mut Vec<Shown>,
    ) -> Result<(), ServerFault>
        requires serves { IsServer (view_with (λ s. S.view s) self.old) }
        requires there { is_some (to_print (view_with (λ s. S.view s) self.old) (BlockUnit file block)) ≡ true }
        ensures shown { let v = view_with (λ s. S.view s) self.old in OnOk result (TellsPiece (is_at (BlockUnit file block)) v list.old.items (print_one (to_print v (BlockUnit file block))) (view_with (λ s. S.view s) self.new) list.new.items) }
        ensures cut { IfErr result (λ fault. CutsPiece fault (is_at (BlockUnit file block)) (view_with (λ s. S.view s) self.old) (view_with (λ s. S.view s) self.new)) }
    {
        let unit = LockUnit::Block(file, block);
        if let Some(tid) = self.holder(unit) {
            tell(list, Shown::Locked(unit, tid))?;
            return Ok(());
        }
        self.show_page(alloc, file, block, list)
    }

    /// The block is stored and isn't held for commit.
    fn show_page(
        &mut self,
        alloc: Global,
        file: FileNo,
        block: BlockNo,
        list: &mut Vec<Shown>,
    ) -> Result<(), ServerFault>
        requires serves { IsServer (view_with (λ s. S.view s) self.old) }
        requires there { is_some (to_print (view_with (λ s. S.view s) self.old) (BlockUnit file block)) ≡ true }
        requires free { commit_holder (BlockUnit file block) self.old.worker.table ≡ None }
        ensures shown { let v = view_with (λ s. S.view s) self.old in OnOk result (TellsPiece (is_at (BlockUnit file block)) v list.old.items (print_one (to_print v (BlockUnit file block))) (view_with (λ s. S.view s) self.new) list.new.items) }
        ensures cut { IfErr result (λ fault. CutsPiece fault (is_at (BlockUnit file block)) (view_with (λ s. S.view s) self.old) (view_with (λ s. S.view s) self.new)) }
    {
        // Its bytes are lent from where they were read, since a move copies them.
        match &self.read(file, block) {
            Ok(Some(bytes)) => Ok(tell_page(alloc, list, file, block, bytes)?),
            Ok(None) => unreachable!(),
            Err(stopped) => Err(ServerFault::from(*stopped)),
        }
    }

    /// The transaction that holds the unit for commit.
    fn holder(&self, unit: LockUnit) -> Option<Tid>
        ensures { result ≡ commit_holder unit self.now.worker.table }
    {
        self.worker.view(unit)
    }

    /// The block, where it is stored.
    fn read(&mut self, file: FileNo, block: BlockNo) -> Result<Option<Block>, Stopped>
        requires serves { IsServer (view_with (λ s. S.view s) self.old) }
        requires range { block.0 < most_blocks }
        ensures read { BlockRead (view_with (λ s. S.view s) self.old).storage file block result (view_with (λ s. S.view s) self.new).storage }
        ensures unasked { (state (view_with (λ s. S.view s) self.old).storage).files (BlockUnit file block) ≡ None → (view_with (λ s. S.view s) self.new).storage ≡ (view_with (λ s. S.view s) self.old).storage }
        ensures tables { view_with (λ s. S.view s) self.new ≡ record (view_with (λ s. S.view s) self.old) { storage = (view_with (λ s. S.view s) self.new).storage } }
    {
        self.storage.read_block(file, block)
    }
}

/// Adds a block with these bytes to the list.
fn tell_page(
    alloc: Global,
    list: &mut Vec<Shown>,
    file: FileNo,
    block: BlockNo,
    bytes: &Block,
) -> Result<(), AllocError>
    ensures { OnOk result (list.new.items ≡ list.old.items ++ Page file block bytes.now ∷ []) }
{
    let content = BlockContent::from_block(alloc, bytes)?;
    tell(list, Shown::Page(file, block, content))?;
    Ok(())
}

/// Adds one to the list.
fn tell(list: &mut Vec<Shown>, shown: Shown) -> Result<(), AllocError>
    ensures { OnOk result (list.new.items ≡ list.old.items ++ shown ∷ []) }
{
    list.push(shown)?;
    Ok(())
}
