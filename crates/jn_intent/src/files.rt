//! The files of a storage.
ghost use Rattle.std.specs.Prelude.{◌≡◌, ◌<◌, Ok, None};
ghost use Rattle.jn_base.specs.declared.names.LockUnit.TheVariants.{Block as BlockUnit};
ghost use Rattle.jn_base.specs.Limits.{most_blocks};
ghost use Rattle.jn_storage.specs.Storage.{IsServing};
ghost use Rattle.jn_storage.specs.Calls.{state, BlockRead};

use crate::Intents;
use jn_base::{Block, BlockNo, FileNo, Stopped};
use jn_storage::{Storage, StoredFiles};
use jn_store::StableStore;

impl<S: StableStore> StoredFiles for Intents<S> {
    fn file_there(&self, f: FileNo) -> bool {
        self.table.exists(f)
    }

    fn next_file(&self, after: Option<FileNo>) -> Option<FileNo> {
        self.table.next(after)
    }

    fn next_block(&self, f: FileNo, after: Option<BlockNo>) -> Option<BlockNo> {
        self.table.next_block(f, after)
    }

    fn map_there(&self, f: FileNo, j: u8) -> bool {
        self.table.map_there(f, j)
    }

    fn mapped(&self, f: FileNo, p: BlockNo) -> bool {
        self.table.mapped(f, p)
    }

    /// A block that isn't stored is reported without a device call. The page of one that is stored is cleaned before its first get.
    fn read_block(&mut self, f: FileNo, p: BlockNo) -> Result<Option<Block>, Stopped>
        requires serving { IsServing (⟦<Intents<S> as Storage>⟧.view self.old) }
        requires range { p.0 < most_blocks }
        ensures read { BlockRead (⟦<Intents<S> as Storage>⟧.view self.old) f p result (⟦<Intents<S> as Storage>⟧.view self.new) }
        ensures unasked { (state (⟦<Intents<S> as Storage>⟧.view self.old)).files (BlockUnit f p) ≡ None → (result ≡ Ok None) × (⟦<Intents<S> as Storage>⟧.view self.new ≡ ⟦<Intents<S> as Storage>⟧.view self.old) }
    {
        let answer = self.table.read_block(&mut self.store, f, p);
        self.table.is_table();
        answer
    }
}
