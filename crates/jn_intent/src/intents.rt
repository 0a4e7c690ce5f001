//! The storage, and what it keeps.
ghost use Rattle.jn_recovery.specs.Memory.{view_of};

use jn_base::{ServerNo, WorkId};
use jn_files::FileTable;
use jn_records::{Flag, WorkState};
use jn_sets::Sets;
use jn_storage::Storage;
use jn_store::StableStore;
use std::marker::Model;

/// Room in memory for a flag's works, in the set of records and in the list of flags.
#[derive(Drop)]
pub(crate) struct Room {
    pub(crate) stored: Vec<WorkId>,
    pub(crate) listed: Vec<WorkId>,
}

/// A server's storage on a store. Contracts see the store, and what is kept of it in memory.
#[derive(Drop)]
pub struct Intents<S: StableStore> {
    pub(crate) store: S,
    pub(crate) server: ServerNo,
    pub(crate) epoch: u32,
    pub(crate) sets: Sets,
    pub(crate) table: FileTable,
    pub(crate) works: Vec<WorkState>,
    pub(crate) flags: Vec<Flag>,
    pub(crate) rooms: Vec<Room>,
}

impl<S: StableStore> Model for Intents<S> {
    ghost use Rattle.jn_recovery.specs.Memory.{Memory};
    ghost use Rattle.jn_intent.specs.Inside.{memory_of, IsSoundStorage};

    ghost Value = { S × Memory };

    ghost view = { λ s. (s.store, memory_of s) };

    ghost invariant = { λ s. IsSoundStorage (λ store. S.view store) s };
}

impl<S: StableStore> Storage for Intents<S> {
    ghost view = { λ s. view_of s.1 (S.view s.0) };
}
