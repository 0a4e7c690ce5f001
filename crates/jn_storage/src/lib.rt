//! The storage of a server, as its worker and its coordinator see it: files, prepared works and commit flags.
//!
//! Each change is stable at once. A call that is stopped leaves it whole or not at all, or of a cut some of the blocks
//! gone. What may then be found is told by picks of halves of pages; while nothing was stopped, all picks find one
//! state, and every call asks for that. `specs/Storage.antt` says what is seen of a storage, `specs/Orderly.antt` what holds of its
//! stable state at every moment, `specs/Calls.antt` what each call does, and `proofs/Laws.antt` and
//! `proofs/Kept.antt` have the lemmas.
#![tactic(auto)]

mod faults;
mod files;
mod storage;

pub use faults::{PrepareFault, PromiseFault, ViewFault};
pub use files::{lacking, need, view};
pub use storage::{FlagStore, Storage, StoredFiles, WorkStore};
