//! The outside of the program: a source of bytes, a sink of bytes, and a keeper of named byte strings.
//!
//! Each is a trait. Its ghost members say what it has, where it tells that, and how often one of its
//! calls failed, so that a caller can show that it blames the outside only where the outside failed.
#![tactic(auto)]

ghost use Rattle.std.specs.Prelude.{◌≡◌, ℕ, List, Option};
ghost use Rattle.jn_host.specs.Outside.{SourceRead, SinkWrote, KeeperLoaded, KeeperSaved};
ghost use Rattle.jn_host.specs.declared.KeepFailure.TheVariants.{Failed as CallFailed, Memory};

use std::alloc::{AllocError, AllocFailed, Global};

mod fault_plan;
mod file_keeper;
mod memory_keeper;
mod memory_sink;
mod memory_source;
mod standard;

pub use file_keeper::{FileKeeper, MOST_LOADED};
pub use memory_keeper::MemoryKeeper;
pub use memory_sink::MemorySink;
pub use memory_source::MemorySource;
pub use standard::{StandardInput, StandardOutput};

/// A call to the outside failed, and its object's count of faults rose.
#[derive(Clone, Copy, Debug, PartialEq, Eq)]
pub struct Failed;

/// Why a keeper gave no answer.
#[derive(Clone, Copy, Debug, PartialEq, Eq)]
pub enum KeepFailure {
    /// The call failed, and the keeper's count of faults rose.
    Failed,
    /// There was no memory for it.
    Memory,
}

impl From<Failed> for KeepFailure {
    ghost from_gives = { λ _ e. e ≡ CallFailed };

    fn from(_failed: Failed) -> KeepFailure {
        KeepFailure::Failed
    }
}

impl From<AllocError> for KeepFailure {
    ghost from_gives = { λ _ e. e ≡ Memory };

    fn from(_refused: AllocError) -> KeepFailure {
        KeepFailure::Memory
    }
}

impl<T: Drop> From<AllocFailed<T>> for KeepFailure {
    ghost from_gives = { λ _ e. e ≡ Memory };

    fn from(_refused: AllocFailed<T>) -> KeepFailure {
        KeepFailure::Memory
    }
}

/// Gives bytes from its first to its last.
pub trait Source {
    /// The bytes that are left, where the source tells them.
    ghost left: { Self → Option (List ℕ) };

    /// How often a call failed. It stays at the last value of a `u64`.
    ghost faults: { Self → ℕ };

    /// Puts the next bytes at the start of `into`, and answers how many. Zero bytes for room that
    /// isn't empty come at the end alone. A call that failed took no byte.
    fn read(&mut self, into: &mut [u8]) -> Result<usize, Failed>
        ensures read { SourceRead (left self.old) (faults self.old) into.old result (left self.new) (faults self.new) into.new };
}

/// Takes bytes, and keeps them in their order.
pub trait Sink {
    /// The bytes taken, where the sink tells them.
    ghost taken: { Self → Option (List ℕ) };

    /// How often a call failed. It stays at the last value of a `u64`.
    ghost faults: { Self → ℕ };

    /// Takes the first bytes of `from`, at least one where there is one, and answers how many. A call
    /// that failed took no byte.
    fn write(&mut self, from: &[u8]) -> Result<usize, Failed>
        ensures wrote { SinkWrote (taken self.old) (faults self.old) from.now result (taken self.new) (faults self.new) };
}

/// Keeps byte strings under names.
pub trait Keeper {
    /// What each name holds, by the name's bytes, where the keeper tells it.
    ghost kept: { Self → Option (List ℕ → Option (List ℕ)) };

    /// How often a call failed. It stays at the last value of a `u64`.
    ghost faults: { Self → ℕ };

    /// What the name holds, or `None` where it holds nothing. It changes nothing that is kept. A name
    /// that holds something which can't be read is a call that failed.
    fn load(&mut self, alloc: Global, name: &str) -> Result<Option<Vec<u8>>, KeepFailure>
        ensures loaded { KeeperLoaded (kept self.old) (faults self.old) name.now result (kept self.new) (faults self.new) };

    /// Makes the name hold the bytes, and changes no other name. Where that failed, or there was no
    /// memory for it, each name holds what it held.
    fn save(&mut self, name: &str, bytes: &[u8]) -> Result<(), KeepFailure>
        ensures saved { KeeperSaved (kept self.old) (faults self.old) name.now bytes.now result (kept self.new) (faults self.new) };
}
