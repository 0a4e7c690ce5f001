//! Why a node doesn't come up, or doesn't go down.

use std::alloc::AllocError;

/// Why a node doesn't come up, or doesn't go down.
#[derive(Clone, Copy, Debug, PartialEq, Eq, Drop)]
pub enum NodeFault {
    /// The server has begun its last epoch.
    UsedUp,
    Memory,
}

impl From<AllocError> for NodeFault {
    fn from(_refused: AllocError) -> NodeFault {
        NodeFault::Memory
    }
}
