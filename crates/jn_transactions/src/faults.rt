//! Why a call of a coordinator fails.

use jn_base::CallFault;

/// Why a call fails. It sends nothing then. After `Stopped` the coordinator is of no more use; after `Memory` nothing has changed.
pub type CoordFault = CallFault;
