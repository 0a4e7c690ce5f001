//! Why a worker's call isn't done.

use jn_base::CallFault;

/// Why a worker's call isn't done. After `Stopped` the worker is of no use any more.
pub type WorkerFault = CallFault;
