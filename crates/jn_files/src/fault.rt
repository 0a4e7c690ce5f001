//! Why a table isn't loaded.

use jn_base::CallFault;

/// Why a table isn't loaded.
pub type LoadFault = CallFault;
