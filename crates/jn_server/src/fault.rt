//! Why a server's call isn't done.

use jn_base::CallFault;

/// Why a server's call isn't done. After either the server is of no use any more.
pub type ServerFault = CallFault;
