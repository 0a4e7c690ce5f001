//! A call that a client waits for.

use jn_base::ServerNo;
use jn_calls::CallState;

/// A call under way.
#[derive(Drop)]
pub struct Doing {
    pub server: ServerNo,
    pub state: CallState,
    /// Whether a write of the call's own was done.
    pub wrote: bool,
}
