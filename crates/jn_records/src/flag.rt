//! Commit flags.
use crate::list::ListOf;
use jn_base::{ClientNo, RequestNo, Tid, WorkId};

/// A commit flag: the transaction has committed, and its works are still to be told.
#[derive(Drop)]
pub struct Flag {
    pub tid: Tid,
    pub client: ClientNo,
    /// The number of the request that ended the transaction.
    pub request: RequestNo,
    pub works: ListOf<WorkId>,
}
