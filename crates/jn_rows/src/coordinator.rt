//! What a coordinator remembers of its transactions.

use jn_base::{Cause, ClientNo, RequestNo, Tid};
use jn_msgs::Works;

/// A transaction at its coordinator, from its Begin until it is forgotten.
#[derive(Drop)]
pub struct Transaction {
    pub tid: Tid,
    pub client: ClientNo,
    /// The request that began it; none where a restart found its flag, which doesn't have it.
    pub begun: Option<RequestNo>,
    pub stage: Stage,
}

/// How far a transaction has come.
#[derive(Drop)]
pub enum Stage {
    /// It can still do everything.
    Open,
    /// Its works are to be prepared. A record is promised for its flag.
    Voting(Voting),
    /// Its flag is stored.
    Committed(Committed),
    Aborted(Cause),
}

/// A transaction that its client has ended.
#[derive(Drop)]
pub struct Voting {
    /// The request that ended it.
    pub request: RequestNo,
    /// In the order in which the client opened them.
    pub works: Works,
    /// The works that are prepared.
    pub ready: Works,
}

/// A committed transaction.
#[derive(Drop)]
pub struct Committed {
    /// In the order in which the client opened them.
    pub works: Works,
    /// The works that are carried out.
    pub done: Works,
    /// Whether the client knows that it committed.
    pub thanked: bool,
}
