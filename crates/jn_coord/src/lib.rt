//! A coordinator: its transactions from their Begin until they are forgotten, over any store of commit flags.
//! What it does with the list of them alone stands in `jn_transactions`.
#![tactic(auto)]

mod begin;
mod coordinator;
mod handle;
mod laws;
mod restoring;

pub use coordinator::Coordinator;
pub use jn_transactions::CoordFault;
pub use laws::outcomes_are_sent_after_the_flag;
