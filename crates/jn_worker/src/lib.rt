//! The worker of a server: its live works, over any storage of works.
//! What it does with the list of them alone stands in `jn_works`.
#![tactic(auto)]

mod finish;
mod handle;
mod laws;
mod open;
mod operate;
mod prepare;
mod reading;
mod refuse;
mod restore;
mod step;
mod words;
mod worker;

pub use laws::{a_prepared_work_is_never_broken, an_old_operation_performs_nothing};
pub use words::WorkerFault;
pub use worker::Worker;
