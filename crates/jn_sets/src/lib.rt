//! A stable set of records on the pool of a store, in which the change of one record is atomic
//! (Lampson and Sturgis 1979).
//!
//! Slot i of the pool stands on stable page i + 1, behind the root. A call that changes the set puts one
//! page, the page of a record. So a call that is stopped leaves the set old or new, whichever
//! candidate of that page is found later. The set has an index of all its records in memory: no call
//! but `load` and `members` takes memory, and after a stop only the store counts.
#![tactic(auto)]

mod by_slot;
mod fault;
mod find;
mod numbers;
mod sets;

pub use fault::{LoadFault, SetFault};
pub use numbers::record_fits;
pub use sets::Sets;
