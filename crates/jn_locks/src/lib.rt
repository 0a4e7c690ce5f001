//! The lock table of a server: which work holds which unit in which mode.
//!
//! Two works may hold one unit if each reads it, or one reads it and the other intends to write it. A commit lock goes
//! with no other. One work's own locks never conflict.
#![tactic(auto)]

mod broken;
mod held;
mod holders;
mod modes;
mod order;
mod search;
mod table;
mod units;
mod wants;
mod words;
mod works;

pub use order::{unit_before, work_before};
pub use table::{Granted, LockTable};
pub use words::{Broken, Conflict, LockFault, Mode, Standing, Want};
