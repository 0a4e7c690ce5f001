//! A disk in memory, whose faults are armed: each call is the device step exactly.
//!
//! All room is made by the constructors: no later call takes memory.
#![tactic(auto)]

mod call;
mod disk;
mod faults;
mod pages;

pub use disk::MemDisk;
