//! Tests of stable storage from below: a plain list of pages, stable pages over a disk in memory, stopped at each device call, and pages of records
//! written out by hand.
#![tactic(auto)]

#[cfg(test)]
mod pages;
#[cfg(test)]
mod records;
