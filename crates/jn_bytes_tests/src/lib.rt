//! Tests of calls on bytes: reads and writes around the size of a block beside bytes in memory, and rows worked by hand.
#![tactic(auto)]

#[cfg(test)]
mod plain;
#[cfg(test)]
mod rows;
#[cfg(test)]
mod tables;
