//! Tests of calls on a directory, which stands in memory.
#![tactic(auto)]

#[cfg(test)]
mod buckets;
#[cfg(test)]
mod directory;
#[cfg(test)]
mod orders;
