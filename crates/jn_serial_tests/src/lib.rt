//! Tests of the order of commits: operations in a row, whole reports with forged ones beside them, and the lines of calls.
#![tactic(auto)]

#[cfg(test)]
mod calls;
#[cfg(test)]
mod rows;
#[cfg(test)]
mod tests;
