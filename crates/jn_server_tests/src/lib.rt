//! Tests of a server over a plain list of pages: what it sends for each message, row by row. Its limits, its device calls and its stops at each of them
//! the program shows, in `.ci/schedules`.
#![tactic(auto)]

#[cfg(test)]
mod tests;
