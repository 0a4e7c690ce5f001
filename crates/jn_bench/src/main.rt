//! Measurements, which the scripts of `bench/` run and time. The first word says which:
//!
//! - `storm SEED COUNT FIRST`: so many random schedules of the seed, from this number on, each of whose reports is held against the definitions of a
//!   report. It prints what they exercised, and the first that fails.
//! - `locks ROUNDS`: rounds of a lock table, and how many of its calls were granted.
//! - `net MESSAGES`: messages through a network, and how many were read.
//!
//! Without words it does ten of each.
#![tactic(auto)]

mod storm;
mod tables;

use std::{env, io};
use storm::storm;
use tables::{carried, lock_rounds};

fn main(rt: HostRuntime) -> io::Result<()> {
    let mut words = env::args(&rt)?;
    let _program = words.next();
    let what = words.next();
    let kind = match &what {
        Some(word) => word.as_str(),
        None => "",
    };
    let first = match words.next() {
        Some(word) => word.as_str().parse().unwrap_or(0),
        None => 10,
    };
    if kind == "storm" {
        let count = match words.next() {
            Some(word) => word.as_str().parse().unwrap_or(0),
            None => 10,
        };
        let from = match words.next() {
            Some(word) => word.as_str().parse().unwrap_or(0),
            None => 0,
        };
        return storm(&rt, u64::from(first), count, from, true);
    }
    if kind != "net" {
        println!(rt; "locks {first} {}", lock_rounds(rt.alloc(), first)?)?;
    }
    if kind != "locks" {
        println!(rt; "net {first} {}", carried(rt.alloc(), first))?;
    }
    if kind.is_empty() {
        return storm(&rt, 1, first, 0, false);
    }
    Ok(())
}
