//! A storm: random schedules of all words at 1 to 3 servers, each of whose reports is held against the definitions of a report and, each
//! tenth, against what the top call writes. One in eight is two schedules, the second of which begins from the images that the first one leaves,
//! set back to version 1.

mod beginning;
mod counting;
mod judging;
mod running;
mod watching;

use counting::Counts;
use judging::{Failure, judge};
use std::alloc::{AllocError, Global};
use std::{io, str};

/// What schedules exercised, and the first that failed.
#[derive(Drop)]
struct Judged {
    counts: Counts,
    failure: Option<Failure>,
}

/// Judges so many schedules from this number on, until one fails.
fn judge_all(alloc: Global, seed: u64, count: u32, first: u32) -> Result<Judged, AllocError> {
    let mut counts = Counts::new();
    for i in 0..count {
        let failure = judge(alloc, seed, first.wrapping_add(i), &mut counts)?;
        if failure.is_some() {
            return Ok(Judged { counts, failure });
        }
    }
    Ok(Judged {
        counts,
        failure: None,
    })
}

/// Judges so many schedules of a seed from this number on. Where it is asked for, it prints what they exercised, one kind a line, and how often. A
/// schedule that fails is printed with what is wrong, and is the last one.
pub(crate) fn storm(
    rt: &HostRuntime,
    seed: u64,
    count: u32,
    first: u32,
    is_told: bool,
) -> io::Result<()> {
    let Judged { counts, failure } = judge_all(rt.alloc(), seed, count, first)?;
    if is_told {
        for (name, count) in counts.named() {
            println!(rt; "{count} {name}")?;
        }
    }
    if failure.is_none() {
        println!(rt; "{count} schedules hold")?;
    }
    match failure {
        Some(failure) => tell_failure(rt, failure),
        None => Ok(()),
    }
}

/// Prints a schedule that failed, with what is wrong.
fn tell_failure(rt: &HostRuntime, failure: Failure) -> io::Result<()> {
    let Failure {
        number,
        servers,
        wrong,
        first,
        schedule,
    } = failure;
    let pages = servers.pages;
    println!(rt; "schedule {number} fails: {wrong:?}")?;
    println!(rt;
        "--servers {} --pool {} --heads {} --data {}",
        servers.count, pages.pool, pages.heads, pages.leaves
    )?;
    if let Some(first) = &first {
        let first = str::from_utf8(first).unwrap_or("?");
        println!(rt; "{first}\nbegins from what this leaves, in version 1:")?;
    }
    println!(rt; "{}", str::from_utf8(&schedule).unwrap_or("?"))?;
    Ok(())
}
