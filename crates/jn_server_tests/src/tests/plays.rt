//! What tests make a new server do: scripts one after the other, each line of a script at a server of its own, and a script after a restart.

use super::bench::{left_by, new_store, start_and_follow};
use jn_intent::PageCounts;
use std::alloc::Global;
use std::process::Abort;
use std::test::Fail;

/// A server of so many pages, and three scripts.
#[derive(Clone, Copy)]
pub(crate) struct Play {
    counts: PageCounts,
    first: &'static str,
    then: &'static str,
    last: &'static str,
}

pub(crate) fn play_of(
    (pool, heads, leaves): (u16, u16, u16),
    first: &'static str,
    then: &'static str,
    last: &'static str,
) -> Option<Play> {
    let counts = PageCounts {
        pool,
        heads,
        leaves,
    };
    Some(Play {
        counts,
        first,
        then,
        last,
    })
}

fn check_with(rt: &impl Abort, alloc: Global, play: Play, last: &str) -> Result<(), Fail> {
    let left = new_store(alloc, play.counts)?;
    start_and_follow(rt, alloc, left, play.first, play.then, last)
}

/// A new server does the three scripts.
pub(crate) fn check(rt: &impl Abort, alloc: Global, play: Play) -> Result<(), Fail> {
    check_with(rt, alloc, play, play.last)
}

/// For each line of the last script a new server does the first two and then that line.
pub(crate) fn check_each(rt: &impl Abort, alloc: Global, play: Play) -> Result<(), Fail> {
    for line in play.last.lines() {
        check_with(rt, alloc, play, line)?;
    }
    Ok(())
}

/// A new server does the first script and goes down; then it comes up and does the others.
pub(crate) fn check_restart(rt: &impl Abort, alloc: Global, play: Play) -> Result<(), Fail> {
    let left = left_by(rt, alloc, new_store(alloc, play.counts)?, play.first)?;
    start_and_follow(rt, alloc, left, play.then, play.last, "")
}
