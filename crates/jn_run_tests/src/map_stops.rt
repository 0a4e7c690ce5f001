//! Commits of one server that write map pages, each stopped at each device call. Each run's report is that of its commits.

mod moves;
mod trying;

use crate::stops::stop::Way;
use crate::stops::trying::{Restarts, Tally};
use moves::{Move, move_of};
use std::alloc::Global;
use std::process::Abort;
use std::test::Fail;
use trying::Trial;

/// A move stopped at each of its calls, in each way.
fn all_stops(alloc: Global, of: Move) -> Result<Tally, Fail> {
    let mut tally = Tally::new();
    for number in 0..of.calls().saturating_mul(3) {
        let trial = Trial {
            of,
            call: (number / 3).saturating_add(1),
            way: Way::of(number),
            restarts: Restarts::One,
        };
        trial.add(alloc, &mut tally)?;
    }
    Ok(tally)
}

// Each stop before the flag's first half is there loses the commit: where that is put by call 9, 3 at each of 8 calls and 2 at that one, and where by
// call 13, 3 at each of 12 and 2.
#[test]
fn each_stop_of_a_commit_that_writes_map_pages(rt: HostRuntime) -> Result<(), Fail> {
    for (number, stops, lost) in [(0, 108, 26), (1, 108, 38), (2, 120, 38), (3, 96, 26)] {
        let tally = all_stops(rt.alloc(), move_of(number))?;
        assert_eq!(rt; tally.verdict(), (stops, lost, "nothing"));
    }
    Ok(())
}

/// A move stopped before a call, and then a stop at each call of the restart, and behind the last.
fn restarts_of(
    alloc: Global,
    of: Move,
    call: u32,
    way: Way,
    tally: &mut Tally,
) -> Result<(), Fail> {
    let calls = of.restart_calls(call);
    for number in 1..calls.saturating_add(2) {
        let trial = Trial {
            of,
            call,
            way: Way::Before,
            restarts: if number <= calls {
                Restarts::Stopped(number, way)
            } else {
                Restarts::Missed(number, way)
            },
        };
        trial.add(alloc, tally)?;
    }
    Ok(())
}

/// The same for each of its calls.
fn all_restarts(alloc: Global, of: Move, way: Way) -> Result<Tally, Fail> {
    let mut tally = Tally::new();
    for call in 1..of.calls().saturating_add(1) {
        restarts_of(alloc, of, call, way, &mut tally)?;
    }
    Ok(tally)
}

// A restart takes 55 calls where two map pages are named, 52 where one is and 58 where three are. So without a difference those behind the stops of each
// move take 21 * 55 + 15 * 52, 36 * 55, 25 * 55 + 15 * 58, and 17 * 55 + 15 * 52. Halves differ in 18, 16, 16 and 16 cases, for 2 calls each, and in 12 a
// record is erased, for 4 each: 2019, 2060, 2325 and 1795. Each of the 36, 36, 40 and 32 restarts has one run more, which the stop misses. Those runs are
// lost whose move is stopped before call 9, 13, 13 or 9, or before one in front of it: 519 and 9, 739 and 13, 739 and 13, 519 and 9.
fn check_restarts(rt: &impl Abort, alloc: Global, way: Way) -> Result<(), Fail> {
    for (number, runs, lost) in [
        (0, 2055, 528),
        (1, 2096, 752),
        (2, 2365, 752),
        (3, 1827, 528),
    ] {
        let tally = all_restarts(alloc, move_of(number), way)?;
        assert_eq!(rt; tally.verdict(), (runs, lost, "nothing"));
    }
    Ok(())
}

#[test]
fn a_stop_before_each_call_of_a_restart_that_finds_map_pages(rt: HostRuntime) -> Result<(), Fail> {
    check_restarts(&rt, rt.alloc(), Way::Before)
}

#[test]
fn a_torn_put_at_each_call_of_a_restart_that_finds_map_pages(rt: HostRuntime) -> Result<(), Fail> {
    check_restarts(&rt, rt.alloc(), Way::Torn)
}
