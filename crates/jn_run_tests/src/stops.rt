//! One commit across two servers. Server 1 decides on it and puts its flag; server 0 has its work, which creates a file.

mod failing;
pub(crate) mod stop;
pub(crate) mod trying;

use failing::{Honest, Part};
use std::alloc::Global;
use std::test::Fail;
use stop::{Stop, Way, restart_calls};
use trying::{Restarts, Tally, Trial};

/// Every stop at a device call of the commit, in each of the three ways.
fn all_stops(alloc: Global, is_revived: bool) -> Result<Tally, Fail> {
    let mut tally = Tally::new();
    for number in 0..96 {
        let trial = Trial {
            stop: Stop::of(number),
            is_revived,
            restarts: Restarts::One,
        };
        tally.add(alloc, &trial)?;
    }
    Ok(tally)
}

// Of 32 calls the first four put the intention's record, so that a stop there leaves no work, in any way: 12. The ready record's first
// half isn't there where its put isn't begun or is torn: 2. The same is true of the flag's first half: 2. All other stops leave a
// commit.
#[test]
fn a_stop_at_each_device_call_of_a_commit(rt: HostRuntime) -> Result<(), Fail> {
    let tally = all_stops(rt.alloc(), false)?;
    assert_eq!(rt; tally.verdict(), (96, 16, "nothing"));
    Ok(())
}

// A torn page that is good again has what was to be put there: so the ready record and the flag are found.
#[test]
fn a_stop_at_each_device_call_with_a_revival_of_each_page(rt: HostRuntime) -> Result<(), Fail> {
    let tally = all_stops(rt.alloc(), true)?;
    assert_eq!(rt; tally.verdict(), (96, 14, "nothing"));
    Ok(())
}

/// A stop before a device call of the commit, and then one at each call of the restart, and behind the last.
fn restarts_of(alloc: Global, stop: Stop, way: Way, tally: &mut Tally) -> Result<(), Fail> {
    let calls = restart_calls(stop);
    for call in 1..calls.saturating_add(2) {
        let trial = Trial {
            stop,
            is_revived: false,
            restarts: if call <= calls {
                Restarts::Stopped(call, way)
            } else {
                Restarts::Missed(call, way)
            },
        };
        tally.add(alloc, &trial)?;
    }
    Ok(())
}

/// The same for each device call of the commit.
fn all_restarts(alloc: Global, way: Way) -> Result<Tally, Fail> {
    let mut tally = Tally::new();
    for number in 0..32_u32 {
        restarts_of(alloc, Stop::of(number.wrapping_mul(3)), way, &mut tally)?;
    }
    Ok(tally)
}

// Without a difference a restart takes 25 calls, so all 32 take 800; the 24 stops within a put leave two halves that differ in 16 cases,
// for 2 calls each, and a record to be erased in 8, for 4 each: 864, and one more each that the stop misses. The runs that
// are lost are those whose commit is stopped at calls 1 to 5 of server 0, whose restarts take 25, 31, 31, 29 and 29 calls, and at
// call 1 of server 1, whose restart takes 25.
#[test]
fn a_stop_before_each_call_of_a_restart(rt: HostRuntime) -> Result<(), Fail> {
    let tally = all_restarts(rt.alloc(), Way::Before)?;
    assert_eq!(rt; tally.verdict(), (896, 176, "nothing"));
    Ok(())
}

#[test]
fn a_torn_put_at_each_call_of_a_restart(rt: HostRuntime) -> Result<(), Fail> {
    let tally = all_restarts(rt.alloc(), Way::Torn)?;
    assert_eq!(rt; tally.verdict(), (896, 176, "nothing"));
    Ok(())
}

// No call comes behind the last one of each server.
#[test]
fn no_device_call_is_left_out(rt: HostRuntime) -> Result<(), Fail> {
    let mut tally = Tally::new();
    for (server, call) in [(0, 25), (1, 9)] {
        let trial = Trial {
            stop: Stop {
                server,
                call,
                way: Way::Before,
            },
            is_revived: false,
            restarts: Restarts::None,
        };
        tally.add(rt.alloc(), &trial)?;
    }
    assert_eq!(rt; tally.verdict(), (2, 0, "nothing"));
    Ok(())
}

// The schedule has 107 bytes, which are read by pieces of 64, and then the end is read. Seven events have lines, those of each taken at once, and
// the 94 bytes of the end by pieces of 64. Two images are loaded, and two saved.
#[test]
fn each_call_of_the_outside_fails(rt: HostRuntime) -> Result<(), Fail> {
    let alloc = rt.alloc();
    let honest = Honest::new(alloc)?;
    assert_eq!(rt; honest.failures(alloc, Part::Reads)?, Some(3));
    assert_eq!(rt; honest.failures(alloc, Part::Writes)?, Some(9));
    assert_eq!(rt; honest.failures(alloc, Part::Loads)?, Some(2));
    assert_eq!(rt; honest.failures(alloc, Part::Saves)?, Some(2));
    Ok(())
}
