//! Runs of two servers.

mod texts;

use crate::{Call, Failing, Servers, ending_of, first_broken, lines_of, parsed, text_of};
use jn_intent::PageCounts;
use jn_run::Status;
use std::alloc::Global;
use std::process::Abort;
use std::str;
use std::test::Fail;
use texts::{
    AGAIN, CHART, DELIVERED, STOPPED_IN_FLAG, again, crossed_again, crossed_report, delivered,
};

/// How many pages of each kind a server has that no option asks for.
const COUNTS: PageCounts = PageCounts {
    pool: 32,
    heads: 16,
    leaves: 128,
};

/// The words that ask for two servers.
fn words(trace: bool) -> &'static [&'static str] {
    if trace {
        &["juniper", "run", "--servers", "2", "--trace"]
    } else {
        &["juniper", "run", "--servers", "2"]
    }
}

/// The text of a run's lines, which meet each definition, and which the top call writes.
fn told(rt: &impl Abort, alloc: Global, trace: bool, schedule: &str) -> Result<Vec<u8>, Fail> {
    let events = parsed(alloc, schedule.as_bytes())?;
    let servers = Servers {
        count: 2,
        pages: COUNTS,
        trace,
    };
    let lines = lines_of(alloc, servers, &events)?;
    assert_eq!(rt; first_broken(alloc, &events, &lines)?, None);
    let text = text_of(alloc, &lines)?;
    let asked = Call {
        words: words(trace),
        schedule: schedule.as_bytes(),
        failing: Failing::Nothing,
    };
    let (status, taken) = ending_of(alloc, &asked, None)?;
    assert_eq!(rt; status, Status::Done);
    assert!(rt; taken == text, "another text is written");
    Ok(text)
}

/// A schedule has this report.
fn check(
    rt: &impl Abort,
    alloc: Global,
    trace: bool,
    schedule: &str,
    report: &str,
) -> Result<(), Fail> {
    let text = told(rt, alloc, trace, schedule)?;
    assert_eq!(rt; str::from_utf8(&text).unwrap_or("?"), report);
    Ok(())
}

#[test]
fn a_coordinator_stops_in_the_write_of_its_flag(rt: HostRuntime) -> Result<(), Fail> {
    let (schedule, report) = STOPPED_IN_FLAG;
    check(&rt, rt.alloc(), false, schedule, report)?;
    check(&rt, rt.alloc(), true, schedule, CHART)
}

/// Each order of three.
const ORDERS: [[u32; 3]; 6] = [
    [0, 1, 2],
    [0, 2, 1],
    [1, 0, 2],
    [1, 2, 0],
    [2, 0, 1],
    [2, 1, 0],
];

#[test]
fn crossed_transactions_whose_messages_are_handed_over_in_any_order(
    rt: HostRuntime,
) -> Result<(), Fail> {
    for order in &ORDERS {
        check(
            &rt,
            rt.alloc(),
            false,
            &delivered(rt.alloc(), order)?,
            DELIVERED,
        )?;
        let report = crossed_report(rt.alloc(), order)?;
        check(
            &rt,
            rt.alloc(),
            false,
            &crossed_again(rt.alloc(), order)?,
            &report,
        )?;
    }
    Ok(())
}

#[test]
fn every_message_is_handed_over_again(rt: HostRuntime) -> Result<(), Fail> {
    check(&rt, rt.alloc(), false, &again(rt.alloc())?, AGAIN)
}
