//! Runs of such a commit with a stop, held against the definitions of a report, the client's outcome, and what the top call writes.

use crate::map_stops::moves::Move;
use crate::stops::stop::{Outcome, Stop, Way};
use crate::stops::trying::{Restarts, Tally, Wrong, push_arm, stops_in, told, wrong_in_call};
use crate::{Servers, first_broken, lines_of, parsed};
use jn_base::ClientNo;
use jn_intent::PageCounts;
use jn_report::Line;
use jn_schedule::Event;
use std::alloc::{AllocError, Global};
use std::test::Fail;

const SERVERS: Servers = Servers {
    count: 1,
    pages: PageCounts {
        pool: 12,
        heads: 2,
        leaves: 12,
    },
    trace: false,
};

/// The words that ask for it.
const WORDS: &[&str] = &[
    "juniper", "run", "--pool", "12", "--heads", "2", "--data", "12",
];

/// The file is made, and the other client is in a transaction.
const BEGUN: &str =
    "c2 begin 0\nsettle\nc2 open 0\nsettle\nc2 create 0 7\nsettle\nc2 write 0 7 3 61\nsettle\nc2 write 0 7 140 62\nsettle\nc2 write 0 7 160 63\nsettle\nc2 write 0 7 250 64\nsettle\nc2 end\nsettle\nc1 begin 0\nsettle\nc1 open 0\nsettle\n";

/// A run in which a move is stopped at a device call.
#[derive(Clone, Copy)]
pub(crate) struct Trial {
    pub(crate) of: Move,
    pub(crate) call: u32,
    pub(crate) way: Way,
    pub(crate) restarts: Restarts,
}

impl Trial {
    /// Its schedule.
    fn schedule(&self, alloc: Global) -> Result<String, AllocError> {
        let mut text = String::from_str(alloc, BEGUN)?;
        text.push_str(self.of.operation)?;
        text.push_str("\nsettle\n")?;
        let stop = Stop {
            server: 0,
            call: self.call,
            way: self.way,
        };
        push_arm(&mut text, alloc, stop)?;
        text.push_str("c1 end\nsettle\n")?;
        self.restarts.push(&mut text, alloc, 0)?;
        text.push_str("settle\n")?;
        Ok(text)
    }

    fn outcome(&self) -> Outcome {
        self.of.outcome(self.call, self.way)
    }

    /// What is wrong with the lines of its schedule.
    fn wrong_in(
        &self,
        alloc: Global,
        events: &[Event],
        lines: &[Line],
    ) -> Result<Option<Wrong>, AllocError> {
        if let Some(broken) = first_broken(alloc, events, lines)? {
            return Ok(Some(Wrong::Broken(broken)));
        }
        if told(lines, ClientNo(1)) != Some(self.outcome()) {
            return Ok(Some(Wrong::Outcome));
        }
        if !self.restarts.has(stops_in(events, lines)) {
            return Ok(Some(Wrong::Stops));
        }
        Ok(None)
    }

    /// What is wrong with its run, and with what the top call writes of it, where that is called too.
    fn wrong(&self, alloc: Global, is_called: bool) -> Result<Option<Wrong>, Fail> {
        let schedule = self.schedule(alloc)?;
        let events = parsed(alloc, schedule.as_bytes())?;
        let lines = lines_of(alloc, SERVERS, &events)?;
        let wrong = self.wrong_in(alloc, &events, &lines)?;
        if wrong.is_some() || !is_called {
            return Ok(wrong);
        }
        wrong_in_call(alloc, WORDS, &schedule, &lines)
    }

    /// Makes the run, unless one was wrong.
    pub(crate) fn add(&self, alloc: Global, tally: &mut Tally) -> Result<(), Fail> {
        if tally.is_over() {
            return Ok(());
        }
        let wrong = self.wrong(alloc, tally.is_called())?;
        tally.count(wrong, self.outcome() != Outcome::Committed);
        Ok(())
    }
}
