//! Runs of the commit with a stop, held against the definitions of a report, the client's outcome, and what the top call writes.

use crate::stops::stop::{Outcome, Stop, Way};
use crate::{
    Call, Definition, Failing, Servers, ending_of, first_broken, lines_of, parsed, text_of,
};
use jn_base::{Cause, ClientNo};
use jn_intent::PageCounts;
use jn_report::{Line, Text, When, is_stopped};
use jn_run::Status;
use jn_schedule::Event;
use std::alloc::{AllocError, Global};
use std::test::Fail;

/// Two servers of 11 pages each.
const SERVERS: Servers = Servers {
    count: 2,
    pages: PageCounts {
        pool: 4,
        heads: 2,
        leaves: 4,
    },
    trace: false,
};

/// The words that ask for them.
const WORDS: &[&str] = &[
    "juniper",
    "run",
    "--servers",
    "2",
    "--pool",
    "4",
    "--heads",
    "2",
    "--data",
    "4",
];

/// How a server that was stopped comes up again.
#[derive(Clone, Copy)]
pub(crate) enum Restarts {
    /// It isn't stopped.
    None,
    One,
    /// The first restart is stopped at this call of it, and one more follows.
    Stopped(u32, Way),
    /// A stop waits for a call that the restart doesn't make.
    Missed(u32, Way),
}

impl Restarts {
    /// The events by which a server comes up again.
    pub(crate) fn push(
        self,
        text: &mut String,
        alloc: Global,
        server: u8,
    ) -> Result<(), AllocError> {
        if let Restarts::Stopped(call, way) | Restarts::Missed(call, way) = self {
            push_arm(text, alloc, Stop { server, call, way })?;
            push_at(text, alloc, "restart", server)?;
        }
        if let Restarts::Missed(..) = self {
            text.push_str("settle\n")?;
        }
        push_at(text, alloc, "restart", server)
    }

    /// Whether so many stops are as many as they should be.
    pub(crate) fn has(self, stops: Stops) -> bool {
        match self {
            Restarts::None => stops.elsewhere == 0 && stops.in_restarts == 0,
            Restarts::One => stops.elsewhere == 1 && stops.in_restarts == 0,
            Restarts::Stopped(..) => stops.elsewhere == 1 && stops.in_restarts == 1,
            Restarts::Missed(..) => stops.elsewhere >= 1 && stops.in_restarts == 0,
        }
    }
}

/// A run of the commit.
#[derive(Clone, Copy)]
pub(crate) struct Trial {
    pub(crate) stop: Stop,
    /// Whether each page of the server is good again before its restart.
    pub(crate) is_revived: bool,
    pub(crate) restarts: Restarts,
}

/// What is wrong with a run.
#[derive(Clone, Copy)]
pub(crate) enum Wrong {
    Broken(Definition),
    Outcome,
    Stops,
    Text,
}

/// Runs until one was wrong.
#[derive(Clone, Copy)]
pub(crate) struct Tally {
    right: u32,
    /// Those whose transaction was lost.
    lost: u32,
    wrong: Option<Wrong>,
}

/// A fault waits for a server's device call.
pub(crate) fn push_arm(text: &mut String, alloc: Global, stop: Stop) -> Result<(), AllocError> {
    let Stop { server, call, way } = stop;
    let word = way.word();
    let line = format!(in alloc; "arm {server} {call} {word}\n")?;
    text.push_str(&line)
}

/// An event at a server.
fn push_at(text: &mut String, alloc: Global, word: &str, server: u8) -> Result<(), AllocError> {
    let line = format!(in alloc; "{word} {server}\n")?;
    text.push_str(&line)
}

/// Each of a server's 22 physical pages is good again.
fn push_revivals(text: &mut String, alloc: Global, server: u8) -> Result<(), AllocError> {
    for page in 0..22_u32 {
        let line = format!(in alloc; "revive {server} {page}\n")?;
        text.push_str(&line)?;
    }
    Ok(())
}

impl Trial {
    /// Its schedule.
    pub(crate) fn schedule(&self, alloc: Global) -> Result<String, AllocError> {
        let server = self.stop.server;
        let mut text = String::from_str(
            alloc,
            "c1 begin 1\nsettle\nc1 open 0\nsettle\nc1 create 0 7\nsettle\n",
        )?;
        push_arm(&mut text, alloc, self.stop)?;
        text.push_str("c1 end\nsettle\n")?;
        if self.is_revived {
            push_revivals(&mut text, alloc, server)?;
        }
        self.restarts.push(&mut text, alloc, server)?;
        text.push_str("settle\n")?;
        Ok(text)
    }

    /// What is wrong with the lines of its schedule.
    fn wrong_in(
        &self,
        alloc: Global,
        events: &[Event],
        lines: &[Line],
    ) -> Result<Option<Wrong>, AllocError> {
        if let Some(broken) = first_broken(alloc, events, lines)? {
            return Ok(Some(Wrong::Broken(broken)));
        }
        if told(lines, ClientNo(1)) != Some(self.stop.outcome(self.is_revived)) {
            return Ok(Some(Wrong::Outcome));
        }
        if !self.restarts.has(stops_in(events, lines)) {
            return Ok(Some(Wrong::Stops));
        }
        Ok(None)
    }

    /// What is wrong with its run, and with what the top call writes of it, where that is called too.
    fn wrong(&self, alloc: Global, is_called: bool) -> Result<Option<Wrong>, Fail> {
        let schedule = self.schedule(alloc)?;
        let events = parsed(alloc, schedule.as_bytes())?;
        let lines = lines_of(alloc, SERVERS, &events)?;
        let wrong = self.wrong_in(alloc, &events, &lines)?;
        if wrong.is_some() || !is_called {
            return Ok(wrong);
        }
        wrong_in_call(alloc, WORDS, &schedule, &lines)
    }
}

/// What is wrong with what the top call writes, where these are the lines.
pub(crate) fn wrong_in_call(
    alloc: Global,
    words: &[&str],
    schedule: &str,
    lines: &[Line],
) -> Result<Option<Wrong>, Fail> {
    let asked = Call {
        words,
        schedule: schedule.as_bytes(),
        failing: Failing::Nothing,
    };
    let (status, taken) = ending_of(alloc, &asked, None)?;
    if status != Status::Done || taken != text_of(alloc, lines)? {
        return Ok(Some(Wrong::Text));
    }
    Ok(None)
}

/// What a line reports to a client of its transaction's end, where it does.
fn told_by(text: &Text, client: ClientNo) -> Option<Outcome> {
    match text {
        Text::Committed(to, ..) if *to == client => Some(Outcome::Committed),
        Text::Aborted(to, _, _, Cause::Lost(server)) if *to == client => {
            Some(Outcome::Lost(server.0))
        }
        Text::Aborted(to, ..) if *to == client => Some(Outcome::Other),
        _ => None,
    }
}

/// What a client is told at last, where it is told once.
pub(crate) fn told(lines: &[Line], client: ClientNo) -> Option<Outcome> {
    let mut told = None;
    for line in lines {
        if let Some(outcome) = told_by(&line.text, client) {
            if told.is_some() {
                return Some(Outcome::Other);
            }
            told = Some(outcome);
        }
    }
    told
}

/// How often a server was stopped.
#[derive(Clone, Copy)]
pub(crate) struct Stops {
    in_restarts: u32,
    elsewhere: u32,
}

/// Whether a line stands at a restart.
fn is_at_restart(events: &[Event], when: When) -> bool {
    match when {
        When::Event(number) => matches!(
            events.get((number as usize).wrapping_sub(1)),
            Some(Event::Restart(_))
        ),
        When::End => false,
    }
}

pub(crate) fn stops_in(events: &[Event], lines: &[Line]) -> Stops {
    let mut stops = Stops {
        in_restarts: 0,
        elsewhere: 0,
    };
    for line in lines {
        if is_stopped(&line.text) {
            if is_at_restart(events, line.when) {
                stops.in_restarts = stops.in_restarts.saturating_add(1);
            } else {
                stops.elsewhere = stops.elsewhere.saturating_add(1);
            }
        }
    }
    stops
}

impl Wrong {
    fn word(self) -> &'static str {
        match self {
            Wrong::Broken(Definition::Agrees) => "agrees",
            Wrong::Broken(Definition::Told) => "told",
            Wrong::Broken(Definition::Shown) => "shown",
            Wrong::Broken(Definition::Caused) => "caused",
            Wrong::Broken(Definition::Follows) => "follows",
            Wrong::Outcome => "outcome",
            Wrong::Stops => "stops",
            Wrong::Text => "text",
        }
    }
}

impl Tally {
    /// How many runs were right, how many of them lost their transaction, and what is wrong with the next one.
    pub(crate) fn verdict(&self) -> (u32, u32, &'static str) {
        let word = match self.wrong {
            Some(wrong) => wrong.word(),
            None => "nothing",
        };
        (self.right, self.lost, word)
    }

    pub(crate) fn new() -> Tally {
        Tally {
            right: 0,
            lost: 0,
            wrong: None,
        }
    }

    /// Whether the next run is made by the top call too: each tenth is.
    pub(crate) fn is_called(&self) -> bool {
        self.right % 10 == 0
    }

    /// Whether one was wrong.
    pub(crate) fn is_over(&self) -> bool {
        self.wrong.is_some()
    }

    /// Counts a run.
    pub(crate) fn count(&mut self, wrong: Option<Wrong>, is_lost: bool) {
        if wrong.is_some() {
            self.wrong = wrong;
            return;
        }
        self.right = self.right.saturating_add(1);
        if is_lost {
            self.lost = self.lost.saturating_add(1);
        }
    }

    /// Makes a run.
    pub(crate) fn add(&mut self, alloc: Global, trial: &Trial) -> Result<(), Fail> {
        if self.is_over() {
            return Ok(());
        }
        let wrong = trial.wrong(alloc, self.is_called())?;
        let outcome = trial.stop.outcome(trial.is_revived);
        self.count(wrong, outcome != Outcome::Committed);
        Ok(())
    }
}
