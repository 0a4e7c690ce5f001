//! What schedules exercised.

use crate::storm::watching::MapCounts;
use jn_base::{Cause, FaultKind, ServerNo};
use jn_report::{Line, Text, When};
use jn_schedule::Event;

/// How often each thing came about.
#[derive(Clone, Copy)]
pub(crate) struct Counts {
    pub(crate) schedules: u64,
    pub(crate) events: u64,
    pub(crate) refused: u64,
    pub(crate) commits: u64,
    pub(crate) requested: u64,
    pub(crate) broken: u64,
    pub(crate) lost: u64,
    pub(crate) full: u64,
    pub(crate) before: u64,
    pub(crate) torn: u64,
    pub(crate) after: u64,
    pub(crate) mixed: u64,
    pub(crate) restarts_stopped: u64,
    pub(crate) outside: u64,
    pub(crate) locks_broken: u64,
    pub(crate) messages_lost: u64,
    pub(crate) messages_ignored: u64,
    pub(crate) waiting: u64,
    pub(crate) locked: u64,
    pub(crate) maps: MapCounts,
    pub(crate) beginnings: u64,
    pub(crate) with_files: u64,
}

/// Which kinds of stops wait for a server's device calls. Once stops of two kinds waited together, nobody can tell by the lines which of them
/// came first.
#[derive(Clone, Copy)]
struct Waiting {
    before: u32,
    torn: u32,
    after: u32,
}

const NOTHING: Waiting = Waiting {
    before: 0,
    torn: 0,
    after: 0,
};

/// Of the three servers.
#[derive(Drop)]
struct AllWaiting {
    first: Waiting,
    second: Waiting,
    third: Waiting,
}

fn add(count: &mut u64) {
    *count = count.saturating_add(1);
}

impl Waiting {
    fn arm(&mut self, kind: FaultKind) {
        match kind {
            FaultKind::StopBefore => self.before = self.before.saturating_add(1),
            FaultKind::StopTorn => self.torn = self.torn.saturating_add(1),
            FaultKind::StopAfter => self.after = self.after.saturating_add(1),
            _ => {}
        }
    }

    /// One of them came, and is counted by its kind where there is one kind alone.
    fn strike(&mut self, counts: &mut Counts) {
        match (self.before, self.torn, self.after) {
            (_, 0, 0) => {
                self.before = self.before.saturating_sub(1);
                add(&mut counts.before);
            }
            (0, _, 0) => {
                self.torn = self.torn.saturating_sub(1);
                add(&mut counts.torn);
            }
            (0, 0, _) => {
                self.after = self.after.saturating_sub(1);
                add(&mut counts.after);
            }
            _ => add(&mut counts.mixed),
        }
    }
}

impl AllWaiting {
    fn of(&mut self, server: ServerNo) -> &mut Waiting {
        match server.0 {
            0 => &mut self.first,
            1 => &mut self.second,
            _ => &mut self.third,
        }
    }
}

/// Whether a line stands at a restart.
fn is_at_restart(event: Option<&Event>) -> bool {
    matches!(event, Some(Event::Restart(_)))
}

impl Counts {
    pub(crate) fn new() -> Counts {
        Counts {
            schedules: 0,
            events: 0,
            refused: 0,
            commits: 0,
            requested: 0,
            broken: 0,
            lost: 0,
            full: 0,
            before: 0,
            torn: 0,
            after: 0,
            mixed: 0,
            restarts_stopped: 0,
            outside: 0,
            locks_broken: 0,
            messages_lost: 0,
            messages_ignored: 0,
            waiting: 0,
            locked: 0,
            maps: MapCounts::new(),
            beginnings: 0,
            with_files: 0,
        }
    }

    /// Each with its name.
    pub(crate) fn named(&self) -> [(&'static str, u64); 26] {
        [
            ("schedules", self.schedules),
            ("events", self.events),
            ("events refused", self.refused),
            ("commits", self.commits),
            ("aborts that were requested", self.requested),
            ("aborts of broken works", self.broken),
            ("aborts of lost works", self.lost),
            ("aborts for want of room", self.full),
            ("stops before a call", self.before),
            ("stops within a put", self.torn),
            ("stops after a call", self.after),
            ("stops where several kinds waited", self.mixed),
            ("restarts stopped", self.restarts_stopped),
            ("outside faults", self.outside),
            ("locks broken", self.locks_broken),
            ("messages lost", self.messages_lost),
            ("messages ignored", self.messages_ignored),
            ("votes that waited", self.waiting),
            ("units shown locked", self.locked),
            ("fresh map pages", self.maps.fresh),
            ("cuts inside of a map page", self.maps.inside),
            ("cuts at a map page's first block", self.maps.first),
            ("cuts found in part by a restart", self.maps.parts),
            ("restarts that read map pages", self.maps.restarts),
            ("beginnings from version 1", self.beginnings),
            ("beginnings from version 1 with files", self.with_files),
        ]
    }

    fn add_abort(&mut self, cause: Cause) {
        match cause {
            Cause::Requested => add(&mut self.requested),
            Cause::Broken(..) => add(&mut self.broken),
            Cause::Lost(_) => add(&mut self.lost),
            Cause::Full(..) => add(&mut self.full),
        }
    }

    /// Counts a line but for stops.
    fn add_line(&mut self, text: &Text) {
        match text {
            Text::Commit(_) => add(&mut self.commits),
            Text::Aborted(_, _, _, cause) => self.add_abort(*cause),
            Text::Outside(..) => add(&mut self.outside),
            Text::Broke(..) => add(&mut self.locks_broken),
            Text::Lost(_) => add(&mut self.messages_lost),
            Text::Ignored(_) => add(&mut self.messages_ignored),
            Text::Waiting(..) => add(&mut self.waiting),
            Text::Locked(..) => add(&mut self.locked),
            Text::RefusedEvent(_) => add(&mut self.refused),
            _ => {}
        }
    }
}

/// What is counted of a run, and what waits meanwhile.
#[derive(Drop)]
pub(crate) struct Counter {
    pub(crate) counts: Counts,
    waiting: AllWaiting,
}

impl Counter {
    pub(crate) fn new(counts: Counts) -> Counter {
        Counter {
            counts,
            waiting: AllWaiting {
                first: NOTHING,
                second: NOTHING,
                third: NOTHING,
            },
        }
    }

    /// Counts a line that stands at this event.
    fn add_line(&mut self, event: Option<&Event>, text: &Text) {
        self.counts.add_line(text);
        if let Text::Stopped(server) = text {
            if is_at_restart(event) {
                add(&mut self.counts.restarts_stopped);
            }
            let waiting = self.waiting.of(*server);
            waiting.strike(&mut self.counts);
        }
    }

    /// Counts an event, and arms what it arms where no line says that it was refused.
    fn add_event(&mut self, event: &Event, has_lines: bool) {
        add(&mut self.counts.events);
        if let Event::Arm(server, _, kind) = event
            && !has_lines
        {
            self.waiting.of(*server).arm(*kind);
        }
    }

    /// Counts the lines of the event of this number. Whether there are any.
    fn add_lines(&mut self, event: Option<&Event>, number: u32, lines: &[Line]) -> bool {
        let mut has_lines = false;
        for line in lines {
            if stands_at(line.when, number) {
                self.add_line(event, &line.text);
                has_lines = true;
            }
        }
        has_lines
    }

    /// Counts the lines of the end.
    fn add_end(&mut self, lines: &[Line]) {
        for line in lines {
            if let When::End = line.when {
                self.add_line(None, &line.text);
            }
        }
    }

    /// Counts that a run begins from images of version 1.
    pub(crate) fn add_beginning(&mut self, has_files: bool) {
        add(&mut self.counts.beginnings);
        if has_files {
            add(&mut self.counts.with_files);
        }
    }

    /// Counts a run.
    pub(crate) fn add_run(&mut self, events: &[Event], lines: &[Line]) {
        add(&mut self.counts.schedules);
        let _ = self.add_lines(None, 0, lines);
        let mut number = 0_u32;
        for event in events {
            number = number.saturating_add(1);
            let has_lines = self.add_lines(Some(event), number, lines);
            self.add_event(event, has_lines);
        }
        self.add_end(lines);
    }
}

fn stands_at(when: When, number: u32) -> bool {
    match when {
        When::Event(event) => event == number,
        When::End => false,
    }
}
