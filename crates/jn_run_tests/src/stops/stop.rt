//! Stops at a device call of the commit, and what each leaves by the actors' tables.

/// In which way a device call is stopped.
#[derive(Clone, Copy)]
pub(crate) enum Way {
    Before,
    Torn,
    After,
}

/// A stop at a server's device call, counted from 1.
#[derive(Clone, Copy)]
pub(crate) struct Stop {
    pub(crate) server: u8,
    pub(crate) call: u32,
    pub(crate) way: Way,
}

/// What the client is told at last.
#[derive(Clone, Copy, PartialEq, Eq)]
pub(crate) enum Outcome {
    Committed,
    /// Aborted, since what the server had of the transaction is lost.
    Lost(u8),
    /// Anything else.
    Other,
}

/// Six puts of four calls at server 0, and two at server 1: the half of the page that is put first, that half read back, and the other one in
/// the same way. Server 0 puts the intention's record, the ready record, the going record in its place, the file's head, a free record in
/// place of the going one, and one in place of the intention. Server 1 puts the flag, and a free record in its place.
const CALLS: u32 = 24;

impl Way {
    /// The way of this number, of three at each call.
    pub(crate) fn of(number: u32) -> Way {
        match number % 3 {
            0 => Way::Before,
            1 => Way::Torn,
            _ => Way::After,
        }
    }

    /// Its word in a schedule.
    pub(crate) fn word(self) -> &'static str {
        match self {
            Way::Before => "stop-before",
            Way::Torn => "stop-torn",
            Way::After => "stop-after",
        }
    }
}

impl Stop {
    /// The stop of this number, of 96: three at each call.
    pub(crate) fn of(number: u32) -> Stop {
        let call = number / 3;
        let way = Way::of(number);
        if call < CALLS {
            Stop {
                server: 0,
                call: call.wrapping_add(1),
                way,
            }
        } else {
            Stop {
                server: 1,
                call: (call - CALLS).wrapping_add(1),
                way,
            }
        }
    }

    /// What the client is told of the commit. A torn page that is made good before the restart has what was to be put there.
    pub(crate) fn outcome(self, is_revived: bool) -> Outcome {
        match (self.server, self.call, self.way) {
            (0, 1 | 2 | 3 | 4 | 5, Way::Before) => Outcome::Lost(0),
            (0, 1 | 2 | 3 | 4, _) => Outcome::Lost(0),
            (0, 5, Way::Torn) if !is_revived => Outcome::Lost(0),
            (1, 1, Way::Before) => Outcome::Lost(1),
            (1, 1, Way::Torn) if !is_revived => Outcome::Lost(1),
            _ => Outcome::Committed,
        }
    }
}

/// The calls of a restart of the server behind a stop before a call of the commit: the pairs of the root, of 4 records and of 2 heads are read,
/// then each of these pages once, and the root is put. Where the halves of a page differ, one is put and read back. An intention's record that no ready or going record
/// names is erased: it is there from its first half on, until the ready record's first half, and again from that of the free record on, until its own
/// erasure's first half.
pub(crate) fn restart_calls(stop: Stop) -> u32 {
    match (stop.server, stop.call) {
        (0, 2 | 3 | 18 | 19) => 31,
        (0, 4 | 5 | 20 | 21) => 29,
        (0, 6 | 7 | 10 | 11 | 14 | 15 | 22 | 23) => 27,
        (1, 2 | 3 | 6 | 7) => 27,
        _ => 25,
    }
}
