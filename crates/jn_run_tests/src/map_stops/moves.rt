//! Four commits of one file with map pages: what each puts, and what a stop and the restart behind it find of that. File 7 has a block in its head, two in
//! map page 0 and one in map page 1. The server has 12 records, 2 heads and 12 data pages.

use crate::stops::stop::{Outcome, Way};

/// A commit of one operation. Each page that it puts takes four calls: the half that is put first, that half read back, and the other one in the same way.
/// It puts the record of its intention, before it the block that is written, the ready record, the flag and the going record. Then it carries the
/// operation out, by a map page, a head, or a map page and then the head. At last it puts a free record in place of the going one, of the flag, and of
/// the intention.
#[derive(Clone, Copy)]
pub(crate) struct Move {
    /// The operation, as a command of a client.
    pub(crate) operation: &'static str,
    /// The first call of the put of its intention's record.
    record: u32,
    /// That of the last put which carries the operation out.
    last: u32,
    /// How many map pages the head names once that page's first half is put.
    maps: u32,
}

/// The move of this number, of 4.
pub(crate) fn move_of(number: u32) -> Move {
    match number {
        // The block of map page 0 goes that stands behind the cut, and map page 1.
        0 => Move {
            operation: "c1 cut 0 7 150",
            record: 1,
            last: 21,
            maps: 1,
        },
        // Its map page is there.
        1 => Move {
            operation: "c1 write 0 7 120 65",
            record: 5,
            last: 21,
            maps: 2,
        },
        // It brings map page 2.
        2 => Move {
            operation: "c1 write 0 7 360 65",
            record: 5,
            last: 25,
            maps: 3,
        },
        // Map page 1 goes, and map page 0 stays as it is.
        _ => Move {
            operation: "c1 cut 0 7 240",
            record: 1,
            last: 17,
            maps: 1,
        },
    }
}

impl Move {
    /// How many device calls it makes.
    pub(crate) fn calls(self) -> u32 {
        self.last.saturating_add(15)
    }

    /// What the client is told where it is stopped at a call: the flag decides, whose first half is put two pages behind the intention's record.
    pub(crate) fn outcome(self, call: u32, way: Way) -> Outcome {
        let flag = self.record.saturating_add(8);
        if call > flag || (call == flag && matches!(way, Way::After)) {
            Outcome::Committed
        } else {
            Outcome::Lost(0)
        }
    }

    /// Whether a stop before a call leaves two halves of a page that a restart looks at. It looks at no data page that isn't named as a map page: at no
    /// block, and at no map page that is put before the head which names it.
    fn leaves_halves(self, call: u32) -> bool {
        let is_within = call % 4 == 2 || call % 4 == 3;
        let is_block = call < self.record;
        let is_fresh = self.maps == 3 && call < self.last && call > self.last.saturating_sub(4);
        is_within && !is_block && !is_fresh
    }

    /// Whether a stop before a call leaves a record of an intention which no ready or going record names: it is there from its first half on until the
    /// ready record's is, and again from that of the free record in place of the going one on until its own is.
    fn leaves_rubbish(self, call: u32) -> bool {
        let unready = self.record;
        let free = self.last.saturating_add(4);
        (call > unready && call <= unready.saturating_add(4))
            || (call > free && call <= free.saturating_add(8))
    }

    /// How many calls a restart makes behind a stop before a call: the pairs of the root, of 12 records, of 2 heads and of the map pages are read, then
    /// each of these pages once, and the root is put by 4. A page is put in place of rubbish, and a half in place of one that differs.
    pub(crate) fn restart_calls(self, call: u32) -> u32 {
        let maps = if call > self.last { self.maps } else { 2 };
        let mut calls = maps.saturating_mul(3).saturating_add(49);
        if self.leaves_rubbish(call) {
            calls = calls.saturating_add(4);
        }
        if self.leaves_halves(call) {
            calls = calls.saturating_add(2);
        }
        calls
    }
}
