//! A worker's works: what comes of each message in each state of a work, and what a restart keeps. The transactions are those of
//! server 1, and the client is number 3.

use super::plays::{Play, check_each, check_restart, play_of};
use std::test::Fail;

/// So many records, heads and data pages are enough for all that follows.
const ROOM: (u16, u16, u16) = (9, 3, 4);

/// The work 0.1.0 has made file 7.
const ACTIVE: &str = "\
open 3 1.5.1 | > c3 opened c3 9 1.5.1 0.1.0
do 3 0.1.0 1 create 7 | > c3 answer c3 9 did";

/// It is broken by 0.1.1.
const BROKEN: &str = "\
timeout 1.5.1 |
open 3 1.5.2 | > c3 opened c3 9 1.5.2 0.1.1
do 3 0.1.1 1 create 7 | > c3 answer c3 9 did !broke 1.5.1 7 1.5.2";

/// It is ready.
const READY: &str = "prepare 1.5.1 3 0.1.0 | > s1 vote 1.5.1 0.1.0 ready";

/// It goes.
const GOING: &str = "\
prepare 1.5.1 3 0.1.0 | > s1 vote 1.5.1 0.1.0 ready
commit 1.5.1 0.1.0 |";

/// Of its three puts two are of blocks that no head has room for: each takes a data page for itself and one for its map page.
const FAR: &str = "\
do 3 0.1.0 2 nines 7 119 | > c3 answer c3 9 did
do 3 0.1.0 3 nines 7 120 | > c3 answer c3 9 did
do 3 0.1.0 4 nines 7 2519 | > c3 answer c3 9 did";

/// There are four data pages, and five are needed.
const IF_SHORT: &str = "\
prepare 1.5.1 3 0.1.0 | > s1 vote 1.5.1 0.1.0 full 32 4 5";

/// Each line is for a server of its own. The first are of a work that isn't there, the others of one that is active.
const IF_ACTIVE: &str = "\
do 3 0.0.9 1 create 7 | > c3 answer c3 9 lost 0 1
prepare 1.5.1 3 0.0.9 | > s1 vote 1.5.1 0.0.9 lost 0 1
commit 1.5.1 0.0.9 | > s1 done 1.5.1 0.0.9
drop 1.5.1 0.0.9 | !ignored
do 3 0.1.0 2 create 7 | > c3 answer c3 9 exists
do 3 0.1.0 1 create 7 | > c3 answer c3 9 did
do 3 0.1.0 0 create 7 | !ignored
do 3 0.1.0 3 create 7 | !ignored
prepare 1.5.1 3 0.1.0 | > s1 vote 1.5.1 0.1.0 ready
commit 1.5.1 0.1.0 | !ignored
drop 1.5.1 0.1.0 |
open 3 1.5.1 | > c3 opened c3 9 1.5.1 0.1.0
again | > s1 inquire 1.5.1 0.1.0";

const IF_BROKEN: &str = "\
do 3 0.1.0 9 create 7 | > c3 answer c3 9 broken 7 1.5.2
prepare 1.5.1 3 0.1.0 | > s1 vote 1.5.1 0.1.0 broken 7 1.5.2
commit 1.5.1 0.1.0 | !ignored
drop 1.5.1 0.1.0 |
open 3 1.5.1 | > c3 opened c3 9 1.5.1 0.1.0
again | > s1 inquire 1.5.1 0.1.0 > s1 inquire 1.5.2 0.1.1";

const IF_READY: &str = "\
do 3 0.1.0 9 create 7 | > c3 answer c3 9 closing
prepare 1.5.1 3 0.1.0 | > s1 vote 1.5.1 0.1.0 ready
commit 1.5.1 0.1.0 |
drop 1.5.1 0.1.0 |
open 3 1.5.1 | > c3 opened c3 9 1.5.1 0.1.0
again | > s1 inquire 1.5.1 0.1.0";

const IF_GOING: &str = "\
do 3 0.1.0 1 create 7 | > c3 answer c3 9 closing
prepare 1.5.1 3 0.1.0 | !ignored
commit 1.5.1 0.1.0 | !ignored
drop 1.5.1 0.1.0 | !ignored
open 3 1.5.1 | > c3 opened c3 9 1.5.1 0.1.0
again |";

/// The messages of each state of the work.
fn nth_state(n: u32) -> Option<Play> {
    match n {
        0 => play_of(ROOM, ACTIVE, "", IF_ACTIVE),
        1 => play_of(ROOM, ACTIVE, BROKEN, IF_BROKEN),
        2 => play_of(ROOM, ACTIVE, READY, IF_READY),
        3 => play_of(ROOM, ACTIVE, GOING, IF_GOING),
        4 => play_of(ROOM, ACTIVE, FAR, IF_SHORT),
        _ => None,
    }
}

#[test]
fn each_message_is_done_as_its_work_stands(rt: HostRuntime) -> Result<(), Fail> {
    for n in 0..30 {
        let Some(play) = nth_state(n) else {
            return Ok(());
        };
        check_each(&rt, rt.alloc(), play)?;
    }
    Err("no end".into())
}

/// The work that is opened last is prepared first, and the storage lists it first.
const PREPARED: &str = "\
open 3 1.5.2 | > c3 opened c3 9 1.5.2 0.1.0
open 3 1.5.1 | > c3 opened c3 9 1.5.1 0.1.1
do 3 0.1.1 1 create 7 | > c3 answer c3 9 did
do 3 0.1.1 2 nines 7 3 | > c3 answer c3 9 did
prepare 1.5.1 3 0.1.1 | > s1 vote 1.5.1 0.1.1 ready
commit 1.5.1 0.1.1 |
do 3 0.1.0 1 create 8 | > c3 answer c3 9 did
do 3 0.1.0 2 read 9 0 | > c3 answer c3 9 absent
prepare 1.5.2 3 0.1.0 | > s1 vote 1.5.2 0.1.0 ready";

/// Only the ready work asks for its outcome. What is held for commit is refused to a third work, and what is held for reading
/// holds up its commit, until the work that goes is carried out, and the ready one is dropped.
const RESTORED: &str = "\
show | locked 7 1.5.1 locked 8 1.5.2
again | > s1 inquire 1.5.2 0.1.0
open 3 1.5.1 | > c3 opened c3 9 1.5.1 0.1.1
do 3 0.1.0 1 create 9 | > c3 answer c3 9 closing
prepare 1.5.2 3 0.1.0 | > s1 vote 1.5.2 0.1.0 ready
commit 1.5.1 0.1.1 | !ignored
open 3 1.5.3 | > c3 opened c3 9 1.5.3 0.2.0
do 3 0.2.0 1 create 7 | > c3 answer c3 9 locked 7 1.5.1
do 3 0.2.0 2 read 7 3 | > c3 answer c3 9 locked 7 1.5.1
do 3 0.2.0 3 create 8 | > c3 answer c3 9 locked 8 1.5.2
do 3 0.2.0 4 create 9 | > c3 answer c3 9 did
prepare 1.5.3 3 0.2.0 | > s1 vote 1.5.3 0.2.0 waiting 9 1.5.2
step |
step |
step | > s1 done 1.5.1 0.1.1
show | file 7 page 7/3 nines locked 8 1.5.2
do 3 0.2.0 5 read 7 3 | > c3 answer c3 9 read nines
step |
step |
step | idle unsettled
drop 1.5.2 0.1.0 |
prepare 1.5.3 3 0.2.0 | > s1 vote 1.5.3 0.2.0 ready";

/// Blocks on both sides of the last that a head has room for, and the last of a file: two map pages come with them. Three of the four
/// intentions are carried out before the restart.
const FAR_OFF: &str = "\
open 3 1.5.1 | > c3 opened c3 9 1.5.1 0.1.0
do 3 0.1.0 1 create 7 | > c3 answer c3 9 did
do 3 0.1.0 2 nines 7 119 | > c3 answer c3 9 did
do 3 0.1.0 3 nines 7 120 | > c3 answer c3 9 did
do 3 0.1.0 4 nines 7 2519 | > c3 answer c3 9 did
prepare 1.5.1 3 0.1.0 | > s1 vote 1.5.1 0.1.0 ready
commit 1.5.1 0.1.0 |
step |
step |
step |";

/// All four are carried out again, and the map pages are where they were. A cut inside of a map page's blocks takes the later map page away.
const FAR_AGAIN: &str = "\
step |
step |
step |
step |
step | > s1 done 1.5.1 0.1.0
show | file 7 page 7/119 nines page 7/120 nines page 7/2519 nines
step |
step |
step |
step |
step | idle
open 3 1.5.2 | > c3 opened c3 9 1.5.2 0.2.0
do 3 0.2.0 1 cut 7 121 | > c3 answer c3 9 did
do 3 0.2.0 2 read 7 2519 | > c3 answer c3 9 read zeros
prepare 1.5.2 3 0.2.0 | > s1 vote 1.5.2 0.2.0 ready
commit 1.5.2 0.2.0 |
step |
step | > s1 done 1.5.2 0.2.0
show | file 7 page 7/119 nines page 7/120 nines";

const NOT_PREPARED: &str = "\
open 3 1.5.1 | > c3 opened c3 9 1.5.1 0.1.0
do 3 0.1.0 1 create 7 | > c3 answer c3 9 did";

const LOST: &str = "\
again |
do 3 0.1.0 2 create 8 | > c3 answer c3 9 lost 1 2
prepare 1.5.1 3 0.1.0 | > s1 vote 1.5.1 0.1.0 lost 1 2
open 3 1.5.2 | > c3 opened c3 9 1.5.2 0.2.0
do 3 0.2.0 1 create 7 | > c3 answer c3 9 did";

/// What is done before a restart, and behind it.
fn nth_restart(n: u32) -> Option<Play> {
    match n {
        0 => play_of(ROOM, PREPARED, RESTORED, ""),
        1 => play_of(ROOM, NOT_PREPARED, LOST, ""),
        2 => play_of((9, 3, 8), FAR_OFF, FAR_AGAIN, ""),
        _ => None,
    }
}

#[test]
fn a_restart_keeps_what_was_prepared_and_nothing_else(rt: HostRuntime) -> Result<(), Fail> {
    for n in 0..30 {
        let Some(play) = nth_restart(n) else {
            return Ok(());
        };
        check_restart(&rt, rt.alloc(), play)?;
    }
    Err("no end".into())
}
