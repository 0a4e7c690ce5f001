//! What a server says of scripts: each message of a worker's and of a coordinator's table, what is prepared, waits or is short of
//! room, and what is shown of blocks that are stored or held.

use super::plays::{Play, check, play_of};
use std::test::Fail;

/// A new server has nothing to do.
const IDLE: &str = "\
again |
show |
close |
timeout 0.1.0 | none
step | idle";

/// Transaction 0.1.0 commits: its work 0.1.1 makes file 7, writes a block of it and cuts another off.
const COMMITS: &str = "\
begin 1 5 | > c1 begun c1 5 0.1.0
begin 1 4 | !ignored
begin 1 5 | > c1 begun c1 5 0.1.0
open 1 0.1.0 | > c1 opened c1 9 0.1.0 0.1.1
open 1 0.1.0 | > c1 opened c1 9 0.1.0 0.1.1
do 1 0.1.1 1 create 7 | > c1 answer c1 9 did
do 1 0.1.1 2 nines 7 5 | > c1 answer c1 9 did
do 1 0.1.1 3 cut 7 4 | > c1 answer c1 9 did
do 1 0.1.1 4 read 7 5 | > c1 answer c1 9 read zeros
do 1 0.1.1 5 nines 7 3 | > c1 answer c1 9 did
do 1 0.1.1 6 read 7 3 | > c1 answer c1 9 read nines
do 1 0.1.1 7 remove 8 | > c1 answer c1 9 absent
do 1 0.1.1 9 create 8 | !ignored
end 1 0.1.0 0.1.1 | > s0 prepare 0.1.0 0.1.1 c1
prepare 0.1.0 1 0.1.1 | > s0 vote 0.1.0 0.1.1 ready
inquire 0.1.0 0.1.1 |
again | > s0 inquire 0.1.0 0.1.1
show | locked 7 0.1.0
vote 0.1.0 0.1.1 ready | > s0 commit 0.1.0 0.1.1 > c1 outcome c1 0.1.0 committed !commit 0.1.0
inquire 0.1.0 0.1.1 | > s0 commit 0.1.0 0.1.1
end 1 0.1.0 0.1.1 | > c1 outcome c1 0.1.0 committed
commit 0.1.0 0.1.1 |
commit 0.1.0 0.1.1 | !ignored
again | > s0 commit 0.1.0 0.1.1 > c1 outcome c1 0.1.0 committed
step |
step |
step | > s0 done 0.1.0 0.1.1
commit 0.1.0 0.1.1 | > s0 done 0.1.0 0.1.1
done 0.1.0 0.1.1 |
done 0.1.0 0.1.1 | !ignored
thanks 1 0.1.0 |
thanks 1 0.1.0 | !ignored
inquire 0.1.0 0.1.1 | > s0 drop 0.1.0 0.1.1
drop 0.1.0 0.1.1 | !ignored
abort 1 0.1.0 0.1.1 | > c1 outcome c1 0.1.0 unknown s0 1 > s0 drop 0.1.0 0.1.1
show | file 7 page 7/3 nines
step |
step |
step | idle
stray 1 | !ignored";

/// Transaction 0.1.0 waits for 0.1.2, breaks its work and is aborted by its client.
const ABORTS: &str = "\
begin 1 1 | > c1 begun c1 1 0.1.0
open 1 0.1.0 | > c1 opened c1 9 0.1.0 0.1.1
do 1 0.1.1 1 create 7 | > c1 answer c1 9 did
begin 2 1 | > c2 begun c2 1 0.1.2
open 2 0.1.2 | > c2 opened c2 9 0.1.2 0.1.3
do 2 0.1.3 1 read 7 0 | > c2 answer c2 9 absent
do 2 0.1.3 2 create 7 | > c2 answer c2 9 locked 7 0.1.0
end 1 0.1.0 0.1.1 | > s0 prepare 0.1.0 0.1.1 c1
prepare 0.1.0 1 0.1.1 | > s0 vote 0.1.0 0.1.1 waiting 7 0.1.2
vote 0.1.0 0.1.1 waiting 7 0.1.2 | > c1 outcome c1 0.1.0 waiting s0 7 0.1.2
timeout 0.1.2 |
end 1 0.1.0 0.1.1 | > s0 prepare 0.1.0 0.1.1 c1
prepare 0.1.0 1 0.1.1 | > s0 vote 0.1.0 0.1.1 ready !broke 0.1.2 7 0.1.0
do 2 0.1.3 3 read 7 0 | > c2 answer c2 9 broken 7 0.1.0
do 1 0.1.1 2 read 7 0 | > c1 answer c1 9 closing
end 2 0.1.2 0.1.3 | > s0 prepare 0.1.2 0.1.3 c2
prepare 0.1.2 2 0.1.3 | > s0 vote 0.1.2 0.1.3 broken 7 0.1.0
vote 0.1.2 0.1.3 broken 7 0.1.0 | > s0 drop 0.1.2 0.1.3 > c2 outcome c2 0.1.2 aborted broken s0 7 0.1.0
drop 0.1.2 0.1.3 |
drop 0.1.2 0.1.3 | !ignored
abort 1 0.1.0 0.1.1 0.1.3 | > s0 drop 0.1.0 0.1.1 > s0 drop 0.1.0 0.1.3 > c1 outcome c1 0.1.0 aborted requested
show | locked 7 0.1.0
drop 0.1.0 0.1.1 |
show |
prepare 0.1.0 1 0.1.1 | > s0 vote 0.1.0 0.1.1 lost 1 1
do 1 0.1.1 2 create 7 | > c1 answer c1 9 lost 1 1
again | > c1 outcome c1 0.1.0 aborted requested > c2 outcome c2 0.1.2 aborted broken s0 7 0.1.0
timeout 0.1.0 | none
close |
again |
step |
step | idle
vote 1.5.3 0.1.1 ready | > s0 drop 1.5.3 0.1.1
prepare 1.5.3 1 0.1.1 | > s1 vote 1.5.3 0.1.1 lost 1 1
scrub |
end 2 0.1.2 | > c2 outcome c2 0.1.2 unknown s0 1";

/// There are two records, one head and one data page. A record is promised to the flag of 0.1.0, and is free again once that
/// transaction is aborted.
const SHORT: &str = "\
begin 1 1 | > c1 begun c1 1 0.1.0
open 1 0.1.0 | > c1 opened c1 9 0.1.0 0.1.1
do 1 0.1.1 1 create 7 | > c1 answer c1 9 did
begin 2 1 | > c2 begun c2 1 0.1.2
end 1 0.1.0 0.1.1 | > s0 prepare 0.1.0 0.1.1 c1
prepare 0.1.0 1 0.1.1 | > s0 vote 0.1.0 0.1.1 full 31 1 2
vote 0.1.0 0.1.1 full 31 1 2 | > s0 drop 0.1.0 0.1.1 > c1 outcome c1 0.1.0 aborted s0 full 31 1 2
end 2 0.1.2 | > c2 outcome c2 0.1.2 committed !commit 0.1.2
drop 0.1.0 0.1.1 |
open 1 1.5.3 | > c1 opened c1 9 1.5.3 0.1.3
prepare 1.5.3 1 0.1.3 | > s1 vote 1.5.3 0.1.3 ready
begin 1 2 | > c1 begun c1 2 0.1.4
end 1 0.1.0 | > c1 outcome c1 0.1.0 unknown s0 1
end 1 0.1.4 | > c1 outcome c1 0.1.4 aborted s0 full 31 0 1
again | > s1 inquire 1.5.3 0.1.3 > c2 outcome c2 0.1.2 committed > c1 outcome c1 0.1.4 aborted s0 full 31 0 1";

/// Of two works that go, that of the least name comes first. The record of the work that is done waits for the other work.
const LEAST_FIRST: &str = "\
open 3 1.5.1 | > c3 opened c3 9 1.5.1 0.1.0
open 3 1.5.2 | > c3 opened c3 9 1.5.2 0.1.1
do 3 0.1.0 1 create 7 | > c3 answer c3 9 did
do 3 0.1.1 1 create 8 | > c3 answer c3 9 did
do 3 0.1.1 2 nines 8 3 | > c3 answer c3 9 did
prepare 1.5.1 3 0.1.0 | > s1 vote 1.5.1 0.1.0 ready
prepare 1.5.2 3 0.1.1 | > s1 vote 1.5.2 0.1.1 ready
commit 1.5.2 0.1.1 |
step |
commit 1.5.1 0.1.0 |
step |
step | > s1 done 1.5.1 0.1.0
step |
step | > s1 done 1.5.2 0.1.1
step |
step |
step |
step | idle";

/// What a dropped work held is free, and what it was to write takes no record.
const DROPPED: &str = "\
open 3 1.5.1 | > c3 opened c3 9 1.5.1 0.1.0
do 3 0.1.0 1 create 7 | > c3 answer c3 9 did
prepare 1.5.1 3 0.1.0 | > s1 vote 1.5.1 0.1.0 ready
open 3 1.5.2 | > c3 opened c3 9 1.5.2 0.1.1
timeout 1.5.1 |
do 3 0.1.1 1 create 7 | > c3 answer c3 9 locked 7 1.5.1
drop 1.5.1 0.1.0 |
do 3 0.1.1 2 create 7 | > c3 answer c3 9 did
drop 1.5.2 0.1.1 |
open 3 1.5.3 | > c3 opened c3 9 1.5.3 0.1.2
do 3 0.1.2 1 create 7 | > c3 answer c3 9 did
prepare 1.5.3 3 0.1.2 | > s1 vote 1.5.3 0.1.2 ready
show | locked 7 1.5.3";

/// The work 0.1.0 needs three records, a head and a data page.
const NEEDS: &str = "\
open 3 1.5.1 | > c3 opened c3 9 1.5.1 0.1.0
do 3 0.1.0 1 create 7 | > c3 answer c3 9 did
do 3 0.1.0 2 nines 7 3 | > c3 answer c3 9 did";

/// It is ready.
const READY: &str = "prepare 1.5.1 3 0.1.0 | > s1 vote 1.5.1 0.1.0 ready";

/// It is carried out, though it is told to give way; then another work reads what it wrote, and the records of its two
/// intentions are erased.
const CARRIED_OUT: &str = "\
timeout 1.5.1 |
commit 1.5.1 0.1.0 |
step |
step |
step | > s1 done 1.5.1 0.1.0
commit 1.5.1 0.1.0 | > s1 done 1.5.1 0.1.0
open 3 1.5.2 | > c3 opened c3 9 1.5.2 0.1.1
do 3 0.1.1 1 read 7 3 | > c3 answer c3 9 read nines
do 3 0.1.1 2 read 7 4 | > c3 answer c3 9 read zeros
do 3 0.1.1 3 create 7 | > c3 answer c3 9 exists
step |
step |
step | idle";

const NO_RECORD: &str = "prepare 1.5.1 3 0.1.0 | > s1 vote 1.5.1 0.1.0 full 31 2 3";

const NO_PAGE: &str = "prepare 1.5.1 3 0.1.0 | > s1 vote 1.5.1 0.1.0 full 32 0 1";

const NO_HEAD: &str = "prepare 1.5.1 3 0.1.0 | > s1 vote 1.5.1 0.1.0 full 33 0 1";

/// Another work reads its file.
const READER: &str = "\
open 3 1.5.2 | > c3 opened c3 9 1.5.2 0.1.1
do 3 0.1.1 1 read 7 0 | > c3 answer c3 9 absent";

/// One that is ready doesn't give way.
const READER_IS_READY: &str = "\
open 3 1.5.2 | > c3 opened c3 9 1.5.2 0.1.1
do 3 0.1.1 1 read 7 0 | > c3 answer c3 9 absent
prepare 1.5.2 3 0.1.1 | > s1 vote 1.5.2 0.1.1 ready
timeout 1.5.2 |";

const WAITS: &str = "prepare 1.5.1 3 0.1.0 | > s1 vote 1.5.1 0.1.0 waiting 7 1.5.2";

/// The works 0.1.0 and 0.1.1 stand in the way of 0.1.2. One that reads what it would write isn't in the way of a third.
const IN_THE_WAY: &str = "\
open 3 1.5.1 | > c3 opened c3 9 1.5.1 0.1.0
open 3 1.5.2 | > c3 opened c3 9 1.5.2 0.1.1
open 3 1.5.3 | > c3 opened c3 9 1.5.3 0.1.2
do 3 0.1.0 1 read 9 0 | > c3 answer c3 9 absent
do 3 0.1.0 2 read 8 0 | > c3 answer c3 9 absent
do 3 0.1.1 1 read 9 0 | > c3 answer c3 9 absent
do 3 0.1.2 1 create 9 | > c3 answer c3 9 did
do 3 0.1.1 2 create 9 | > c3 answer c3 9 locked 9 1.5.3
prepare 1.5.3 3 0.1.2 | > s1 vote 1.5.3 0.1.2 waiting 9 1.5.1
do 3 0.1.2 2 create 8 | > c3 answer c3 9 did
prepare 1.5.3 3 0.1.2 | > s1 vote 1.5.3 0.1.2 waiting 8 1.5.1
timeout 1.5.1 |
prepare 1.5.3 3 0.1.2 | > s1 vote 1.5.3 0.1.2 waiting 9 1.5.2
timeout 1.5.2 |";

/// They break.
const BREAK: &str = "\
prepare 1.5.3 3 0.1.2 | > s1 vote 1.5.3 0.1.2 ready !broke 1.5.1 8 1.5.3 !broke 1.5.2 9 1.5.3
timeout 1.5.1 |
do 3 0.1.0 3 read 8 0 | > c3 answer c3 9 broken 8 1.5.3
do 3 0.1.1 3 read 8 0 | > c3 answer c3 9 broken 9 1.5.3";

/// Without room they don't.
const STAY: &str = "\
prepare 1.5.3 3 0.1.2 | > s1 vote 1.5.3 0.1.2 full 31 2 3
do 3 0.1.0 3 read 8 0 | > c3 answer c3 9 absent
do 3 0.1.1 3 read 8 0 | > c3 answer c3 9 absent";

/// File 7 has its first block and its last one, and file 9 has none.
const APART: &str = "\
open 3 1.5.1 | > c3 opened c3 9 1.5.1 0.1.0
do 3 0.1.0 1 create 9 | > c3 answer c3 9 did
do 3 0.1.0 2 create 7 | > c3 answer c3 9 did
do 3 0.1.0 3 nines 7 119 | > c3 answer c3 9 did
do 3 0.1.0 4 nines 7 0 | > c3 answer c3 9 did
prepare 1.5.1 3 0.1.0 | > s1 vote 1.5.1 0.1.0 ready
show | locked 7 1.5.1 locked 9 1.5.1
commit 1.5.1 0.1.0 |
step |
step |
step |
step |
step | > s1 done 1.5.1 0.1.0
show | file 7 page 7/0 nines page 7/119 nines file 9";

/// Of two blocks that are to be written, one lies between those of file 7, and one is the only one of file 9. They are locked from the
/// preparation on, and stored once the work is carried out.
const BETWEEN: &str = "\
open 3 1.5.2 | > c3 opened c3 9 1.5.2 0.1.1
do 3 0.1.1 1 nines 7 5 | > c3 answer c3 9 did
do 3 0.1.1 2 nines 9 118 | > c3 answer c3 9 did
show | file 7 page 7/0 nines page 7/119 nines file 9
prepare 1.5.2 3 0.1.1 | > s1 vote 1.5.2 0.1.1 ready
show | file 7 page 7/0 nines locked 7/5 1.5.2 page 7/119 nines file 9 locked 9/118 1.5.2
commit 1.5.2 0.1.1 |
step |
step |
step | > s1 done 1.5.2 0.1.1
show | file 7 page 7/0 nines page 7/5 nines page 7/119 nines file 9 page 9/118 nines";

/// The tables' messages; what each preparation needs, what is reported where one kind is short, and what stands in its way; what is shown.
fn nth_play(n: u32) -> Option<Play> {
    match n {
        0 => play_of((8, 2, 4), IDLE, COMMITS, ""),
        1 => play_of((8, 2, 4), ABORTS, "", ""),
        2 => play_of((2, 1, 1), SHORT, "", ""),
        3 => play_of((5, 2, 1), LEAST_FIRST, "", ""),
        4 => play_of((5, 1, 0), DROPPED, "", ""),
        5 => play_of((2, 0, 0), NEEDS, NO_RECORD, ""),
        6 => play_of((3, 0, 0), NEEDS, NO_PAGE, ""),
        7 => play_of((3, 0, 1), NEEDS, NO_HEAD, ""),
        8 => play_of((3, 1, 1), NEEDS, READY, CARRIED_OUT),
        9 => play_of((3, 1, 1), NEEDS, READER, WAITS),
        10 => play_of((0, 0, 0), NEEDS, READER, WAITS),
        11 => play_of((4, 1, 1), NEEDS, READER_IS_READY, WAITS),
        12 => play_of((3, 2, 0), IN_THE_WAY, BREAK, ""),
        13 => play_of((2, 2, 0), IN_THE_WAY, STAY, ""),
        14 => play_of((8, 2, 4), APART, BETWEEN, ""),
        _ => None,
    }
}

#[test]
fn a_server_says_what_each_script_has(rt: HostRuntime) -> Result<(), Fail> {
    for n in 0..30 {
        let Some(play) = nth_play(n) else {
            return Ok(());
        };
        check(&rt, rt.alloc(), play)?;
    }
    Err("no end".into())
}
