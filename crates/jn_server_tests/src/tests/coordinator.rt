//! A coordinator's transactions: what comes of each message in each state of one, how it ends and is forgotten, and what a restart keeps. The client is
//! number 3, and the works are those of other servers, but for 0.3.4, which the transaction doesn't name.

use super::plays::{Play, check, check_each, check_restart, play_of};
use std::test::Fail;

/// Room for as many flags as the first number says.
const ROOM: (u16, u16, u16) = (4, 1, 1);

const ONE_FLAG: (u16, u16, u16) = (1, 1, 1);

const TWO_FLAGS: (u16, u16, u16) = (2, 1, 1);

/// Transaction 0.1.0 of client 3 is open; its Begin was request 5.
const OPEN: &str = "\
begin 3 5 | > c3 begun c3 5 0.1.0";

/// It asks its works, 1.3.4 and 2.3.4, for their votes.
const VOTING: &str = "\
begin 3 5 | > c3 begun c3 5 0.1.0
end 3 0.1.0 2.3.4 1.3.4 | > s2 prepare 0.1.0 2.3.4 c3 > s1 prepare 0.1.0 1.3.4 c3";

/// It has committed.
const COMMITTED: &str = "\
begin 3 5 | > c3 begun c3 5 0.1.0
end 3 0.1.0 2.3.4 1.3.4 | > s2 prepare 0.1.0 2.3.4 c3 > s1 prepare 0.1.0 1.3.4 c3
vote 0.1.0 2.3.4 ready |
vote 0.1.0 1.3.4 ready | > s2 commit 0.1.0 2.3.4 > s1 commit 0.1.0 1.3.4 > c3 outcome c3 0.1.0 committed !commit 0.1.0";

/// It was aborted, and another server has no work of it.
const ABORTED: &str = "\
begin 3 5 | > c3 begun c3 5 0.1.0
end 3 0.1.0 2.3.4 1.3.4 | > s2 prepare 0.1.0 2.3.4 c3 > s1 prepare 0.1.0 1.3.4 c3
abort 3 0.1.0 1.3.4 0.3.4 | > s2 drop 0.1.0 2.3.4 > s1 drop 0.1.0 1.3.4 > s0 drop 0.1.0 0.3.4 > c3 outcome c3 0.1.0 aborted requested";

/// Each line is for a server of its own, at which the transaction is in this state. Of works only those that it named vote, are told and are done.
const IF_UNKNOWN: &str = "\
end 3 0.1.0 2.3.4 1.3.4 | > c3 outcome c3 0.1.0 unknown s0 1 > s2 drop 0.1.0 2.3.4 > s1 drop 0.1.0 1.3.4
end 3 0.1.0 | > c3 outcome c3 0.1.0 unknown s0 1
abort 3 0.1.0 1.3.4 0.3.4 | > c3 outcome c3 0.1.0 unknown s0 1 > s1 drop 0.1.0 1.3.4 > s0 drop 0.1.0 0.3.4
vote 0.1.0 1.3.4 ready | > s1 drop 0.1.0 1.3.4
vote 0.1.0 1.3.4 waiting 4 5.6.7 | > s1 drop 0.1.0 1.3.4
vote 0.1.0 1.3.4 broken 4 5.6.7 | > s1 drop 0.1.0 1.3.4
vote 0.1.0 1.3.4 lost 3 4 | > s1 drop 0.1.0 1.3.4
vote 0.1.0 1.3.4 full 33 2 5 | > s1 drop 0.1.0 1.3.4
vote 0.1.0 0.3.4 lost 3 4 | > s0 drop 0.1.0 0.3.4
inquire 0.1.0 1.3.4 | > s1 drop 0.1.0 1.3.4
inquire 0.1.0 0.3.4 | > s0 drop 0.1.0 0.3.4
done 0.1.0 1.3.4 | !ignored
done 0.1.0 0.3.4 | !ignored
thanks 3 0.1.0 | !ignored
begin 3 4 | > c3 begun c3 4 0.1.0
begin 3 5 | > c3 begun c3 5 0.1.0
begin 3 9 | > c3 begun c3 9 0.1.0
again |";

const IF_OPEN: &str = "\
end 3 0.1.0 2.3.4 1.3.4 | > s2 prepare 0.1.0 2.3.4 c3 > s1 prepare 0.1.0 1.3.4 c3
end 3 0.1.0 | > c3 outcome c3 0.1.0 committed !commit 0.1.0
abort 3 0.1.0 1.3.4 0.3.4 | > s1 drop 0.1.0 1.3.4 > s0 drop 0.1.0 0.3.4 > c3 outcome c3 0.1.0 aborted requested
vote 0.1.0 1.3.4 ready | !ignored
vote 0.1.0 1.3.4 waiting 4 5.6.7 | !ignored
vote 0.1.0 1.3.4 broken 4 5.6.7 | !ignored
vote 0.1.0 1.3.4 lost 3 4 | !ignored
vote 0.1.0 1.3.4 full 33 2 5 | !ignored
vote 0.1.0 0.3.4 lost 3 4 | !ignored
inquire 0.1.0 1.3.4 |
inquire 0.1.0 0.3.4 |
done 0.1.0 1.3.4 | !ignored
done 0.1.0 0.3.4 | !ignored
thanks 3 0.1.0 | !ignored
begin 3 4 | !ignored
begin 3 5 | > c3 begun c3 5 0.1.0
begin 3 9 | > c3 begun c3 9 0.1.1
again |";

const IF_VOTING: &str = "\
end 3 0.1.0 2.3.4 1.3.4 | > s2 prepare 0.1.0 2.3.4 c3 > s1 prepare 0.1.0 1.3.4 c3
end 3 0.1.0 | > s2 prepare 0.1.0 2.3.4 c3 > s1 prepare 0.1.0 1.3.4 c3
abort 3 0.1.0 1.3.4 0.3.4 | > s2 drop 0.1.0 2.3.4 > s1 drop 0.1.0 1.3.4 > s0 drop 0.1.0 0.3.4 > c3 outcome c3 0.1.0 aborted requested
vote 0.1.0 1.3.4 ready |
vote 0.1.0 1.3.4 waiting 4 5.6.7 | > c3 outcome c3 0.1.0 waiting s1 4 5.6.7
vote 0.1.0 1.3.4 broken 4 5.6.7 | > s2 drop 0.1.0 2.3.4 > s1 drop 0.1.0 1.3.4 > c3 outcome c3 0.1.0 aborted broken s1 4 5.6.7
vote 0.1.0 1.3.4 lost 3 4 | > s2 drop 0.1.0 2.3.4 > c3 outcome c3 0.1.0 aborted lost s1
vote 0.1.0 1.3.4 full 33 2 5 | > s2 drop 0.1.0 2.3.4 > s1 drop 0.1.0 1.3.4 > c3 outcome c3 0.1.0 aborted s1 full 33 2 5
vote 0.1.0 0.3.4 lost 3 4 | !ignored
inquire 0.1.0 1.3.4 |
inquire 0.1.0 0.3.4 |
done 0.1.0 1.3.4 | !ignored
done 0.1.0 0.3.4 | !ignored
thanks 3 0.1.0 | !ignored
begin 3 4 | !ignored
begin 3 5 | > c3 begun c3 5 0.1.0
begin 3 9 | > c3 begun c3 9 0.1.1
again |";

const IF_COMMITTED: &str = "\
end 3 0.1.0 2.3.4 1.3.4 | > c3 outcome c3 0.1.0 committed
end 3 0.1.0 | > c3 outcome c3 0.1.0 committed
abort 3 0.1.0 1.3.4 0.3.4 | > c3 outcome c3 0.1.0 committed
vote 0.1.0 1.3.4 ready | > s1 commit 0.1.0 1.3.4
vote 0.1.0 1.3.4 waiting 4 5.6.7 | > s1 commit 0.1.0 1.3.4
vote 0.1.0 1.3.4 broken 4 5.6.7 | > s1 commit 0.1.0 1.3.4
vote 0.1.0 1.3.4 lost 3 4 | > s1 commit 0.1.0 1.3.4
vote 0.1.0 1.3.4 full 33 2 5 | > s1 commit 0.1.0 1.3.4
vote 0.1.0 0.3.4 lost 3 4 | > s0 drop 0.1.0 0.3.4
inquire 0.1.0 1.3.4 | > s1 commit 0.1.0 1.3.4
inquire 0.1.0 0.3.4 | > s0 drop 0.1.0 0.3.4
done 0.1.0 1.3.4 |
done 0.1.0 0.3.4 | !ignored
thanks 3 0.1.0 |
begin 3 4 | !ignored
begin 3 5 | > c3 begun c3 5 0.1.0
begin 3 9 | > c3 begun c3 9 0.1.1
again | > s2 commit 0.1.0 2.3.4 > s1 commit 0.1.0 1.3.4 > c3 outcome c3 0.1.0 committed";

const IF_ABORTED: &str = "\
end 3 0.1.0 2.3.4 1.3.4 | > c3 outcome c3 0.1.0 aborted requested
end 3 0.1.0 | > c3 outcome c3 0.1.0 aborted requested
abort 3 0.1.0 1.3.4 0.3.4 | > c3 outcome c3 0.1.0 aborted requested
vote 0.1.0 1.3.4 ready | > s1 drop 0.1.0 1.3.4
vote 0.1.0 1.3.4 waiting 4 5.6.7 | > s1 drop 0.1.0 1.3.4
vote 0.1.0 1.3.4 broken 4 5.6.7 | > s1 drop 0.1.0 1.3.4
vote 0.1.0 1.3.4 lost 3 4 | > s1 drop 0.1.0 1.3.4
vote 0.1.0 1.3.4 full 33 2 5 | > s1 drop 0.1.0 1.3.4
vote 0.1.0 0.3.4 lost 3 4 | > s0 drop 0.1.0 0.3.4
inquire 0.1.0 1.3.4 | > s1 drop 0.1.0 1.3.4
inquire 0.1.0 0.3.4 | > s0 drop 0.1.0 0.3.4
done 0.1.0 1.3.4 | !ignored
done 0.1.0 0.3.4 | !ignored
thanks 3 0.1.0 |
begin 3 4 | !ignored
begin 3 5 | > c3 begun c3 5 0.1.0
begin 3 9 | > c3 begun c3 9 0.1.1
again | > c3 outcome c3 0.1.0 aborted requested";

/// Its works vote, one after the other.
const BALLOT: &str = "\
vote 0.1.0 2.3.4 ready |
vote 0.1.0 2.3.4 ready |
vote 0.1.0 2.3.4 waiting 4 5.6.7 | !ignored
end 3 0.1.0 2.3.4 1.3.4 | > s1 prepare 0.1.0 1.3.4 c3
vote 0.1.0 1.3.4 ready | > s2 commit 0.1.0 2.3.4 > s1 commit 0.1.0 1.3.4 > c3 outcome c3 0.1.0 committed !commit 0.1.0";

/// A work that was ready can still fail.
const FAILS: &str = "\
vote 0.1.0 1.3.4 ready |
vote 0.1.0 1.3.4 broken 4 5.6.7 | > s2 drop 0.1.0 2.3.4 > s1 drop 0.1.0 1.3.4 > c3 outcome c3 0.1.0 aborted broken s1 4 5.6.7
vote 0.1.0 2.3.4 ready | > s2 drop 0.1.0 2.3.4
thanks 3 0.1.0 |
end 3 0.1.0 2.3.4 1.3.4 | > c3 outcome c3 0.1.0 unknown s0 1 > s2 drop 0.1.0 2.3.4 > s1 drop 0.1.0 1.3.4";

/// What has committed is forgotten, where its client thanks before its last work is done.
const THANKS_FIRST: &str = "\
done 0.1.0 2.3.4 |
done 0.1.0 2.3.4 | !ignored
inquire 0.1.0 2.3.4 | > s2 drop 0.1.0 2.3.4
again | > s1 commit 0.1.0 1.3.4 > c3 outcome c3 0.1.0 committed
thanks 3 0.1.0 |
thanks 3 0.1.0 | !ignored
again | > s1 commit 0.1.0 1.3.4
done 0.1.0 1.3.4 |
end 3 0.1.0 2.3.4 1.3.4 | > c3 outcome c3 0.1.0 unknown s0 1 > s2 drop 0.1.0 2.3.4 > s1 drop 0.1.0 1.3.4";

/// And where it thanks last.
const THANKS_LAST: &str = "\
done 0.1.0 1.3.4 |
done 0.1.0 2.3.4 |
end 3 0.1.0 2.3.4 1.3.4 | > c3 outcome c3 0.1.0 committed
thanks 3 0.1.0 |
end 3 0.1.0 2.3.4 1.3.4 | > c3 outcome c3 0.1.0 unknown s0 1 > s2 drop 0.1.0 2.3.4 > s1 drop 0.1.0 1.3.4";

/// A flag takes the one record. It is promised until the transaction aborts, or until a Begin closes it, and it is the flag's until that is forgotten.
const ONE_RECORD: &str = "\
begin 3 1 | > c3 begun c3 1 0.1.0
end 3 0.1.0 2.3.4 1.3.4 | > s2 prepare 0.1.0 2.3.4 c3 > s1 prepare 0.1.0 1.3.4 c3
begin 4 1 | > c4 begun c4 1 0.1.1
end 3 0.1.1 2.3.4 1.3.4 | > s2 drop 0.1.1 2.3.4 > s1 drop 0.1.1 1.3.4 > c4 outcome c4 0.1.1 aborted s0 full 31 0 1
vote 0.1.0 1.3.4 lost 3 4 | > s2 drop 0.1.0 2.3.4 > c3 outcome c3 0.1.0 aborted lost s1
begin 3 2 | > c3 begun c3 2 0.1.2
end 3 0.1.2 2.3.4 1.3.4 | > s2 prepare 0.1.2 2.3.4 c3 > s1 prepare 0.1.2 1.3.4 c3
begin 3 3 | > c3 begun c3 3 0.1.3
end 3 0.1.3 | > c3 outcome c3 0.1.3 committed !commit 0.1.3
begin 4 2 | > c4 begun c4 2 0.1.4
end 3 0.1.4 | > c4 outcome c4 0.1.4 aborted s0 full 31 0 1
thanks 3 0.1.3 |
begin 4 3 | > c4 begun c4 3 0.1.5
end 3 0.1.5 | > c4 outcome c4 0.1.5 committed !commit 0.1.5";

/// A greater Begin drops the flag of what is done.
const DROPS_FLAG: &str = "\
begin 3 1 | > c3 begun c3 1 0.1.0
end 3 0.1.0 2.3.4 1.3.4 | > s2 prepare 0.1.0 2.3.4 c3 > s1 prepare 0.1.0 1.3.4 c3
vote 0.1.0 2.3.4 ready |
vote 0.1.0 1.3.4 ready | > s2 commit 0.1.0 2.3.4 > s1 commit 0.1.0 1.3.4 > c3 outcome c3 0.1.0 committed !commit 0.1.0
done 0.1.0 1.3.4 |
done 0.1.0 2.3.4 |
begin 4 1 | > c4 begun c4 1 0.1.1
end 3 0.1.1 | > c4 outcome c4 0.1.1 aborted s0 full 31 0 1
begin 3 2 | > c3 begun c3 2 0.1.2
end 3 0.1.0 2.3.4 1.3.4 | > c3 outcome c3 0.1.0 unknown s0 1 > s2 drop 0.1.0 2.3.4 > s1 drop 0.1.0 1.3.4
again | > c4 outcome c4 0.1.1 aborted s0 full 31 0 1
end 3 0.1.2 | > c3 outcome c3 0.1.2 committed !commit 0.1.2";

/// A Begin that was seen changes nothing; a greater one closes the transaction, unless it has committed, and it makes room for the new one.
const BEGINS_IF_OPEN: &str = "\
begin 3 4 | !ignored
begin 3 5 | > c3 begun c3 5 0.1.0
again |
begin 3 5 | > c3 begun c3 5 0.1.0
begin 3 9 | > c3 begun c3 9 0.1.1
begin 3 5 | !ignored
again |
end 3 0.1.0 2.3.4 1.3.4 | > c3 outcome c3 0.1.0 unknown s0 1 > s2 drop 0.1.0 2.3.4 > s1 drop 0.1.0 1.3.4
end 3 0.1.1 | > c3 outcome c3 0.1.1 committed !commit 0.1.1";

/// Every client is closed.
const CLOSED_IF_OPEN: &str = "\
close |
again |
end 3 0.1.0 2.3.4 1.3.4 | > s2 prepare 0.1.0 2.3.4 c3 > s1 prepare 0.1.0 1.3.4 c3";

const BEGINS_IF_VOTING: &str = "\
begin 3 4 | !ignored
begin 3 5 | > c3 begun c3 5 0.1.0
again |
end 3 0.1.0 2.3.4 1.3.4 | > s2 prepare 0.1.0 2.3.4 c3 > s1 prepare 0.1.0 1.3.4 c3
begin 3 9 | > c3 begun c3 9 0.1.1
begin 3 5 | !ignored
again |
end 3 0.1.0 2.3.4 1.3.4 | > c3 outcome c3 0.1.0 unknown s0 1 > s2 drop 0.1.0 2.3.4 > s1 drop 0.1.0 1.3.4
end 3 0.1.1 | > c3 outcome c3 0.1.1 committed !commit 0.1.1";

const CLOSED_IF_VOTING: &str = "\
close |
again |
end 3 0.1.0 2.3.4 1.3.4 | > s2 prepare 0.1.0 2.3.4 c3 > s1 prepare 0.1.0 1.3.4 c3";

const BEGINS_IF_COMMITTED: &str = "\
begin 3 4 | !ignored
begin 3 5 | > c3 begun c3 5 0.1.0
again | > s2 commit 0.1.0 2.3.4 > s1 commit 0.1.0 1.3.4 > c3 outcome c3 0.1.0 committed
end 3 0.1.0 2.3.4 1.3.4 | > c3 outcome c3 0.1.0 committed
begin 3 9 | > c3 begun c3 9 0.1.1
begin 3 5 | !ignored
again | > s2 commit 0.1.0 2.3.4 > s1 commit 0.1.0 1.3.4
end 3 0.1.0 2.3.4 1.3.4 | > c3 outcome c3 0.1.0 committed
end 3 0.1.1 | > c3 outcome c3 0.1.1 committed !commit 0.1.1";

const CLOSED_IF_COMMITTED: &str = "\
close |
again | > s2 commit 0.1.0 2.3.4 > s1 commit 0.1.0 1.3.4
end 3 0.1.0 2.3.4 1.3.4 | > c3 outcome c3 0.1.0 committed";

const BEGINS_IF_ABORTED: &str = "\
begin 3 4 | !ignored
begin 3 5 | > c3 begun c3 5 0.1.0
again | > c3 outcome c3 0.1.0 aborted requested
end 3 0.1.0 2.3.4 1.3.4 | > c3 outcome c3 0.1.0 aborted requested
begin 3 9 | > c3 begun c3 9 0.1.1
begin 3 5 | !ignored
again |
end 3 0.1.0 2.3.4 1.3.4 | > c3 outcome c3 0.1.0 unknown s0 1 > s2 drop 0.1.0 2.3.4 > s1 drop 0.1.0 1.3.4
end 3 0.1.1 | > c3 outcome c3 0.1.1 committed !commit 0.1.1";

const CLOSED_IF_ABORTED: &str = "\
close |
again |
end 3 0.1.0 2.3.4 1.3.4 | > c3 outcome c3 0.1.0 unknown s0 1 > s2 drop 0.1.0 2.3.4 > s1 drop 0.1.0 1.3.4";

/// A Begin stays seen where its transaction has aborted and was thanked for.
const SEEN_AND_THANKED: &str = "\
thanks 3 0.1.0 |
begin 3 5 | !ignored";

/// Every client is closed, where the works of the transaction are done.
const CLOSED_AND_DONE: &str = "\
done 0.1.0 1.3.4 |
done 0.1.0 2.3.4 |
close |
inquire 0.1.0 1.3.4 | > s1 drop 0.1.0 1.3.4
end 3 0.1.0 2.3.4 1.3.4 | > c3 outcome c3 0.1.0 unknown s0 1 > s2 drop 0.1.0 2.3.4 > s1 drop 0.1.0 1.3.4";

/// The transactions 0.1.0 and 0.1.1 of client 3 commit, and their flags take both records.
const FLAGS: &str = "\
begin 3 5 | > c3 begun c3 5 0.1.0
end 3 0.1.0 2.3.4 1.3.4 | > s2 prepare 0.1.0 2.3.4 c3 > s1 prepare 0.1.0 1.3.4 c3
vote 0.1.0 2.3.4 ready |
vote 0.1.0 1.3.4 ready | > s2 commit 0.1.0 2.3.4 > s1 commit 0.1.0 1.3.4 > c3 outcome c3 0.1.0 committed !commit 0.1.0
begin 3 6 | > c3 begun c3 6 0.1.1
end 3 0.1.1 2.3.4 1.3.4 | > s2 prepare 0.1.1 2.3.4 c3 > s1 prepare 0.1.1 1.3.4 c3
vote 0.1.1 1.3.4 ready |
vote 0.1.1 2.3.4 ready | > s2 commit 0.1.1 2.3.4 > s1 commit 0.1.1 1.3.4 > c3 outcome c3 0.1.1 committed !commit 0.1.1";

/// A restart finds them. A greater request counts as thanks.
const FLAGS_FOUND: &str = "\
again | > s2 commit 0.1.0 2.3.4 > s1 commit 0.1.0 1.3.4 > c3 outcome c3 0.1.0 committed > s2 commit 0.1.1 2.3.4 > s1 commit 0.1.1 1.3.4 > c3 outcome c3 0.1.1 committed
begin 3 8 | !ignored
begin 3 7 | !ignored
vote 0.1.0 2.3.4 ready | > s2 commit 0.1.0 2.3.4
done 0.1.0 2.3.4 |
begin 3 10 | > c3 begun c3 10 0.2.0
again | > s1 commit 0.1.0 1.3.4 > s2 commit 0.1.1 2.3.4 > s1 commit 0.1.1 1.3.4
done 0.1.0 1.3.4 |
end 3 0.1.0 2.3.4 1.3.4 | > c3 outcome c3 0.1.0 unknown s0 2 > s2 drop 0.1.0 2.3.4 > s1 drop 0.1.0 1.3.4";

/// Nothing has committed.
const NO_FLAG: &str = "\
begin 3 5 | > c3 begun c3 5 0.1.0
end 3 0.1.0 2.3.4 1.3.4 | > s2 prepare 0.1.0 2.3.4 c3 > s1 prepare 0.1.0 1.3.4 c3
vote 0.1.0 2.3.4 ready |
begin 4 1 | > c4 begun c4 1 0.1.1";

/// A restart finds nothing.
const NOTHING_FOUND: &str = "\
again |
vote 0.1.0 1.3.4 ready | > s1 drop 0.1.0 1.3.4
end 3 0.1.0 2.3.4 1.3.4 | > c3 outcome c3 0.1.0 unknown s0 2 > s2 drop 0.1.0 2.3.4 > s1 drop 0.1.0 1.3.4
end 3 0.1.1 | > c3 outcome c3 0.1.1 unknown s0 2
begin 3 5 | > c3 begun c3 5 0.2.0";

/// A greater Begin closes the one that is done, whose record is free again.
const ONE_DONE: &str = "\
done 0.1.0 2.3.4 |
done 0.1.0 1.3.4 |
begin 4 1 | > c4 begun c4 1 0.2.0
end 3 0.2.0 | > c4 outcome c4 0.2.0 aborted s0 full 31 0 1
begin 3 10 | > c3 begun c3 10 0.2.1
again | > s2 commit 0.1.1 2.3.4 > s1 commit 0.1.1 1.3.4 > c4 outcome c4 0.2.0 aborted s0 full 31 0 1
end 3 0.1.0 2.3.4 1.3.4 | > c3 outcome c3 0.1.0 unknown s0 2 > s2 drop 0.1.0 2.3.4 > s1 drop 0.1.0 1.3.4
end 3 0.1.1 2.3.4 1.3.4 | > c3 outcome c3 0.1.1 committed
end 3 0.2.1 | > c3 outcome c3 0.2.1 committed !commit 0.2.1
begin 5 1 | > c5 begun c5 1 0.2.2
end 3 0.2.2 | > c5 outcome c5 0.2.2 aborted s0 full 31 0 1";

/// And where both are done.
const BOTH_DONE: &str = "\
done 0.1.1 1.3.4 |
done 0.1.1 2.3.4 |
done 0.1.0 2.3.4 |
done 0.1.0 1.3.4 |
begin 4 1 | > c4 begun c4 1 0.2.0
end 3 0.2.0 | > c4 outcome c4 0.2.0 aborted s0 full 31 0 1
begin 3 10 | > c3 begun c3 10 0.2.1
again | > c4 outcome c4 0.2.0 aborted s0 full 31 0 1
end 3 0.1.0 2.3.4 1.3.4 | > c3 outcome c3 0.1.0 unknown s0 2 > s2 drop 0.1.0 2.3.4 > s1 drop 0.1.0 1.3.4
end 3 0.1.1 2.3.4 1.3.4 | > c3 outcome c3 0.1.1 unknown s0 2 > s2 drop 0.1.1 2.3.4 > s1 drop 0.1.1 1.3.4
end 3 0.2.1 | > c3 outcome c3 0.2.1 committed !commit 0.2.1
begin 5 1 | > c5 begun c5 1 0.2.2
end 3 0.2.2 | > c5 outcome c5 0.2.2 committed !commit 0.2.2";

/// Every client is closed after the restart.
const CLOSED_LATER: &str = "\
done 0.1.0 2.3.4 |
done 0.1.0 1.3.4 |
close |
again | > s2 commit 0.1.1 2.3.4 > s1 commit 0.1.1 1.3.4
thanks 3 0.1.1 | !ignored
end 3 0.1.0 2.3.4 1.3.4 | > c3 outcome c3 0.1.0 unknown s0 2 > s2 drop 0.1.0 2.3.4 > s1 drop 0.1.0 1.3.4";

/// The messages of each state of the transaction.
fn nth_state(n: u32) -> Option<Play> {
    match n {
        0 => play_of(ROOM, "", "", IF_UNKNOWN),
        1 => play_of(ROOM, OPEN, "", IF_OPEN),
        2 => play_of(ROOM, VOTING, "", IF_VOTING),
        3 => play_of(ROOM, COMMITTED, "", IF_COMMITTED),
        4 => play_of(ROOM, ABORTED, "", IF_ABORTED),
        _ => None,
    }
}

#[test]
fn each_message_in_each_state(rt: HostRuntime) -> Result<(), Fail> {
    for n in 0..30 {
        let Some(play) = nth_state(n) else {
            return Ok(());
        };
        check_each(&rt, rt.alloc(), play)?;
    }
    Err("no end".into())
}

/// What comes of a transaction.
fn nth_story(n: u32) -> Option<Play> {
    match n {
        0 => play_of(ROOM, VOTING, BALLOT, ""),
        1 => play_of(ROOM, VOTING, FAILS, ""),
        2 => play_of(ROOM, COMMITTED, THANKS_FIRST, ""),
        3 => play_of(ROOM, COMMITTED, THANKS_LAST, ""),
        4 => play_of(ONE_FLAG, ONE_RECORD, "", ""),
        5 => play_of(ONE_FLAG, DROPS_FLAG, "", ""),
        6 => play_of(ROOM, OPEN, BEGINS_IF_OPEN, ""),
        7 => play_of(ROOM, VOTING, BEGINS_IF_VOTING, ""),
        8 => play_of(ROOM, COMMITTED, BEGINS_IF_COMMITTED, ""),
        9 => play_of(ROOM, ABORTED, BEGINS_IF_ABORTED, ""),
        10 => play_of(ROOM, OPEN, CLOSED_IF_OPEN, ""),
        11 => play_of(ROOM, VOTING, CLOSED_IF_VOTING, ""),
        12 => play_of(ROOM, COMMITTED, CLOSED_IF_COMMITTED, ""),
        13 => play_of(ROOM, ABORTED, CLOSED_IF_ABORTED, ""),
        14 => play_of(ROOM, ABORTED, SEEN_AND_THANKED, ""),
        15 => play_of(ROOM, COMMITTED, CLOSED_AND_DONE, ""),
        _ => None,
    }
}

#[test]
fn a_transaction_ends_by_votes_and_is_forgotten(rt: HostRuntime) -> Result<(), Fail> {
    for n in 0..30 {
        let Some(play) = nth_story(n) else {
            return Ok(());
        };
        check(&rt, rt.alloc(), play)?;
    }
    Err("no end".into())
}

/// What is done before a restart, and behind it.
fn nth_restart(n: u32) -> Option<Play> {
    match n {
        0 => play_of(TWO_FLAGS, FLAGS, FLAGS_FOUND, ""),
        1 => play_of(TWO_FLAGS, NO_FLAG, NOTHING_FOUND, ""),
        2 => play_of(TWO_FLAGS, FLAGS, ONE_DONE, ""),
        3 => play_of(TWO_FLAGS, FLAGS, BOTH_DONE, ""),
        4 => play_of(TWO_FLAGS, FLAGS, CLOSED_LATER, ""),
        _ => None,
    }
}

#[test]
fn a_restart_finds_what_committed(rt: HostRuntime) -> Result<(), Fail> {
    for n in 0..30 {
        let Some(play) = nth_restart(n) else {
            return Ok(());
        };
        check_restart(&rt, rt.alloc(), play)?;
    }
    Err("no end".into())
}
