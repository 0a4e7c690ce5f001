//! Schedules of two servers, with their reports as the actors' tables give them.

use std::alloc::{AllocError, Global};

/// The coordinator, server 1, stops when its commit flag is written in one half alone. Its restart finds the flag.
pub(crate) const STOPPED_IN_FLAG: (&str, &str) = (
    "c1 begin 1\nsettle\nc1 open 0\nsettle\nc1 create 0 7\nsettle\narm 1 3 stop-before\nc1 end\nsettle\nrestart 1\nsettle\n",
    "0: up s0 epoch 1\n0: up s1 epoch 1\n2: c1 begun 1 1.1.0\n4: c1 opened 3 s0\n6: c1 did 5\n9: stopped s1\n9: lost 11\n9: lost 12\n10: up s1 epoch 2\n10: commit 1.1.0\n11: c1 committed 8 1.1.0\n11: ignored 18\n11: ignored 20\nend: down s0\nend: down s1\nend: up s0 epoch 2\nend: up s1 epoch 3\nend: s0 file 7\nend: commits 1\n",
);

/// The same report with a line for each message.
pub(crate) const CHART: &str =
    "0: up s0 epoch 1\n0: up s1 epoch 1\n1: msg 0 c1>s1 begin\n2: msg 1 s1>c1 begun\n2: c1 begun 1 1.1.0\n3: msg 2 c1>s0 open\n4: msg 3 s0>c1 opened\n4: c1 opened 3 s0\n4: msg 4 s0>s1 inquire\n5: msg 5 c1>s0 op\n6: msg 6 s0>c1 answer\n6: c1 did 5\n6: msg 7 s0>s1 inquire\n8: msg 8 c1>s1 end\n9: msg 9 s1>s0 prepare\n9: msg 10 s0>s1 vote\n9: stopped s1\n9: msg 11 c1>s1 end\n9: msg 12 s0>s1 inquire\n9: lost 11\n9: lost 12\n10: up s1 epoch 2\n10: commit 1.1.0\n11: msg 13 c1>s1 end\n11: msg 14 s0>s1 inquire\n11: msg 15 s1>s0 commit\n11: msg 16 s1>c1 outcome\n11: msg 17 s1>c1 outcome\n11: msg 18 s1>s0 commit\n11: c1 committed 8 1.1.0\n11: msg 19 c1>s1 thanks\n11: msg 20 c1>s1 thanks\n11: ignored 18\n11: ignored 20\n11: msg 21 s0>s1 done\nend: down s0\nend: down s1\nend: up s0 epoch 2\nend: up s1 epoch 3\nend: s0 file 7\nend: commits 1\n";

fn push_deliver(text: &mut String, alloc: Global, number: u32) -> Result<(), AllocError> {
    let line = format!(in alloc; "deliver {number}\n")?;
    text.push_str(&line)
}

/// The messages from one number up to another are handed over.
fn push_delivers(
    text: &mut String,
    alloc: Global,
    first: u32,
    past: u32,
) -> Result<(), AllocError> {
    for number in first..past {
        push_deliver(text, alloc, number)?;
    }
    Ok(())
}

/// Three messages from a number on are handed over in this order.
fn push_three(
    text: &mut String,
    alloc: Global,
    first: u32,
    order: &[u32; 3],
) -> Result<(), AllocError> {
    for place in order {
        push_deliver(text, alloc, first.saturating_add(*place))?;
    }
    Ok(())
}

/// Commands, and the number of the first message that isn't handed over behind them. Each of two transactions creates a file that
/// the other found missing, so both wait, until the first one is aborted. Each message is handed over once, by its number; the
/// last three are the client's thanks and what the servers have done.
const CROSSED: [(&str, u32); 9] = [
    ("c1 begin 0\nc2 begin 0\n", 4),
    ("c1 open 0\nc2 open 0\n", 8),
    ("c1 open 1\nc2 open 1\n", 12),
    ("c1 read 0 7 0\nc2 read 1 8 0\n", 16),
    ("c1 create 1 8\nc2 create 0 7\n", 20),
    ("c1 end\nc2 end\n", 32),
    ("c1 abort\n", 37),
    ("c2 again\n", 43),
    ("step 0\nstep 0\nstep 1\n", 43),
];

/// The schedule of these, with its last three messages in this order.
pub(crate) fn delivered(alloc: Global, order: &[u32; 3]) -> Result<String, AllocError> {
    let mut text = String::new(alloc);
    let mut first = 0;
    for (commands, past) in &CROSSED {
        text.push_str(commands)?;
        push_delivers(&mut text, alloc, first, *past)?;
        first = *past;
    }
    push_three(&mut text, alloc, first, order)?;
    Ok(text)
}

/// Its report, in whichever order.
pub(crate) const DELIVERED: &str =
    "0: up s0 epoch 1\n0: up s1 epoch 1\n5: c1 begun 1 0.1.0\n6: c2 begun 2 0.1.1\n11: c1 opened 7 s0\n12: c2 opened 8 s0\n17: c1 opened 13 s1\n18: c2 opened 14 s1\n23: c1 refused 19 11\n24: c2 refused 20 11\n29: c1 did 25\n30: c2 did 26\n43: c1 waiting 31 s1 8 by 0.1.1\n44: c2 waiting 32 s0 7 by 0.1.0\n49: c1 aborted 45 0.1.0 requested\n54: commit 0.1.1\n57: c2 committed 32 0.1.1\nend: down s0\nend: down s1\nend: up s0 epoch 2\nend: up s1 epoch 2\nend: s0 file 7\nend: commits 1\n";

/// The same transactions where all settles, of which messages 0 to 73 are sent; then each is handed over again, the last three
/// in this order.
pub(crate) fn crossed_again(alloc: Global, order: &[u32; 3]) -> Result<String, AllocError> {
    let mut text = String::from_str(alloc, CROSSED_SETTLED)?;
    push_delivers(&mut text, alloc, 0, 71)?;
    push_three(&mut text, alloc, 71, order)?;
    Ok(text)
}

const CROSSED_SETTLED: &str =
    "c1 begin 0\nc2 begin 0\nsettle\nc1 open 0\nc2 open 0\nsettle\nc1 open 1\nc2 open 1\nsettle\nc1 read 0 7 0\nc2 read 1 8 0\nsettle\nc1 create 1 8\nc2 create 0 7\nsettle\nc1 end\nc2 end\nsettle\nc1 abort\nsettle\n";

/// Its report: nothing that was done is done again.
pub(crate) fn crossed_report(alloc: Global, order: &[u32; 3]) -> Result<String, AllocError> {
    let mut text = String::from_str(alloc, CROSSED_FRONT)?;
    let [first, second, third] = order;
    push_ignored(&mut text, alloc, 92, *first)?;
    push_ignored(&mut text, alloc, 93, *second)?;
    push_ignored(&mut text, alloc, 94, *third)?;
    text.push_str(CROSSED_END)?;
    Ok(text)
}

/// One of the last three messages, by its place among them, comes too late.
fn push_ignored(
    text: &mut String,
    alloc: Global,
    event: u32,
    place: u32,
) -> Result<(), AllocError> {
    let number = place.saturating_add(71);
    let line = format!(in alloc; "{event}: ignored {number}\n")?;
    text.push_str(&line)
}

const CROSSED_FRONT: &str =
    "0: up s0 epoch 1\n0: up s1 epoch 1\n3: c1 begun 1 0.1.0\n3: c2 begun 2 0.1.1\n6: c1 opened 4 s0\n6: c2 opened 5 s0\n9: c1 opened 7 s1\n9: c2 opened 8 s1\n12: c1 refused 10 11\n12: c2 refused 11 11\n15: c1 did 13\n15: c2 did 14\n18: c1 waiting 16 s1 8 by 0.1.1\n18: c2 waiting 17 s0 7 by 0.1.0\n18: c1 waiting 16 s1 8 by 0.1.1\n18: c2 waiting 17 s0 7 by 0.1.0\n20: c1 aborted 19 0.1.0 requested\n20: commit 0.1.1\n20: c2 committed 17 0.1.1\n21: ignored 0\n22: ignored 1\n23: ignored 2\n24: ignored 3\n27: ignored 6\n28: ignored 7\n33: ignored 12\n34: ignored 13\n41: ignored 20\n42: ignored 21\n49: ignored 28\n50: ignored 29\n65: ignored 44\n66: ignored 45\n77: ignored 56\n78: ignored 57\n80: ignored 59\n81: ignored 60\n83: ignored 62\n";

const CROSSED_END: &str =
    "end: down s0\nend: down s1\nend: up s0 epoch 2\nend: up s1 epoch 2\nend: s0 file 7\nend: commits 1\n";

/// A worker stops at a call of its preparation, and its restart finds the work ready. Of this messages 0 to 19 are sent.
const STOPPED_WORKER: &str =
    "c1 begin 1\nsettle\nc1 open 0\nsettle\nc1 create 0 7\nsettle\narm 0 7 stop-before\nc1 end\nsettle\nrestart 0\nsettle\n";

/// Then each message is handed over again, and once more, backwards, after a restart of each server.
pub(crate) fn again(alloc: Global) -> Result<String, AllocError> {
    let mut text = String::from_str(alloc, STOPPED_WORKER)?;
    push_delivers(&mut text, alloc, 0, 20)?;
    text.push_str("crash 0\nrestart 0\ncrash 1\nrestart 1\n")?;
    for before in 0..20 {
        push_deliver(&mut text, alloc, 19 - before)?;
    }
    Ok(text)
}

/// Its report: nothing that was done is done again. An old opening makes a work that no one names, and after the restart the old
/// beginning a transaction that no client hears of.
pub(crate) const AGAIN: &str =
    "0: up s0 epoch 1\n0: up s1 epoch 1\n2: c1 begun 1 1.1.0\n4: c1 opened 3 s0\n6: c1 did 5\n9: stopped s0\n9: lost 11\n10: up s0 epoch 2\n11: commit 1.1.0\n11: c1 committed 8 1.1.0\n12: ignored 0\n13: ignored 1\n15: ignored 3\n18: ignored 6\n30: ignored 18\n31: ignored 19\n32: down s0\n33: up s0 epoch 3\n34: down s1\n35: up s1 epoch 2\n36: ignored 19\n37: ignored 18\n49: ignored 6\n52: ignored 3\n54: ignored 1\nend: down s0\nend: down s1\nend: up s0 epoch 4\nend: up s1 epoch 3\nend: s0 file 7\nend: commits 1\n";
