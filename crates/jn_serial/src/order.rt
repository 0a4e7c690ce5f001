//! The order of commits: the files after it, and whether a report's answers are that order's.

ghost use Rattle.std.specs.Prelude.{◌↔◌, IfOk, IsTrue};
ghost use Rattle.jn_replay.specs.Stored.{files_of, AreSame};
ghost use Rattle.jn_serial.specs.Order as order;

use crate::done::done_of;
use crate::lines::history;
use crate::transactions::operations_of;
use jn_base::Tid;
use jn_replay::{Files, do_all, do_wishes, gives_answers, gives_replies};
use jn_report::Line;
use jn_schedule::Event;
use std::alloc::{AllocError, Global};

/// The files after what these transactions did, operation by operation, one after another.
pub fn replay_operations(
    alloc: Global,
    files: &Files,
    events: &[Event],
    lines: &[Line],
    list: &[Tid],
) -> Result<Files, AllocError>
    ensures { IfOk result (λ fs. AreSame (files_of fs)
        (order.replay_operations (files_of files.now) events.now lines.now list.now)) }
{
    let mut after = files.copy(alloc)?;
    for t in list {
        let ops = operations_of(alloc, events, lines, *t)?;
        do_all(alloc, &mut after, &ops)?;
    }
    Ok(after)
}

/// Whether each answer from the files to an operation of a transaction that the report names as committed is what
/// the commits give, run one after another in the report's order on these files.
pub fn operations_agree(
    alloc: Global,
    files: &Files,
    events: &[Event],
    lines: &[Line],
) -> Result<bool, AllocError>
    ensures { IfOk result (λ b. IsTrue b ↔ order.OperationsAgree (files_of files.now) events.now lines.now) }
{
    let list = history(alloc, lines)?;
    let mut after = files.copy(alloc)?;
    for t in &list {
        let ops = operations_of(alloc, events, lines, *t)?;
        if !gives_answers(alloc, &mut after, &ops)? {
            return Ok(false);
        }
    }
    Ok(true)
}

/// The files after these transactions, one after another.
pub fn replay(
    alloc: Global,
    files: &Files,
    events: &[Event],
    lines: &[Line],
    list: &[Tid],
) -> Result<Files, AllocError>
    ensures { IfOk result (λ fs. AreSame (files_of fs)
        (order.replay (files_of files.now) events.now lines.now list.now)) }
{
    let mut after = files.copy(alloc)?;
    for t in list {
        let done = done_of(alloc, events, lines, *t)?;
        do_wishes(alloc, &mut after, &done)?;
    }
    Ok(after)
}

/// Whether each reply from the files to a transaction that the report names as committed is what
/// the commits give, run one after another in the report's order on these files.
pub fn agrees(
    alloc: Global,
    files: &Files,
    events: &[Event],
    lines: &[Line],
) -> Result<bool, AllocError>
    ensures { IfOk result (λ b. IsTrue b ↔ order.Agrees (files_of files.now) events.now lines.now) }
{
    let list = history(alloc, lines)?;
    let mut after = files.copy(alloc)?;
    for t in &list {
        let done = done_of(alloc, events, lines, *t)?;
        if !gives_replies(alloc, &mut after, &done)? {
            return Ok(false);
        }
    }
    Ok(true)
}
