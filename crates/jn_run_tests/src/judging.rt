//! What is said of a run's lines.

use jn_causing::caused;
use jn_following::follows;
use jn_replay::Files;
use jn_report::{Line, push_line};
use jn_schedule::Event;
use jn_serial::{agrees, told};
use jn_showing::shown;
use std::alloc::{AllocError, Global};

/// What a report must be, definition by definition.
#[derive(Clone, Copy, Debug, PartialEq, Eq)]
pub enum Definition {
    /// The answers are those of the order of commits.
    Agrees,
    /// No client is told of an outcome that isn't so.
    Told,
    /// What is printed is what the commits leave.
    Shown,
    /// Each abort has its cause.
    Caused,
    /// Each command is answered once, or not yet.
    Follows,
}

/// The first definition that lines don't meet, where no file is there at the start.
pub fn first_broken(
    alloc: Global,
    events: &[Event],
    lines: &[Line],
) -> Result<Option<Definition>, AllocError> {
    let none = Files::new(alloc);
    if !agrees(alloc, &none, events, lines)? {
        return Ok(Some(Definition::Agrees));
    }
    if !told(alloc, lines)? {
        return Ok(Some(Definition::Told));
    }
    if !shown(alloc, &none, events, lines)? {
        return Ok(Some(Definition::Shown));
    }
    if !caused(events, lines) {
        return Ok(Some(Definition::Caused));
    }
    if !follows(alloc, events, lines)? {
        return Ok(Some(Definition::Follows));
    }
    Ok(None)
}

/// The text of lines.
pub fn text_of(alloc: Global, lines: &[Line]) -> Result<Vec<u8>, AllocError> {
    let mut text = Vec::new(alloc);
    for line in lines {
        push_line(&mut text, line)?;
    }
    Ok(text)
}
