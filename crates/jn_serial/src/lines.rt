//! The lines of a report, and the commits that they name.

ghost use Rattle.std.specs.Prelude.{◌≡◌, ◌++◌, IfOk, OnOk};
ghost use Rattle.jn_report.specs.Kinds.{commit_in};
ghost use Rattle.jn_report.specs.declared.line.When.TheVariants.{Event as AtEvent, End};
ghost use Rattle.jn_serial.specs.Lines as lines_of;

use jn_base::Tid;
use jn_report::{Line, Text, When};
use std::alloc::{AllocError, Global};

/// Whether a line stands at the event of a number.
pub fn is_at(when: When, number: usize) -> bool
    ensures { result ≡ lines_of.when_eq when (AtEvent number) }
{
    match when {
        When::Event(event) => event as usize == number,
        When::End => false,
    }
}

/// Whether a line stands before the event of a number.
pub(crate) fn is_before_event(when: When, number: usize) -> bool
    ensures { result ≡ lines_of.is_before when (AtEvent number) }
{
    match when {
        When::Event(event) => (event as usize) < number,
        When::End => false,
    }
}

/// Whether a line stands after the event of a number.
pub fn is_after_event(when: When, number: usize) -> bool
    ensures { result ≡ lines_of.is_before (AtEvent number) when }
{
    match when {
        When::Event(event) => number < event as usize,
        When::End => true,
    }
}

pub(crate) fn has_tid(named: &[Tid], t: Tid) -> bool
    ensures { result ≡ lines_of.has_tid named.now t }
{
    named.iter().any(|u| *u == t)
}

/// Appends the commit that the text names, if it names one.
pub(crate) fn push_commit(named: &mut Vec<Tid>, text: &Text) -> Result<(), AllocError>
    ensures { OnOk result (named.new.items ≡ named.old.items ++ commit_in text.now) }
{
    if let Text::Commit(t) = text {
        named.push(*t)?;
    }
    Ok(())
}

/// The lines of an event.
pub fn lines_at_event(alloc: Global, lines: &[Line], number: usize) -> Result<Vec<Line>, AllocError>
    ensures { IfOk result (λ ls. ls.items ≡ lines_of.lines_at (AtEvent number) lines.now) }
{
    let mut here = Vec::new(alloc);
    for line in lines {
        if is_at(line.when, number) {
            here.push(line.copy()?)?;
        }
    }
    Ok(here)
}

/// The lines before an event.
pub fn lines_before_event(
    alloc: Global,
    lines: &[Line],
    number: usize,
) -> Result<Vec<Line>, AllocError>
    ensures { IfOk result (λ ls. ls.items ≡ lines_of.lines_before (AtEvent number) lines.now) }
{
    let mut before = Vec::new(alloc);
    for line in lines {
        if is_before_event(line.when, number) {
            before.push(line.copy()?)?;
        }
    }
    Ok(before)
}

/// The lines of the end.
pub fn lines_at_end(alloc: Global, lines: &[Line]) -> Result<Vec<Line>, AllocError>
    ensures { IfOk result (λ ls. ls.items ≡ lines_of.lines_at End lines.now) }
{
    let mut here = Vec::new(alloc);
    for line in lines {
        if matches!(line.when, When::End) {
            here.push(line.copy()?)?;
        }
    }
    Ok(here)
}

/// The transactions that a report names as committed, in the order of its lines.
pub fn history(alloc: Global, lines: &[Line]) -> Result<Vec<Tid>, AllocError>
    ensures { IfOk result (λ ts. ts.items ≡ lines_of.history_of lines.now) }
{
    let mut named = Vec::new(alloc);
    for line in lines {
        push_commit(&mut named, &line.text)?;
    }
    Ok(named)
}
