//! What is reported of outcomes.

ghost use Rattle.std.specs.Prelude.{◌≡◌, ◌↔◌, [], IfOk, IsTrue};
ghost use Rattle.jn_serial.specs.Told.{IsNamedWhere, NamesBefore, NamesOnce, IsNotNamedWhere, NamesNone, Told};

use crate::lines::{has_tid, history, push_commit};
use jn_base::Tid;
use jn_report::{Line, Text};
use std::alloc::{AllocError, Global};

/// Whether the text acknowledges no other commit than one of these.
fn is_named_where(named: &[Tid], text: &Text) -> bool
    ensures { IsTrue result ↔ IsNamedWhere named.now text.now }
{
    match text {
        Text::Committed(_, _, t) => has_tid(named, *t),
        _ => true,
    }
}

/// Whether each acknowledged commit is named before.
fn names_before(alloc: Global, lines: &[Line]) -> Result<bool, AllocError>
    ensures { IfOk result (λ b. IsTrue b ↔ NamesBefore [] lines.now) }
{
    let mut named = Vec::new(alloc);
    for line in lines {
        if !is_named_where(&named, &line.text) {
            return Ok(false);
        }
        push_commit(&mut named, &line.text)?;
    }
    Ok(true)
}

/// Whether no transaction stands twice.
fn names_once(named: &[Tid]) -> bool
    ensures { IsTrue result ↔ NamesOnce named.now }
{
    for (i, t) in named.iter().enumerate() {
        if has_tid(&named[i + 1..], *t) {
            return false;
        }
    }
    true
}

/// Whether the text reports none of these as aborted or broken.
fn is_not_named_where(named: &[Tid], text: &Text) -> bool
    ensures { IsTrue result ↔ IsNotNamedWhere named.now text.now }
{
    match text {
        Text::Aborted(_, _, t, _) => !has_tid(named, *t),
        Text::Broke(_, t, _, _) => !has_tid(named, *t),
        _ => true,
    }
}

/// Whether none of these is reported aborted or broken.
fn names_none(named: &[Tid], lines: &[Line]) -> bool
    ensures { IsTrue result ↔ NamesNone named.now lines.now }
{
    for line in lines {
        if !is_not_named_where(named, &line.text) {
            return false;
        }
    }
    true
}

/// Whether each acknowledged commit is named once in the report, and before; and none that is
/// reported aborted or broken is named.
pub fn told(alloc: Global, lines: &[Line]) -> Result<bool, AllocError>
    ensures { IfOk result (λ b. IsTrue b ↔ Told lines.now) }
{
    let named = history(alloc, lines)?;
    let before = names_before(alloc, lines)?;
    Ok(before && names_once(&named) && names_none(&named, lines))
}
