//! The works that a grant breaks.
ghost use Rattle.std.specs.Prelude.{◌≡◌, ◌++◌, IfOk};
ghost use Rattle.jn_lock_rows.specs.Calls as calls;
ghost use Rattle.jn_rows.specs.Worker as rows;

use crate::finding::{set_phase, work_at};
use jn_base::Tid;
use jn_locks::Broken;
use jn_msgs::{Note, Out};
use jn_rows::{Phase, Work};
use std::alloc::AllocError;

/// Breaks these works, by the transaction.
pub fn break_works(works: &mut [Work], broken: &[Broken], by: Tid)
    ensures { works.new ≡ calls.after_breaks by broken.now works.old }
{
    for b in broken {
        set_phase(works, b.work, Phase::Broken(b.unit, by));
    }
}

/// Reports one broken work.
fn note_break(out: &mut Out, works: &[Work], broken: Broken, by: Tid) -> Result<(), AllocError>
    ensures messages { out.new.messages ≡ out.old.messages }
    ensures notes { IfOk result (λ _. out.new.notes ≡ out.old.notes ++ calls.note_if by broken.unit (rows.work_at broken.work works.now)) }
{
    if let Some(work) = work_at(works, broken.work) {
        out.note(Note::Broke(work.tid, broken.unit, by))?;
    }
    Ok(())
}

/// Reports these broken works.
pub fn note_breaks(
    out: &mut Out,
    works: &[Work],
    broken: &[Broken],
    by: Tid,
) -> Result<(), AllocError>
    ensures messages { out.new.messages ≡ out.old.messages }
    ensures notes { IfOk result (λ _. out.new.notes ≡ out.old.notes ++ calls.notes_of by broken.now works.now) }
{
    for b in broken {
        note_break(out, works, *b, by)?;
    }
    Ok(())
}
