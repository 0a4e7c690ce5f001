//! Copies of what names works.

ghost use Rattle.std.specs.Prelude.{◌≡◌, IfOk, map};
ghost use Rattle.jn_rows.specs.Client.{names_of};

use jn_base::WorkId;
use jn_msgs::{Message, Works};
use jn_rows::OpenWork;
use std::alloc::{AllocError, Global};

/// The names of the works, in their order.
pub(crate) fn names_of(alloc: Global, works: &[OpenWork]) -> Result<Works, AllocError>
    ensures { IfOk result (λ names. names ≡ names_of works.now) }
{
    let mut names = Vec::with_capacity(alloc, works.len())?;
    for w in works {
        names.push(w.work)?;
    }
    Ok(Works::from_vec(names))
}

/// The same works.
pub(crate) fn copy_of_works(alloc: Global, works: &Works) -> Result<Works, AllocError>
    ensures { IfOk result (λ copy. copy ≡ works.now) }
{
    Ok(Works::from_vec(works.as_slice().to_vec(alloc)?))
}

/// The same message. A client that waits for nothing makes none, so its call isn't to pay for one.
#[inline(never)]
pub(crate) fn copy_of(alloc: Global, message: &Message) -> Result<Message, AllocError>
    ensures { IfOk result (λ copy. copy ≡ message.now) }
{
    Ok(match message {
        Message::Begin(c, r) => Message::Begin(*c, *r),
        Message::Open(c, r, t) => Message::Open(*c, *r, *t),
        Message::Op(c, r, w, n, op) => Message::Op(*c, *r, *w, *n, op.copy()?),
        Message::End(c, r, t, works) => Message::End(*c, *r, *t, copy_of_works(alloc, works)?),
        Message::Abort(c, r, t, works) => Message::Abort(*c, *r, *t, copy_of_works(alloc, works)?),
        Message::Thanks(c, t) => Message::Thanks(*c, *t),
        Message::Begun(c, r, answer) => Message::Begun(*c, *r, *answer),
        Message::Opened(c, r, t, answer) => Message::Opened(*c, *r, *t, *answer),
        Message::Answer(c, r, answer) => Message::Answer(*c, *r, answer.copy()?),
        Message::Outcome(c, t, outcome) => Message::Outcome(*c, *t, *outcome),
        Message::Prepare(t, c, w) => Message::Prepare(*t, *c, *w),
        Message::Commit(t, w) => Message::Commit(*t, *w),
        Message::Drop(t, w) => Message::Drop(*t, *w),
        Message::Vote(t, w, vote) => Message::Vote(*t, *w, *vote),
        Message::Done(t, w) => Message::Done(*t, *w),
        Message::Inquire(t, w) => Message::Inquire(*t, *w),
    })
}
