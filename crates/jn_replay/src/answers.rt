//! Whether two answers are the same.

ghost use Rattle.std.specs.Prelude.{◌≡◌, ◌↔◌, IsTrue};

use jn_base::Answer;

/// Whether two answers are the same, with all that they say.
pub fn is_same_answer(a: &Answer, b: &Answer) -> bool
    ensures { IsTrue result ↔ (a.now ≡ b.now) }
{
    match a {
        Answer::Did => matches!(b, Answer::Did),
        Answer::Read(x) => matches!(b, Answer::Read(y) if x.to_block() == y.to_block()),
        Answer::NoFile => matches!(b, Answer::NoFile),
        Answer::Exists => matches!(b, Answer::Exists),
        Answer::Locked(u, t) => matches!(b, Answer::Locked(v, w) if u == v && t == w),
        Answer::TooManyReads => matches!(b, Answer::TooManyReads),
        Answer::TooManyWrites => matches!(b, Answer::TooManyWrites),
        Answer::Broken(u, t) => matches!(b, Answer::Broken(v, w) if u == v && t == w),
        Answer::Lost(epoch, now) => {
            matches!(b, Answer::Lost(other, then) if epoch == other && now == then)
        }
        Answer::Closing => matches!(b, Answer::Closing),
    }
}
