//! Whether two replies are the same.

ghost use Rattle.std.specs.Prelude.{◌≡◌, ◌↔◌, IsTrue};

use crate::answers::is_same_answer;
use jn_base::Op;
use jn_bytes::{ByteRefusal, Next};
use jn_calls::Reply;
use jn_names::{Entry, NameNext, NameRefusal};

fn is_same_op(a: &Op, b: &Op) -> bool
    ensures { IsTrue result ↔ (a.now ≡ b.now) }
{
    match a {
        Op::Create(f) => matches!(b, Op::Create(g) if f == g),
        Op::Remove(f) => matches!(b, Op::Remove(g) if f == g),
        Op::Cut(f, n) => matches!(b, Op::Cut(g, m) if f == g && n == m),
        Op::Read(f, p) => matches!(b, Op::Read(g, q) if f == g && p == q),
        Op::Write(f, p, x) => {
            matches!(b, Op::Write(g, q, y) if f == g && p == q && x.to_block() == y.to_block())
        }
    }
}

fn is_same_of_bytes(a: &ByteRefusal, b: &ByteRefusal) -> bool
    ensures { IsTrue result ↔ (a.now ≡ b.now) }
{
    match a {
        ByteRefusal::Operation(x) => matches!(b, ByteRefusal::Operation(y) if is_same_answer(x, y)),
        ByteRefusal::NotBytes => matches!(b, ByteRefusal::NotBytes),
        ByteRefusal::PastEnd(n) => matches!(b, ByteRefusal::PastEnd(m) if n == m),
    }
}

fn is_same_next(a: &Next, b: &Next) -> bool
    ensures { IsTrue result ↔ (a.now ≡ b.now) }
{
    match a {
        Next::Send(x) => matches!(b, Next::Send(y) if is_same_op(x, y)),
        Next::Done(x) => matches!(b, Next::Done(y) if x.as_slice() == y.as_slice()),
        Next::Did => matches!(b, Next::Did),
        Next::Refused(x) => matches!(b, Next::Refused(y) if is_same_of_bytes(x, y)),
    }
}

fn is_same_entry(a: &Entry, b: &Entry) -> bool
    ensures { IsTrue result ↔ (a.now ≡ b.now) }
{
    a.name.as_bytes() == b.name.as_bytes() && a.file == b.file
}

fn are_same_entries(a: &[Entry], b: &[Entry]) -> bool
    ensures { IsTrue result ↔ (a.now ≡ b.now) }
{
    if a.len() != b.len() {
        return false;
    }
    for (i, x) in a.iter().enumerate() {
        if !is_same_entry(x, &b[i]) {
            return false;
        }
    }
    true
}

fn is_same_of_names(a: &NameRefusal, b: &NameRefusal) -> bool
    ensures { IsTrue result ↔ (a.now ≡ b.now) }
{
    match a {
        NameRefusal::Operation(x) => matches!(b, NameRefusal::Operation(y) if is_same_answer(x, y)),
        NameRefusal::BucketFull => matches!(b, NameRefusal::BucketFull),
        NameRefusal::NoName => matches!(b, NameRefusal::NoName),
        NameRefusal::NotDirectory => matches!(b, NameRefusal::NotDirectory),
    }
}

fn is_same_name_next(a: &NameNext, b: &NameNext) -> bool
    ensures { IsTrue result ↔ (a.now ≡ b.now) }
{
    match a {
        NameNext::Send(x) => matches!(b, NameNext::Send(y) if is_same_op(x, y)),
        NameNext::Did => matches!(b, NameNext::Did),
        NameNext::Found(f) => matches!(b, NameNext::Found(g) if f == g),
        NameNext::Names(x) => {
            matches!(b, NameNext::Names(y) if are_same_entries(x.as_slice(), y.as_slice()))
        }
        NameNext::Refused(x) => matches!(b, NameNext::Refused(y) if is_same_of_names(x, y)),
    }
}

/// Whether two replies are the same, with all that they say.
pub fn is_same_reply(a: &Reply, b: &Reply) -> bool
    ensures { IsTrue result ↔ (a.now ≡ b.now) }
{
    match a {
        Reply::Answered(x) => matches!(b, Reply::Answered(y) if is_same_answer(x, y)),
        Reply::OfBytes(x) => matches!(b, Reply::OfBytes(y) if is_same_next(x, y)),
        Reply::OfNames(x) => matches!(b, Reply::OfNames(y) if is_same_name_next(x, y)),
    }
}
