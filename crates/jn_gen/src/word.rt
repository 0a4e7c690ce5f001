//! The words of an event's line.
ghost use Rattle.std.specs.Prelude.{◌≡◌, ◌++◌, map, OnOk};
ghost use Rattle.jn_gen.specs.Spell.{spelled};
ghost use Rattle.jn_gen.specs.Texts.{joined, line_of};
ghost use Rattle.jn_report.specs.Text.{tid_word, spaced};

use jn_base::{ClientNo, ServerNo, Tid};
use jn_text::{push_hex, push_number};
use std::alloc::AllocError;

/// A word of a line.
#[derive(Clone, Copy)]
pub(crate) enum Word<'a> {
    Keyword(&'a str),
    Client(ClientNo),
    Server(ServerNo),
    Number(u32),
    Transaction(Tid),
    Block(&'a [u8]),
}

/// Appends a line of these words.
pub(crate) fn push_line(out: &mut Vec<u8>, words: &[Word<'_>]) -> Result<(), AllocError>
    ensures { OnOk result (out.new.items ≡ out.old.items ++ line_of (map spelled words.now)) }
{
    push_joined(out, words)?;
    out.extend_from_slice(b"\n")
}

/// Appends words with a space between two.
fn push_joined(out: &mut Vec<u8>, words: &[Word<'_>]) -> Result<(), AllocError>
    ensures { OnOk result (out.new.items ≡ out.old.items ++ joined (map spelled words.now)) }
{
    match words {
        [] => Ok(()),
        [first, more @ ..] => {
            push_word(out, first)?;
            push_words(out, more)
        }
    }
}

/// Appends each word, with a space before it.
fn push_words(out: &mut Vec<u8>, words: &[Word<'_>]) -> Result<(), AllocError>
    ensures { OnOk result (out.new.items ≡ out.old.items ++ spaced (map spelled words.now)) }
{
    for word in words {
        out.extend_from_slice(b" ")?;
        push_word(out, word)?;
    }
    Ok(())
}

fn push_word(out: &mut Vec<u8>, word: &Word<'_>) -> Result<(), AllocError>
    ensures { OnOk result (out.new.items ≡ out.old.items ++ spelled word.now) }
{
    match word {
        Word::Keyword(text) => out.extend_from_slice(text.as_bytes()),
        Word::Client(client) => {
            out.extend_from_slice(b"c")?;
            push_number(out, u64::from(client.0))
        }
        Word::Server(server) => push_number(out, u64::from(server.0)),
        Word::Number(number) => push_number(out, u64::from(*number)),
        Word::Transaction(tid) => push_tid(out, *tid),
        Word::Block(bytes) => push_hex(out, bytes),
    }
}

fn push_tid(out: &mut Vec<u8>, tid: Tid) -> Result<(), AllocError>
    ensures { OnOk result (out.new.items ≡ out.old.items ++ tid_word tid) }
{
    push_number(out, u64::from(tid.server.0))?;
    out.extend_from_slice(b".")?;
    push_number(out, u64::from(tid.epoch))?;
    out.extend_from_slice(b".")?;
    push_number(out, u64::from(tid.ticket))
}
