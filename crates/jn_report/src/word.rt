//! The words of a line. Most are appended with the text before them: the space, and names that stand there.
ghost use Rattle.std.specs.Prelude.{◌≡◌, ◌++◌, ◌∷◌, [], codes, decimal, OnOk, OnErr};
ghost use Rattle.jn_report.specs.Append.{IsFrontKept};
ghost use Rattle.jn_report.specs.Text.{held_words, party_word, spaced, tid_word, unit_word};

use crate::digits::push_digits;
use jn_base::{LockUnit, Party, Tid};
use std::alloc::AllocError;

/// Appends one byte.
pub(crate) fn push_byte(out: &mut Vec<u8>, byte: u8) -> Result<(), AllocError>
    ensures ok { OnOk result (out.new.items ≡ out.old.items ++ byte ∷ []) }
    ensures err { OnErr result (out.new.items ≡ out.old.items) }
{
    out.push(byte)?;
    Ok(())
}

/// Appends a text. It is inlined, so that a text that is known is copied by a few moves.
#[inline(always)]
pub(crate) fn push_name(out: &mut Vec<u8>, name: &str) -> Result<(), AllocError>
    ensures ok { OnOk result (out.new.items ≡ out.old.items ++ name.now) }
    ensures err { OnErr result (IsFrontKept out.old.items out.new.items) }
{
    out.extend_from_slice(name.as_bytes())
}

/// Appends a text, and a number behind it.
#[inline(always)]
pub(crate) fn push_number(out: &mut Vec<u8>, before: &str, number: u32) -> Result<(), AllocError>
    ensures ok { OnOk result (out.new.items ≡ out.old.items ++ (before.now ++ decimal number)) }
    ensures err { OnErr result (IsFrontKept out.old.items out.new.items) }
{
    push_name(out, before)?;
    push_digits(out, number)
}

/// Appends a text, and the name of a transaction.
pub(crate) fn push_tid(out: &mut Vec<u8>, before: &str, tid: Tid) -> Result<(), AllocError>
    ensures ok { OnOk result (out.new.items ≡ out.old.items ++ (before.now ++ tid_word tid)) }
    ensures err { OnErr result (IsFrontKept out.old.items out.new.items) }
{
    push_number(out, before, u32::from(tid.server.0))?;
    push_number(out, ".", tid.epoch)?;
    push_number(out, ".", tid.ticket)
}

/// Appends a unit, and the transaction that holds it.
pub(crate) fn push_held(out: &mut Vec<u8>, unit: LockUnit, tid: Tid) -> Result<(), AllocError>
    ensures ok { OnOk result (out.new.items ≡ out.old.items ++ spaced (held_words unit tid)) }
    ensures err { OnErr result (IsFrontKept out.old.items out.new.items) }
{
    push_unit(out, unit)?;
    push_tid(out, " by ", tid)
}

fn push_unit(out: &mut Vec<u8>, unit: LockUnit) -> Result<(), AllocError>
    ensures ok { OnOk result (out.new.items ≡ out.old.items ++ (codes " " ++ unit_word unit)) }
    ensures err { OnErr result (IsFrontKept out.old.items out.new.items) }
{
    match unit {
        LockUnit::File(file) => push_number(out, " ", file.0),
        LockUnit::Block(file, block) => {
            push_number(out, " ", file.0)?;
            push_number(out, "/", u32::from(block.0))
        }
    }
}

/// Appends who sends a message, and who takes it.
pub(crate) fn push_route(out: &mut Vec<u8>, from: Party, to: Party) -> Result<(), AllocError>
    ensures ok { OnOk result (out.new.items ≡ out.old.items ++ (codes " " ++ (party_word from ++ (codes ">" ++ party_word to)))) }
    ensures err { OnErr result (IsFrontKept out.old.items out.new.items) }
{
    push_party(out, " ", from)?;
    push_party(out, ">", to)
}

fn push_party(out: &mut Vec<u8>, before: &str, party: Party) -> Result<(), AllocError>
    ensures ok { OnOk result (out.new.items ≡ out.old.items ++ (before.now ++ party_word party)) }
    ensures err { OnErr result (IsFrontKept out.old.items out.new.items) }
{
    push_name(out, before)?;
    match party {
        Party::Client(client) => push_number(out, "c", u32::from(client.0)),
        Party::Server(server) => push_number(out, "s", u32::from(server.0)),
    }
}
