//! The line that is reported of a trial.
ghost use Rattle.std.specs.Prelude.{◌≡◌, ◌++◌, map, IfOk, OnOk};
ghost use Rattle.jn_report.specs.Text.{spaced};
ghost use Rattle.jn_summary.specs.Spell.{spelled};
ghost use Rattle.jn_summary.specs.Summary.{count_words, told};

use crate::counts::Counts;
use crate::told::Word::{Name, Number};
use jn_text::push_number;
use std::alloc::{AllocError, Global};

/// A word of the line.
#[derive(Clone, Copy)]
enum Word<'a> {
    Name(&'a str),
    Number(u64),
}

/// The line of a trial with these counts, whose report has this digest.
pub(crate) fn line_of(
    alloc: Global,
    seed: u64,
    events: u32,
    counts: Counts,
    digest: &str,
) -> Result<Vec<u8>, AllocError>
    ensures { IfOk result (λ v. v.items ≡ told seed events counts digest.now) }
{
    let mut out = Vec::new(alloc);
    out.extend_from_slice(b"trial")?;
    push_words(&mut out, &[Number(seed), Number(u64::from(events))])?;
    push_counts(&mut out, counts)?;
    push_words(&mut out, &[Name("sha256"), Name(digest)])?;
    out.extend_from_slice(b"\n")?;
    Ok(out)
}

/// Appends each count, with its name before it.
fn push_counts(out: &mut Vec<u8>, counts: Counts) -> Result<(), AllocError>
    ensures { OnOk result (out.new.items ≡ out.old.items ++ spaced (count_words counts)) }
{
    let words = [
        Name("commits"),
        Number(counts.commits),
        Name("aborted"),
        Number(counts.aborted),
        Name("refused"),
        Number(counts.refused),
        Name("stopped"),
        Number(counts.stopped),
        Name("outside"),
        Number(counts.outside),
    ];
    push_words(out, &words)
}

/// Appends each word, with a space before it.
fn push_words(out: &mut Vec<u8>, words: &[Word<'_>]) -> Result<(), AllocError>
    ensures { OnOk result (out.new.items ≡ out.old.items ++ spaced (map spelled words.now)) }
{
    for word in words {
        out.extend_from_slice(b" ")?;
        push_word(out, word)?;
    }
    Ok(())
}

fn push_word(out: &mut Vec<u8>, word: &Word<'_>) -> Result<(), AllocError>
    ensures { OnOk result (out.new.items ≡ out.old.items ++ spelled word.now) }
{
    match word {
        Word::Name(text) => out.extend_from_slice(text.as_bytes()),
        Word::Number(number) => push_number(out, *number),
    }
}
