//! Lines as words.
ghost use Rattle.std.specs.Prelude.{◌≡◌, ◌≢◌, ◌≤◌, ◌<◌, ◌+◌, ◌⊎◌, ◌++◌, ◌∷◌, [], true, filter, take, slice_index, length, IfOk, OnOk, MatchBool};
ghost use Rattle.jn_schedule.specs.Grammar.{begins_comment, has_bytes, is_passed, lines_of, words_of};
ghost use Rattle.jn_schedule.specs.Reading.{lacks, lines_from, texts};

use std::alloc::AllocError;

/// Leaves the words of a text's first line in place of those that were there: its runs of bytes other than spaces. Gives how many
/// bytes the line has.
pub fn fill_words<'a>(words: &mut Vec<&'a [u8]>, text: &'a [u8]) -> Result<usize, AllocError>
    ensures within { IfOk result (λ end. end ≤ length text.now) }
    ensures line { IfOk result (λ end. lines_of text.now ≡ take end text.now ∷ lines_from (end + 1) text.now) }
    ensures words { IfOk result (λ end. texts words.new.items ≡ words_of (take end text.now)) }
{
    words.clear();
    let mut end = word_length(text);
    push_word(words, &text[..end])?;
    while end < text.len() && text[end] == b' ' {
        let rest = &text[end + 1..];
        let length = word_length(rest);
        push_word(words, &rest[..length])?;
        end += length + 1;
    }
    Ok(end)
}

/// How many bytes stand before the first space or line feed.
fn word_length(text: &[u8]) -> usize
    ensures within { result ≤ length text.now }
    ensures no_space { lacks 32 (take result text.now) ≡ true }
    ensures no_feed { lacks 10 (take result text.now) ≡ true }
    ensures stop { result < length text.now → (slice_index text.now result ≡ 32) ⊎ (slice_index text.now result ≡ 10) }
{
    let mut end = plain_length(text);
    while end < text.len() && !ends_word(text[end]) {
        end += plain_length(&text[end + 1..]) + 1;
    }
    end
}

/// Whether a byte is a space or a line feed.
fn ends_word(byte: u8) -> bool
    ensures { MatchBool result ((byte ≡ 32) ⊎ (byte ≡ 10)) ((byte ≢ 32) × (byte ≢ 10)) }
{
    byte == b' ' || byte == b'\n'
}

/// How many bytes stand before the first that is at most a space. Most bytes are greater, so that one comparison passes them over.
fn plain_length(text: &[u8]) -> usize
    ensures within { result ≤ length text.now }
    ensures no_space { lacks 32 (take result text.now) ≡ true }
    ensures no_feed { lacks 10 (take result text.now) ≡ true }
{
    for i in 0..text.len() {
        if text[i] <= b' ' {
            return i;
        }
    }
    text.len()
}

/// Adds a word, unless it has no bytes.
fn push_word<'a>(words: &mut Vec<&'a [u8]>, word: &'a [u8]) -> Result<(), AllocError>
    ensures { OnOk result (texts words.new.items ≡ texts words.old.items ++ filter has_bytes (word.now ∷ [])) }
{
    if word.is_empty() {
        return Ok(());
    }
    words.push(word)?;
    Ok(())
}

/// Whether the line of these words is no event: it has none, or is a comment.
pub fn is_passed(words: &[&[u8]]) -> bool
    ensures { result ≡ is_passed (texts words.now) }
{
    match words {
        [] => true,
        [first, ..] => begins_comment(first),
    }
}

fn begins_comment(word: &[u8]) -> bool
    ensures { result ≡ begins_comment word.now }
{
    match word {
        [] => false,
        [first, ..] => *first == b'#',
    }
}
