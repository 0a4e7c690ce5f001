//! Words as typed values.
ghost use Rattle.std.specs.Prelude.{◌≡◌, ◌≢◌, ◌≤◌, ℕ, List, length, Option, Some, None, IfSome, IfOk, MatchOption, MatchBool};
ghost use Rattle.std.specs.Char.{is_ascii_uppercase};
ghost use Rattle.std.specs.List.{AllByRecursion, list_any};
ghost use Rattle.hex.specs.Hex.{encode_lower};
ghost use Rattle.jn_schedule.specs.Grammar.{IsByte, SpellsBlock};
ghost use Rattle.jn_schedule.specs.Reading.{TellsRead, block_no_of, bytes_of, client_of, cut_at_stop, file_of, name_in, name_of, number_in, page_of, server_of, server_in, value_of};

use crate::fault::{LineFault, ReadFault};
use jn_base::{BlockContent, BlockNo, ClientNo, FileNo, MOST_BLOCKS, ServerNo, Tid};
use jn_text::read_number;
use std::alloc::Global;

/// The last server.
const LAST_SERVER: u32 = 7;

/// The last block of a file.
const LAST_BLOCK: u32 = MOST_BLOCKS as u32 - 1;

/// The bytes of a block.
const MOST_BYTES: usize = 448;

/// The last physical page of the largest device.
const LAST_PAGE: u32 = 20001;

/// The number that a word spells, from `low` to `high`.
fn number_in(word: &[u8], low: u32, high: u32) -> Option<u32>
    ensures value { result ≡ number_in low high word.now }
    ensures small { IfSome result (λ n. n ≤ high) }
{
    let (number, end) = read_number(word, 0, u64::from(high))?;
    let number = number as u32;
    if end == word.len() && low <= number {
        Some(number)
    } else {
        None
    }
}

/// The same, as it is reported of a line.
#[tactic(auto, unfolding(crate::specs::Reading::value_of))]
pub fn value_of(word: &[u8], low: u32, high: u32) -> Result<u32, LineFault>
    ensures value { result ≡ value_of low high word.now }
    ensures small { IfOk result (λ n. n ≤ high) }
{
    number_in(word, low, high).ok_or(LineFault::Value)
}

/// The client, `c1` to `c8`.
#[tactic(auto, unfolding(crate::specs::Reading::client_of))]
pub fn client_of(word: &[u8]) -> Option<ClientNo>
    ensures { result ≡ client_of word.now }
{
    let [letter, digit] = word else {
        return None;
    };
    if *letter == b'c' && *digit >= b'1' && *digit <= b'8' {
        Some(ClientNo(*digit - b'0'))
    } else {
        None
    }
}

#[tactic(auto, unfolding(crate::specs::Reading::server_in))]
fn server_in(word: &[u8]) -> Option<ServerNo>
    ensures { result ≡ server_in word.now }
{
    let number = number_in(word, 0, LAST_SERVER)?;
    Some(ServerNo(number as u8))
}

#[tactic(auto, unfolding(crate::specs::Reading::server_of))]
pub fn server_of(word: &[u8]) -> Result<ServerNo, LineFault>
    ensures { result ≡ server_of word.now }
{
    server_in(word).ok_or(LineFault::Value)
}

#[tactic(auto, unfolding(crate::specs::Reading::file_of))]
pub fn file_of(word: &[u8]) -> Result<FileNo, LineFault>
    ensures { result ≡ file_of word.now }
{
    Ok(FileNo(value_of(word, 0, u32::MAX)?))
}

#[tactic(auto, unfolding(crate::specs::Reading::block_no_of))]
pub fn block_no_of(word: &[u8]) -> Result<BlockNo, LineFault>
    ensures { result ≡ block_no_of word.now }
{
    let number = value_of(word, 0, LAST_BLOCK)?;
    Ok(BlockNo(number as u16))
}

/// A physical page.
#[tactic(auto, unfolding(crate::specs::Reading::page_of))]
pub fn page_of(word: &[u8]) -> Result<u32, LineFault>
    ensures { result ≡ page_of word.now }
{
    value_of(word, 0, LAST_PAGE)
}

/// What stands before and behind the first full stop.
fn cut_at_stop(word: &[u8]) -> Option<(&[u8], &[u8])>
    ensures { MatchOption result (cut_at_stop word.now ≡ None) (λ x. cut_at_stop word.now ≡ Some (x.0.now, x.1.now)) }
{
    for i in 0..word.len() {
        if word[i] == b'.' {
            return Some((&word[..i], &word[i + 1..]));
        }
    }
    None
}

/// The transaction's name, its numbers with full stops between them.
#[tactic(auto, unfolding(crate::specs::Reading::name_in))]
fn name_in(word: &[u8]) -> Option<Tid>
    ensures { result ≡ name_in word.now }
{
    let (server, numbers) = cut_at_stop(word)?;
    let (epoch, ticket) = cut_at_stop(numbers)?;
    let server = server_in(server)?;
    let epoch = number_in(epoch, 0, u32::MAX)?;
    let ticket = number_in(ticket, 0, u32::MAX)?;
    Some(Tid {
        server,
        epoch,
        ticket,
    })
}

#[tactic(auto, unfolding(crate::specs::Reading::name_of))]
pub fn name_of(word: &[u8]) -> Result<Tid, LineFault>
    ensures { result ≡ name_of word.now }
{
    name_in(word).ok_or(LineFault::Value)
}

/// Whether pairs of lower-case digits spell as many bytes as there is room for, which then has them.
fn decode(word: &[u8], room: &mut [u8]) -> bool
    ensures { MatchBool result (AllByRecursion IsByte room.new × (word.now ≡ encode_lower room.new))
        ((bytes : List ℕ) → length bytes ≡ length room.old → AllByRecursion IsByte bytes → word.now ≢ encode_lower bytes) }
{
    if has_upper_case(word) {
        return false;
    }
    hex::decode_to_slice(word, room).is_ok()
}

/// Whether a letter of the word is in upper case. No byte ends the look, so that many are looked at at once.
fn has_upper_case(word: &[u8]) -> bool
    ensures { result ≡ list_any is_ascii_uppercase word.now }
{
    let mut found = false;
    for byte in word {
        found |= byte.is_ascii_uppercase();
    }
    found
}

/// The content of the block whose first bytes a word spells: `-` for none, or pairs of lower-case digits.
#[tactic(auto, unfolding(crate::specs::Reading::bytes_of))]
pub fn bytes_of(alloc: Global, word: &[u8]) -> Result<BlockContent, ReadFault>
    ensures { TellsRead result (bytes_of word.now) }
{
    if word == b"-".as_slice() {
        return Ok(BlockContent::new(alloc, &[])?);
    }
    let count = word.len() / 2;
    if word.is_empty() || count > MOST_BYTES {
        return Err(ReadFault::Line(LineFault::Bytes));
    }
    let mut block = [0; MOST_BYTES];
    let bytes = &mut block[..count];
    if !decode(word, bytes) {
        return Err(ReadFault::Line(LineFault::Bytes));
    }
    Ok(BlockContent::new(alloc, bytes)?)
}
