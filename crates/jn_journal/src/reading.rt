//! The whole records of bytes that a crash may have left.
ghost use Rattle.std.specs.Prelude.{◌≡◌, ◌++◌, ◌+◌, ◌<◌, ◌≤◌, length, take, drop, map, IfOk};
ghost use Rattle.byteorder.specs.Endian.{big_number};
ghost use Rattle.jn_journal.specs.First.{IsFirst, IsShorter};
ghost use Rattle.jn_journal.specs.Reading.{Reads};
ghost use Rattle.jn_journal.specs.Steps.{step, sized_step, is_doubled, may_be_doubled, halved, header_ending, part_ending};

use crate::writing::{Chain, DIGEST, digest_of, zeros_in};
use byteorder::{BigEndian, ByteOrder};
use std::alloc::{AllocError, Global};

/// How many bytes a header has.
const HEADER: usize = 16;

/// How the bytes end behind the whole records.
#[derive(Clone, Copy, Debug, PartialEq, Eq)]
pub enum Ending {
    /// As a crash may leave them: by nothing, or where a record was written that isn't whole.
    Torn,
    /// As no crash leaves them.
    Damaged,
}

/// What was read.
#[derive(Drop)]
pub struct Journal {
    /// The contents of the whole records, from the first one on.
    pub contents: Vec<Vec<u8>>,
    pub ending: Ending,
}

/// What stands first: content, bytes behind the record, digest.
enum First<'a> {
    Whole(&'a [u8], &'a [u8], [u8; 32]),
    Stops(Ending),
}

fn is_doubled(bytes: &[u8]) -> bool
    ensures { result ≡ is_doubled bytes.now }
{
    match bytes {
        [] => true,
        [_] => false,
        [a, b, rest @ ..] => u16::from(*a) + u16::from(*b) == 255 && is_doubled(rest),
    }
}

fn may_be_doubled(bytes: &[u8]) -> bool
    ensures { result ≡ may_be_doubled bytes.now }
{
    match bytes {
        [] => true,
        [_] => true,
        [a, b, rest @ ..] => {
            (u16::from(*a) + u16::from(*b) == 255 || (*a == 0 || *b == 0)) && may_be_doubled(rest)
        }
    }
}

/// How many bytes the body has of which a header tells, and how many of them are zero.
fn numbers_of(header: &[u8]) -> (u32, u32)
    requires { length header.now ≡ 16 }
    ensures size { result.0 ≡ big_number 4 (halved header.now) }
    ensures zeros { result.1 ≡ big_number 4 (drop 4 (halved header.now)) }
{
    let size = [header[0], header[2], header[4], header[6]];
    let zeros = [header[8], header[10], header[12], header[14]];
    (BigEndian::read_u32(&size), BigEndian::read_u32(&zeros))
}

/// A header that isn't whole is torn where each pair of its bytes is whole or lacks one.
fn header_ending(bytes: &[u8]) -> Ending
    ensures { result ≡ header_ending bytes.now }
{
    if may_be_doubled(bytes) {
        Ending::Torn
    } else {
        Ending::Damaged
    }
}

/// A body whose end is cut off is torn where it has no fewer zeros than it had, what is cut off counted as zeros.
fn part_ending(size: usize, zeros: usize, part: &[u8]) -> Ending
    requires { length part.now ≤ size }
    ensures { result ≡ part_ending size zeros part.now }
{
    let missing = size - part.len();
    if zeros_in(part) + missing < zeros {
        Ending::Damaged
    } else {
        Ending::Torn
    }
}

fn behind_header<'a>(chain: &[u8], size: usize, zeros: usize, rest: &'a [u8]) -> First<'a>
    ensures first { IsFirst chain.now (sized_step chain.now size zeros rest.now) result }
    ensures shorter { IsShorter (length rest.now) result }
{
    if size < DIGEST {
        return First::Stops(Ending::Damaged);
    }
    if rest.len() < size {
        return First::Stops(part_ending(size, zeros, rest));
    }
    let (body, after) = rest.split_at(size);
    let found = zeros_in(body);
    if found < zeros {
        return First::Stops(Ending::Damaged);
    }
    if zeros < found {
        return First::Stops(Ending::Torn);
    }
    let (told, content) = body.split_at(DIGEST);
    let digest = digest_of(chain, content);
    if told == digest.as_slice() {
        First::Whole(content, after, digest)
    } else {
        First::Stops(Ending::Damaged)
    }
}

fn look<'a>(chain: &[u8], bytes: &'a [u8]) -> First<'a>
    ensures first { IsFirst chain.now (step chain.now bytes.now) result }
    ensures shorter { IsShorter (length bytes.now) result }
{
    if bytes.len() < HEADER {
        return First::Stops(header_ending(bytes));
    }
    let (header, rest) = bytes.split_at(HEADER);
    if is_doubled(header) {
        let (size, zeros) = numbers_of(header);
        return behind_header(chain, size as usize, zeros as usize, rest);
    }
    First::Stops(header_ending(header))
}

/// The contents of the whole records, from the first one on, and how the bytes end behind them. `chain` is what the
/// first record was written with.
pub fn read(alloc: Global, chain: Chain, bytes: &[u8]) -> Result<Journal, AllocError>
    ensures { IfOk result (λ j. Reads chain bytes.now (map (λ v. v.items) j.contents.items) j.ending) }
{
    let mut contents = Vec::new(alloc);
    let mut chain = chain;
    let mut left = bytes;
    loop {
        match look(&chain, left) {
            First::Whole(content, rest, digest) => {
                contents.push(Vec::from_slice(alloc, content)?)?;
                chain = digest;
                left = rest;
            }
            First::Stops(ending) => return Ok(Journal { contents, ending }),
        }
    }
}
