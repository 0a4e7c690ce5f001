//! An image of bytes.
ghost use Rattle.std.specs.Prelude.{◌≡◌, ◌≤◌, ◌+◌, ◌*◌, ◌⊎◌, ℕ, length, drop, Option, None, Some, Ok, Err, Result, IfOk, MatchResult};
ghost use Rattle.jn_records.specs.StablePages.{Counts, page_count};
ghost use Rattle.jn_image.specs.declared.fault.BadImage.{BadImage as AnyFault};
ghost use Rattle.jn_image.specs.declared.fault.DecodeError.TheVariants.{Bad, Memory};
ghost use Rattle.jn_image.specs.declared.image.Image.{Image as AnyImage};
ghost use Rattle.jn_image.specs.Faults.{bad_of, bad_behind_header, version_in, server_in, counts_in, in_range, statuses_fit, has_digest, TellsImage};
ghost use Rattle.jn_image.specs.Form.{HasForm, PagesFit, body_size, image_bytes, image_size};
ghost use Rattle.jn_image.specs.Headers.{counts_by};
ghost use Rattle.jn_image.specs.Reading.{half_in, halves_in, image_in};

use crate::fault::{BadImage, DecodeError};
use crate::image::{Image, is_image_version, is_within};
use crate::writing::{DIGEST, NAME, digest_of};
use byteorder::{BigEndian, ByteOrder};
use jn_base::ServerNo;
use jn_device::Half;
use jn_records::ListOf;
use std::alloc::{AllocError, Global};

/// How many bytes the header has.
const HEADER: usize = 16;

/// How many bytes a physical page has, with its status.
const HALF: usize = 513;

/// The image whose bytes these are.
pub fn decode(alloc: Global, bytes: &[u8]) -> Result<Image, DecodeError>
    // What is read is an image with these bytes, 512 on each page.
    ensures found { IfOk result (λ m. HasForm m × PagesFit m × (bytes.now ≡ image_bytes m)) }
    // The bytes of an image are read, unless memory runs out.
    ensures only { (m : AnyImage) → HasForm m → PagesFit m → bytes.now ≡ image_bytes m → MatchResult result (λ v. v ≡ m) (λ e. e ≡ Memory) }
    // A fault that is reported is the first one.
    ensures fault { (f : AnyFault) → result ≡ Err (Bad f) → bad_of bytes.now ≡ Some f }
    // The first fault is reported, unless memory runs out.
    ensures first { (f : AnyFault) → bad_of bytes.now ≡ Some f → (result ≡ Err (Bad f)) ⊎ (result ≡ Err Memory) }
{
    read(alloc, bytes)
}

fn read(alloc: Global, bytes: &[u8]) -> Result<Image, DecodeError>
    ensures tells { TellsImage (bad_of bytes.now) result }
    ensures image { IfOk result (λ m. m ≡ image_in bytes.now) }
{
    match bad_of(bytes) {
        Some(fault) => Err(DecodeError::Bad(fault)),
        None => Ok(image_of(alloc, bytes)?),
    }
}

/// What the header says.
#[derive(Clone, Copy)]
struct Header {
    version: u8,
    server: u8,
    pool: u16,
    heads: u16,
    leaves: u16,
}

impl Header {
    fn of(bytes: &[u8]) -> Self
        requires { 16 ≤ length bytes.now }
        ensures version { result.version ≡ version_in bytes.now }
        ensures server { result.server ≡ server_in bytes.now }
        ensures counts { counts_by result ≡ counts_in bytes.now }
    {
        Header {
            version: bytes[8],
            server: bytes[9],
            pool: BigEndian::read_u16(&bytes[10..]),
            heads: BigEndian::read_u16(&bytes[12..]),
            leaves: BigEndian::read_u16(&bytes[14..]),
        }
    }

    /// Whether the server and the counts are in their ranges.
    fn is_in_range(self) -> bool
        ensures { result ≡ in_range self.server (counts_by self) }
    {
        self.server <= 7
            && is_within(1000, self.pool)
            && is_within(1000, self.heads)
            && is_within(8000, self.leaves)
    }

    /// How many physical pages there are.
    fn halves(self) -> usize
        ensures { result ≡ 2 * page_count (counts_by self) }
    {
        2 * (1 + self.pool as usize + self.heads as usize + self.leaves as usize)
    }

    /// How many bytes are digested.
    fn body(self) -> usize
        ensures { result ≡ body_size (counts_by self) }
    {
        HEADER + HALF * self.halves()
    }
}

/// The first fault of bytes that are no image.
#[tactic(auto, unfolding(crate::specs::Faults::bad_of))]
fn bad_of(bytes: &[u8]) -> Option<BadImage>
    ensures { result ≡ bad_of bytes.now }
{
    if bytes.len() < HEADER {
        return Some(BadImage::Short);
    }
    if bytes[..8] != NAME[..] {
        return Some(BadImage::Magic);
    }
    if !is_image_version(bytes[8]) {
        return Some(BadImage::Version);
    }
    let header = Header::of(bytes);
    if !header.is_in_range() {
        return Some(BadImage::Geometry);
    }
    bad_behind_header(header, bytes)
}

fn bad_behind_header(header: Header, bytes: &[u8]) -> Option<BadImage>
    ensures { result ≡ bad_behind_header (counts_by header) bytes.now }
{
    let body = header.body();
    let size = body + DIGEST;
    if bytes.len() < size {
        return Some(BadImage::Short);
    }
    if !statuses_fit(header.halves(), &bytes[HEADER..]) {
        return Some(BadImage::Status);
    }
    if !has_digest(body, bytes) {
        return Some(BadImage::Digest);
    }
    if bytes.len() > size {
        return Some(BadImage::Trailing);
    }
    None
}

/// Whether each of so many pages begins with a status.
fn statuses_fit(count: usize, pages: &[u8]) -> bool
    requires { 513 * count ≤ length pages.now }
    ensures { result ≡ statuses_fit count pages.now }
{
    let mut rest = pages;
    for _ in 0..count {
        if rest[0] > 1 {
            return false;
        }
        let after = behind_half(rest);
        rest = after;
    }
    true
}

/// Whether the digest of so many bytes stands behind them.
fn has_digest(size: usize, bytes: &[u8]) -> bool
    requires { size + 32 ≤ length bytes.now }
    ensures { result ≡ has_digest size bytes.now }
{
    let digest = digest_of(&bytes[..size]);
    bytes[size..size + DIGEST] == digest[..]
}

/// The image whose bytes these are, where they are one.
#[tactic(auto, unfolding(crate::specs::Reading::image_in))]
fn image_of(alloc: Global, bytes: &[u8]) -> Result<Image, AllocError>
    requires header { 16 ≤ length bytes.now }
    requires pages { 513 * (2 * page_count (counts_in bytes.now)) ≤ length (drop 16 bytes.now) }
    ensures { IfOk result (λ m. m ≡ image_in bytes.now) }
{
    let header = Header::of(bytes);
    let pages = halves_of(alloc, header.halves(), &bytes[HEADER..])?;
    Ok(Image {
        version: header.version,
        server: ServerNo(header.server),
        pool: header.pool,
        heads: header.heads,
        leaves: header.leaves,
        pages: ListOf::from_vec(pages),
    })
}

/// So many physical pages, one after another.
fn halves_of(alloc: Global, count: usize, pages: &[u8]) -> Result<Vec<Half>, AllocError>
    requires { 513 * count ≤ length pages.now }
    ensures { IfOk result (λ v. v.items ≡ halves_in count pages.now) }
{
    let mut halves = Vec::with_capacity(alloc, count)?;
    let mut rest = pages;
    for _ in 0..count {
        halves.push(half_of(rest))?;
        let after = behind_half(rest);
        rest = after;
    }
    Ok(halves)
}

/// What stands behind the first physical page.
fn behind_half(pages: &[u8]) -> &[u8]
    requires { 513 ≤ length pages.now }
    ensures { result.now ≡ drop 513 pages.now }
{
    &pages[HALF..]
}

/// The first physical page.
fn half_of(bytes: &[u8]) -> Half
    requires { 513 ≤ length bytes.now }
    ensures { result ≡ half_in bytes.now }
{
    let mut page = [0; 512];
    page.copy_from_slice(&bytes[1..HALF]);
    Half {
        good: bytes[0] == 1,
        bytes: page,
    }
}
