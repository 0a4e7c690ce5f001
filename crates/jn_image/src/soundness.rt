//! Whether an image is sound.
ghost use Rattle.std.specs.Prelude.{◌≡◌, ◌⊎◌, ◌<◌, ◌*◌, ◌^◌, ◌+◌, ◌↔◌, length, drop, map, replicate, Err, IfOk, IfErr, IsTrue, MatchOption};
ghost use Rattle.jn_base.specs.declared.names.ServerNo.{ServerNo as AnyServer};
ghost use Rattle.jn_records.specs.Pages.{IsRoot, IsVersion};
ghost use Rattle.jn_records.specs.Sound as sound;
ghost use Rattle.jn_records.specs.Sound.{HasRoot, IsSound, HasOneHead};
ghost use Rattle.jn_records.specs.StablePages.{page_count};
ghost use Rattle.jn_image.specs.declared.fault.CheckError.TheVariants.{Unsound as AnUnsound, Memory};
ghost use Rattle.jn_image.specs.declared.fault.Unsound.{Unsound as AnyFault};
ghost use Rattle.jn_image.specs.Form.{image_counts};
ghost use Rattle.jn_image.specs.Repeats.{Finds};
ghost use Rattle.jn_image.specs.Rules.{places, RuleHolds, HoldsWithin, AreHeads, at_epoch, IsRead, head_file_number};
ghost use Rattle.jn_image.specs.Unsound.{seen, ToPool, ToHeads, ToAddresses, IsFirstFault, TellsSound};
ghost use Rattle.jn_image.specs.Written.{all_maps_noted, no_times};

use crate::fault::{CheckError, Unsound};
use crate::image::Image;
use crate::repeats::least_repeated;
use crate::written::{first_no_map, first_twice, named_maps};
use jn_base::{Page, ServerNo};
use jn_records::{Head, Record, Root};
use std::alloc::{AllocError, Global};

/// Whether the image is a sound one of this server, from whose pages a recovery may begin.
pub fn check(alloc: Global, image: &Image, server: ServerNo) -> Result<(), CheckError>
    requires { length image.now.pages ≡ 2 * page_count (image_counts image.now) }
    // What is found sound is sound.
    ensures sound { IfOk result (λ _. IsSound server (seen image.now)) }
    // A sound image is found so, unless memory runs out.
    ensures only { IsSound server (seen image.now) → IfErr result (λ e. e ≡ Memory) }
    // A fault that is reported is the first one.
    ensures fault { (f : AnyFault) → result ≡ Err (AnUnsound f) → IsFirstFault server (seen image.now) f }
    // The first fault is reported, unless memory runs out.
    ensures first { (f : AnyFault) → IsFirstFault server (seen image.now) f → (result ≡ Err (AnUnsound f)) ⊎ (result ≡ Err Memory) }
{
    look(alloc, image, server)
}

fn look(alloc: Global, image: &Image, server: ServerNo) -> Result<(), CheckError>
    requires { length image.now.pages ≡ 2 * page_count (image_counts image.now) }
    ensures { TellsSound server (seen image.now) result }
{
    if let Some(fault) = fault_of_pages(image, server) {
        return Err(CheckError::Unsound(fault));
    }
    let heads = heads_of(alloc, image)?;
    if let Some(fault) = fault_of_contents(alloc, image, &heads)? {
        return Err(CheckError::Unsound(fault));
    }
    if let Some(i) = first_failing(image, Rule::Tail) {
        return Err(CheckError::Unsound(Unsound::DataTail(i)));
    }
    Ok(())
}

/// The first fault up to the pool's.
fn fault_of_pages(image: &Image, server: ServerNo) -> Option<Unsound>
    requires { length image.now.pages ≡ 2 * page_count (image_counts image.now) }
    ensures { MatchOption result (ToPool server (seen image.now)) (λ f. IsFirstFault server (seen image.now) f) }
{
    if image.server != server {
        return Some(Unsound::Server);
    }
    if !has_root(image) {
        return Some(Unsound::Root);
    }
    if let Some(p) = first_failing(image, Rule::Good) {
        return Some(Unsound::BadPage(p));
    }
    if let Some(i) = first_failing(image, Rule::Pair) {
        return Some(Unsound::PairDiffers(i));
    }
    if let Some(i) = first_failing(image, Rule::Slot) {
        return Some(Unsound::PoolInUse(i));
    }
    None
}

/// The first fault from files to addresses, where none comes before them.
fn fault_of_contents(
    alloc: Global,
    image: &Image,
    heads: &[Option<Head>],
) -> Result<Option<Unsound>, AllocError>
    requires pages { length image.now.pages ≡ 2 * page_count (image_counts image.now) }
    requires few { length heads.now < 2 ^ 16 }
    ensures { IfOk result (λ r. (s : AnyServer) → AreHeads (seen image.now) heads.now → ToPool s (seen image.now)
        → MatchOption r (ToAddresses s (seen image.now)) (λ f. IsFirstFault s (seen image.now) f)) }
{
    if let Some(fault) = fault_of_heads(alloc, heads)? {
        return Ok(Some(fault));
    }
    let named = named_maps(alloc, image.leaf_count(), heads)?;
    fault_of_maps(alloc, image, heads, &named)
}

/// The first fault of heads, where none comes before them.
fn fault_of_heads(alloc: Global, heads: &[Option<Head>]) -> Result<Option<Unsound>, AllocError>
    requires { length heads.now < 2 ^ 16 }
    ensures { IfOk result (λ r. (s : AnyServer) (m : sound.Image) → AreHeads m heads.now → ToPool s m
        → MatchOption r (ToHeads s m) (λ f. IsFirstFault s m f)) }
{
    if let Some(f) = same_file(alloc, heads)? {
        return Ok(Some(Unsound::SameFile(f)));
    }
    if let Some(i) = first_malformed(heads) {
        return Ok(Some(Unsound::Address(i)));
    }
    Ok(None)
}

/// The first fault of map pages and of addresses, where none comes before them: `named` says how often each address is named as a
/// map page's.
fn fault_of_maps(
    alloc: Global,
    image: &Image,
    heads: &[Option<Head>],
    named: &[u8],
) -> Result<Option<Unsound>, AllocError>
    requires pages { length image.now.pages ≡ 2 * page_count (image_counts image.now) }
    requires named { length named.now ≡ image.now.leaves + 1 }
    ensures { IfOk result (λ r. (s : AnyServer) → AreHeads (seen image.now) heads.now → named.now ≡ all_maps_noted (no_times image.now.leaves) heads.now → ToHeads s (seen image.now)
        → MatchOption r (ToAddresses s (seen image.now)) (λ f. IsFirstFault s (seen image.now) f)) }
{
    if let Some(i) = first_no_map(image, named) {
        return Ok(Some(Unsound::MapPage(i)));
    }
    if let Some(a) = first_twice(alloc, image, heads, named)? {
        return Ok(Some(Unsound::AddressTwice(a)));
    }
    Ok(None)
}

/// Whether the first page is a root with the image's version, server and counts.
fn has_root(image: &Image) -> bool
    requires { 0 < length image.now.pages }
    ensures { IsTrue result ↔ HasRoot (seen image.now) }
{
    let like = first_root(
        image.version,
        image.server,
        image.pool,
        image.heads,
        image.leaves,
    );
    match Root::decode(image.page(0)) {
        Some(root) => is_like(root, like),
        None => false,
    }
}

/// The root of this version, of a server with so many pages of each kind, at epoch 0.
fn first_root(version: u8, server: ServerNo, pool: u16, heads: u16, leaves: u16) -> Root
    ensures root { result ≡ record { version = version; server = server; pool = pool; heads = heads; leaves = leaves; epoch = 0 } }
    ensures fits { IsVersion version → IsRoot result }
{
    Root {
        version,
        server,
        pool,
        heads,
        leaves,
        epoch: 0,
    }
}

/// Whether a root is another but for its epoch.
fn is_like(root: Root, like: Root) -> bool
    ensures { IsTrue result ↔ (root ≡ at_epoch like root.epoch) }
{
    root.version == like.version
        && root.server.0 == like.server.0
        && root.pool == like.pool
        && root.heads == like.heads
        && root.leaves == like.leaves
}

// ---- the pages, place by place

/// What is to hold of each page of a kind.
#[derive(Clone, Copy)]
enum Rule {
    /// A physical page is good.
    Good,
    /// The halves of a stable page are equal.
    Pair,
    /// A slot of the pool is free.
    Slot,
    /// A data page ends in zeros.
    Tail,
}

/// The first place where a rule doesn't hold.
fn first_failing(image: &Image, rule: Rule) -> Option<u32>
    requires { length image.now.pages ≡ 2 * page_count (image_counts image.now) }
    ensures { Finds (HoldsWithin (seen image.now) rule) result }
{
    for i in 0..places(image, rule) {
        if !holds(image, rule, i) {
            return Some(i);
        }
    }
    None
}

/// How many places a rule has.
fn places(image: &Image, rule: Rule) -> u32
    ensures { result ≡ places (seen image.now) rule }
{
    match rule {
        Rule::Good => 2 * image.count() as u32,
        Rule::Pair => image.count() as u32,
        Rule::Slot => u32::from(image.pool),
        Rule::Tail => u32::from(image.leaves),
    }
}

/// Whether a rule holds at a place.
fn holds(image: &Image, rule: Rule, place: u32) -> bool
    requires pages { length image.now.pages ≡ 2 * page_count (image_counts image.now) }
    requires within { place < places (seen image.now) rule }
    ensures { IsTrue result ↔ RuleHolds (seen image.now) rule place }
{
    let i = place as usize;
    match rule {
        Rule::Good => image.is_good(i),
        Rule::Pair => same_bytes(image.page(i), image.page(i + image.count())),
        Rule::Slot => same_bytes(image.page(1 + i), &Record::Free.encode()),
        Rule::Tail => {
            ends_in_zeros(image.page(1 + image.pool as usize + image.heads as usize + i))
        }
    }
}

/// Whether a page has zeros behind its block.
fn ends_in_zeros(page: &Page) -> bool
    ensures { IsTrue result ↔ (drop 448 page.now ≡ replicate 64 0) }
{
    is_blank(tail_of(page))
}

/// What stands behind a page's block.
fn tail_of(page: &Page) -> &[u8]
    ensures { result.now ≡ drop 448 page.now }
{
    &page[448..]
}

/// Whether bytes are as many zeros as stand behind a block.
fn is_blank(bytes: &[u8]) -> bool
    ensures { IsTrue result ↔ (bytes.now ≡ replicate 64 0) }
{
    same_bytes(bytes, &[0; 64])
}

/// Whether two pages, or parts of them, have the same bytes.
fn same_bytes(a: &[u8], b: &[u8]) -> bool
    ensures { IsTrue result ↔ (a.now ≡ b.now) }
{
    a == b
}

// ---- the heads

/// The heads, and none where a page is no head of the image's version.
fn heads_of(alloc: Global, image: &Image) -> Result<Vec<Option<Head>>, AllocError>
    requires { length image.now.pages ≡ 2 * page_count (image_counts image.now) }
    ensures { IfOk result (λ v. AreHeads (seen image.now) v.items) }
{
    let first = 1 + image.pool as usize;
    let leaves = image.leaf_count();
    let count = image.head_count();
    let mut heads = Vec::with_capacity(alloc, count)?;
    for i in 0..count {
        heads.push(Head::decode_version(alloc, image.page(first + i), leaves, image.version)?)?;
    }
    Ok(heads)
}

/// The least file that two heads have.
fn same_file(alloc: Global, heads: &[Option<Head>]) -> Result<Option<u32>, AllocError>
    ensures { IfOk result (λ r. (m : sound.Image) → AreHeads m heads.now → Finds (HasOneHead m) r) }
{
    let files = files_of(alloc, heads)?;
    least_repeated(alloc, &files)
}

/// The first page that is no head.
fn first_malformed(heads: &[Option<Head>]) -> Option<u32>
    requires { length heads.now < 2 ^ 16 }
    ensures { Finds (IsRead heads.now) result }
{
    for i in 0..heads.len() {
        if heads[i].is_none() {
            return Some(i as u32);
        }
    }
    None
}

/// The file of each head.
fn files_of(alloc: Global, heads: &[Option<Head>]) -> Result<Vec<Option<u32>>, AllocError>
    ensures { IfOk result (λ v. v.items ≡ map (λ h. head_file_number h) heads.now) }
{
    let mut files = Vec::with_capacity(alloc, heads.len())?;
    for head in heads {
        files.push(head_file_number(head))?;
    }
    Ok(files)
}

/// The head's file, where it is used.
fn head_file_number(head: &Option<Head>) -> Option<u32>
    ensures { result ≡ head_file_number head.now }
{
    match head {
        Some(Head::Used { file, .. }) => Some(file.0),
        Some(Head::Free) | None => None,
    }
}
