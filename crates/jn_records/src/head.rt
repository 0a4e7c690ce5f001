//! The heads of files.
ghost use Rattle.std.specs.Prelude.{◌≡◌, ◌≤◌, ◌^◌, ◌<◌, true, List, length, Option, Some, IfOk, IfSome, IsTrue, ◌↔◌};
ghost use Rattle.jn_base.specs.Limits.{head_blocks, most_maps};
ghost use Rattle.jn_records.specs.declared.head.Head.{Head};
ghost use Rattle.jn_records.specs.declared.head.Head.TheVariants.{Used};
ghost use Rattle.jn_records.specs.Heads.{head_page, has_page, all_within, within, fits_version, IsHead, FileFits, maps_at, used_at, head_at};

use crate::list::ListOf;
use crate::page::same_page;
use byteorder::{BigEndian, ByteOrder};
use jn_base::{FileNo, HEAD_BLOCKS, MOST_MAPS, Page, PageWriter};
use jn_fields::{list_at, u8_at, u32_at};
use std::alloc::{AllocError, Global};

/// The first byte of a head that no file has: its page is zeros.
const FREE: u8 = 0;

/// The first byte of a file's head.
const USED: u8 = 1;

/// A head: which file has it, and where the file's blocks and map pages are.
#[derive(Drop)]
pub enum Head {
    Free,
    Used {
        file: FileNo,
        /// Of each block its address: 0 where it isn't stored, else its data page's index and 1.
        addresses: ListOf<u16>,
        /// Of each map page its address, likewise.
        maps: ListOf<u16>,
    },
}

impl Head {
    /// The page of the head.
    #[tactic(auto, unfolding(crate::specs::Heads::head_page))]
    pub fn encode(&self) -> Page
        requires { has_page self.now ≡ true }
        ensures { result ≡ head_page self.now }
    {
        match self {
            Head::Free => PageWriter::new().finish(),
            Head::Used {
                file,
                addresses,
                maps,
            } => used_page(*file, addresses.as_slice(), maps.as_slice()),
        }
    }

    /// The head whose page this is, where there is one and no address is past so many data pages.
    pub fn decode(alloc: Global, page: &Page, leaves: u16) -> Result<Option<Self>, AllocError>
        ensures found { IfOk result (λ r. IfSome r (λ head. IsHead leaves head × (page.now ≡ head_page head))) }
        ensures only { (head : Head) → IsHead leaves head → FileFits head → page.now ≡ head_page head → IfOk result (λ r. r ≡ Some head) }
    {
        let head = head_at(alloc, page)?;
        Ok(of_page(head, page, leaves))
    }

    /// The same, where heads of this version are such: a head of version 1 has no map pages.
    pub fn decode_version(
        alloc: Global,
        page: &Page,
        leaves: u16,
        version: u8,
    ) -> Result<Option<Self>, AllocError>
        ensures found { IfOk result (λ r. IfSome r (λ head. IsHead leaves head × (fits_version version head ≡ true) × (page.now ≡ head_page head))) }
        ensures only { (head : Head) → IsHead leaves head → FileFits head → fits_version version head ≡ true → page.now ≡ head_page head → IfOk result (λ r. r ≡ Some head) }
    {
        let head = head_at(alloc, page)?;
        Ok(of_version(of_page(head, page, leaves), version))
    }

    /// Whether this is the head's page and no address is past so many data pages.
    fn is_of(&self, page: &Page, leaves: u16) -> bool
        ensures { IsTrue result ↔ (IsHead leaves self.now × (page.now ≡ head_page self.now)) }
    {
        self.has_page() && self.within(leaves) && same_page(&self.encode(), page)
    }

    /// Whether the head has a page: a used one has `HEAD_BLOCKS` addresses of blocks and `MOST_MAPS` of map pages.
    pub fn has_page(&self) -> bool
        ensures { result ≡ has_page self.now }
    {
        match self {
            Head::Free => true,
            Head::Used {
                addresses,
                maps,
                ..
            } => addresses.as_slice().len() == HEAD_BLOCKS && maps.as_slice().len() == MOST_MAPS,
        }
    }

    /// Whether heads of this version are such.
    fn fits_version(&self, version: u8) -> bool
        ensures { result ≡ fits_version version self.now }
    {
        match self {
            Head::Free => true,
            Head::Used { maps, .. } => version != 1 || all_within(maps.as_slice(), 0),
        }
    }

    /// Whether no address is past so many data pages.
    fn within(&self, leaves: u16) -> bool
        ensures { result ≡ within leaves self.now }
    {
        match self {
            Head::Free => true,
            Head::Used {
                addresses,
                maps,
                ..
            } => all_within(addresses.as_slice(), leaves) && all_within(maps.as_slice(), leaves),
        }
    }
}

/// The head, where this is its page.
fn of_page(head: Option<Head>, page: &Page, leaves: u16) -> Option<Head>
    ensures found { IfSome result (λ head. IsHead leaves head × (page.now ≡ head_page head)) }
    ensures only { (h : Head) → head ≡ Some h → IsHead leaves h → page.now ≡ head_page h → result ≡ Some h }
{
    match head {
        Some(head) if head.is_of(page, leaves) => Some(head),
        _ => None,
    }
}

/// The head, where heads of this version are such.
fn of_version(head: Option<Head>, version: u8) -> Option<Head>
    ensures found { IfSome result (λ h. (head ≡ Some h) × (fits_version version h ≡ true)) }
    ensures only { (h : Head) → head ≡ Some h → fits_version version h ≡ true → result ≡ Some h }
{
    match head {
        Some(head) if head.fits_version(version) => Some(head),
        _ => None,
    }
}

pub fn all_within(addresses: &[u16], leaves: u16) -> bool
    ensures { result ≡ all_within leaves addresses.now }
{
    addresses.iter().all(|a| *a <= leaves)
}

/// The page of a file's head with these addresses of its blocks and of its map pages. It takes no memory.
#[tactic(auto, unfolding(crate::specs::Heads::head_page))]
pub fn used_page(file: FileNo, addresses: &[u16], maps: &[u16]) -> Page
    requires blocks { length addresses.now ≡ head_blocks }
    requires map_pages { length maps.now ≡ most_maps }
    ensures { result ≡ head_page (Used file addresses.now maps.now) }
{
    let mut block_bytes = [0; 2 * HEAD_BLOCKS];
    BigEndian::write_u16_into(addresses, &mut block_bytes);
    let mut map_bytes = [0; 2 * MOST_MAPS];
    BigEndian::write_u16_into(maps, &mut map_bytes);
    let mut page = PageWriter::new();
    page.put_u8(USED);
    page.put_u32(file.0);
    page.put_bytes(&block_bytes);
    page.put_bytes(&map_bytes);
    page.finish()
}

/// The head of a file with these addresses of its blocks, where those of its map pages stand at the front of the bytes.
#[tactic(auto, unfolding(crate::specs::Heads::maps_at))]
fn maps_at(
    alloc: Global,
    file: FileNo,
    addresses: ListOf<u16>,
    bytes: &[u8],
) -> Result<Option<Head>, AllocError>
    ensures { IfOk result (λ r. r ≡ maps_at file addresses bytes.now) }
{
    let Some((maps, _)) = list_at(alloc, MOST_MAPS as u8, bytes)? else {
        return Ok(None);
    };
    Ok(Some(Head::Used {
        file,
        addresses,
        maps: ListOf::from_vec(maps),
    }))
}

#[tactic(auto, unfolding(crate::specs::Heads::used_at))]
fn used_at(alloc: Global, bytes: &[u8]) -> Result<Option<Head>, AllocError>
    ensures { IfOk result (λ r. r ≡ used_at bytes.now) }
{
    let Some((file, rest)) = u32_at(bytes) else {
        return Ok(None);
    };
    let Some((addresses, rest)) = list_at(alloc, HEAD_BLOCKS as u8, rest)? else {
        return Ok(None);
    };
    maps_at(alloc, FileNo(file), ListOf::from_vec(addresses), rest)
}

#[tactic(auto, unfolding(crate::specs::Heads::head_at))]
fn head_at(alloc: Global, bytes: &[u8]) -> Result<Option<Head>, AllocError>
    ensures { IfOk result (λ r. r ≡ head_at bytes.now) }
{
    let Some((kind, rest)) = u8_at(bytes) else {
        return Ok(None);
    };
    match kind {
        FREE => Ok(Some(Head::Free)),
        USED => used_at(alloc, rest),
        _ => Ok(None),
    }
}
