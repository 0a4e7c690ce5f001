//! Map pages: the addresses of a file's blocks that its head has no room for.
ghost use Rattle.std.specs.Prelude.{◌≡◌, ◌↔◌, ℕ, true, List, length, Some, IfSome, IsTrue};
ghost use Rattle.jn_base.specs.Limits.{head_blocks};
ghost use Rattle.jn_records.specs.Heads.{all_within, map_page, IsMapPage};
ghost use Rattle.jn_records.specs.StablePages.{HasEntries};

use crate::head::all_within;
use crate::page::same_page;
use byteorder::{BigEndian, ByteOrder};
use jn_base::{HEAD_BLOCKS, Page, PageWriter};

/// The page with these addresses: of each block 0 where it isn't stored, else its data page's index and 1.
#[tactic(auto, unfolding(crate::specs::Heads::map_page))]
pub fn map_page(entries: &[u16; HEAD_BLOCKS]) -> Page
    ensures { result ≡ map_page entries.now }
{
    let mut bytes = [0; 2 * HEAD_BLOCKS];
    BigEndian::write_u16_into(entries, &mut bytes);
    let mut page = PageWriter::new();
    page.put_bytes(&bytes);
    page.finish()
}

/// The numbers that stand where a map page has its addresses.
pub fn read_entries(page: &Page) -> [u16; HEAD_BLOCKS]
    ensures { HasEntries page.now result }
{
    let mut entries = [0; HEAD_BLOCKS];
    BigEndian::read_u16_into(&page[..2 * HEAD_BLOCKS], &mut entries);
    entries
}

/// Whether this is the map page with these addresses, and no address is past so many data pages.
fn is_map_of(page: &Page, entries: &[u16; HEAD_BLOCKS], leaves: u16) -> bool
    ensures { IsTrue result ↔ ((all_within leaves entries.now ≡ true) × (page.now ≡ map_page entries.now)) }
{
    all_within(entries, leaves) && same_page(&map_page(entries), page)
}

/// The addresses, where this is the map page that has them.
fn of_page(entries: [u16; HEAD_BLOCKS], page: &Page, leaves: u16) -> Option<[u16; HEAD_BLOCKS]>
    ensures found { IfSome result (λ entries. (page.now ≡ map_page entries) × (all_within leaves entries ≡ true)) }
    ensures only { all_within leaves entries ≡ true → page.now ≡ map_page entries → result ≡ Some entries }
    ensures same { IfSome result (λ xs. xs ≡ entries) }
{
    if is_map_of(page, &entries, leaves) {
        Some(entries)
    } else {
        None
    }
}

/// The addresses of a map page, where this is one and no address is past so many data pages. It takes no memory.
pub fn map_entries(page: &Page, leaves: u16) -> Option<[u16; HEAD_BLOCKS]>
    ensures found { IfSome result (λ entries. (page.now ≡ map_page entries) × (all_within leaves entries ≡ true)) }
    ensures count { IfSome result (λ entries. length entries ≡ head_blocks) }
    ensures only { (entries : List ℕ) → length entries ≡ head_blocks → all_within leaves entries ≡ true → page.now ≡ map_page entries → result ≡ Some entries }
{
    of_page(read_entries(page), page, leaves)
}

/// Whether this is a map page, and no address is past so many data pages. It takes no memory.
pub fn is_map_page(page: &Page, leaves: u16) -> bool
    ensures { IsTrue result ↔ IsMapPage leaves page.now }
{
    match map_entries(page, leaves) {
        Some(_entries) => true,
        None => false,
    }
}
