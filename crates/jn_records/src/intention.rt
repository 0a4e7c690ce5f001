//! Intentions: what a work will do to the files once its transaction has committed.
ghost use Rattle.std.specs.Prelude.{◌≡◌, ◌≤◌, ◌+◌, ◌++◌, length};
ghost use Rattle.byteorder.specs.Endian.{big_bytes};
ghost use Rattle.jn_fields.specs.Reading.{Gives};
ghost use Rattle.jn_records.specs.Intentions.{what_code, what_of, intention_bytes, intention_has_page, intention_at};

use jn_base::{Block, BlockNo, FileNo, HEAD_BLOCKS, PageWriter};
use jn_fields::{u8_at, u16_at, u32_at};

/// What an intention does to its file.
#[derive(Clone, Copy, Debug, PartialEq, Eq)]
pub enum What {
    /// The file is there and empty.
    Fresh,
    /// The file is gone.
    Gone,
    /// The file has no blocks from the intention's block on.
    Cut,
    /// The block has new bytes.
    Put,
}

/// An intention, with the bytes of a put's block; all others have zeros, and fresh and gone have block 0.
#[derive(Clone, Copy)]
pub struct Intention {
    pub what: What,
    pub file: FileNo,
    pub block: BlockNo,
    pub bytes: Block,
}

/// An intention as a record has it: the bytes of a put's block stand in the data page that it names.
#[derive(Clone, Copy, Debug, PartialEq, Eq)]
pub struct StoredIntention {
    pub what: What,
    pub file: FileNo,
    /// 0 for fresh and gone, the first block that goes for cut.
    pub block: BlockNo,
    /// The index of a put's data page and 1, else 0.
    pub address: u16,
    /// The index of the map page that a put past the head's blocks may name and 1, else 0.
    pub map: u16,
}

/// Whether the intention names a block, a data page and a map page exactly as what it does needs them.
pub fn has_page(intention: &StoredIntention) -> bool
    ensures { result ≡ intention_has_page intention.now }
{
    match intention.what {
        What::Fresh | What::Gone => {
            intention.block.0 == 0 && intention.address == 0 && intention.map == 0
        }
        What::Cut => intention.address == 0 && intention.map == 0,
        What::Put => {
            intention.address != 0
                && (intention.map == 0 || usize::from(intention.block.0) >= HEAD_BLOCKS)
        }
    }
}

fn code_of(what: What) -> u8
    ensures { result ≡ what_code what }
{
    match what {
        What::Fresh => 1,
        What::Gone => 2,
        What::Cut => 3,
        What::Put => 4,
    }
}

fn what_of(code: u8) -> Option<What>
    ensures { result ≡ what_of code }
{
    match code {
        1 => Some(What::Fresh),
        2 => Some(What::Gone),
        3 => Some(What::Cut),
        4 => Some(What::Put),
        _ => None,
    }
}

pub fn put_intention(page: &mut PageWriter, intention: &StoredIntention)
    requires { length page.old + 11 ≤ 512 }
    ensures { page.new ≡ page.old ++ intention_bytes intention.now }
{
    page.put_u8(code_of(intention.what));
    page.put_u32(intention.file.0);
    page.put_u16(intention.block.0);
    put_pages(page, intention.address, intention.map);
}

fn put_pages(page: &mut PageWriter, address: u16, map: u16)
    requires { length page.old + 4 ≤ 512 }
    ensures { page.new ≡ page.old ++ (big_bytes 2 address ++ big_bytes 2 map) }
{
    page.put_u16(address);
    page.put_u16(map);
}

#[tactic(auto, unfolding(crate::specs::Intentions::intention_at))]
pub fn intention_at(bytes: &[u8]) -> Option<(StoredIntention, &[u8])>
    ensures { Gives (λ r. (r.0, r.1.now)) result (intention_at bytes.now) }
{
    let (code, rest) = u8_at(bytes)?;
    let what = what_of(code)?;
    let (file, rest) = u32_at(rest)?;
    let (block, rest) = u16_at(rest)?;
    let (address, rest) = u16_at(rest)?;
    let (map, rest) = u16_at(rest)?;
    let intention = StoredIntention {
        what,
        file: FileNo(file),
        block: BlockNo(block),
        address,
        map,
    };
    Some((intention, rest))
}
