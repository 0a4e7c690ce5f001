//! Prepared works.
ghost use Rattle.std.specs.Prelude.{◌≡◌, true, Bool, Option, None};
ghost use Rattle.std.specs.List.{list_all};
ghost use Rattle.jn_fields.specs.Names.{unit_has_page};
ghost use Rattle.jn_records.specs.Records.{follows, ascends, unit_lt, unit_file, place_in_file};

use crate::intention::StoredIntention;
use crate::list::ListOf;
use jn_base::{ClientNo, LockUnit, Tid, WorkId};

/// A prepared work: its name, its transaction and the client.
#[derive(Clone, Copy, Debug, PartialEq, Eq)]
pub struct WorkHead {
    pub work: WorkId,
    pub tid: Tid,
    pub client: ClientNo,
}

/// A prepared work, its intentions in order, the units that it read, and how far it has been carried out.
#[derive(Drop)]
pub struct WorkState {
    pub head: WorkHead,
    pub list: ListOf<StoredIntention>,
    pub reads: ListOf<LockUnit>,
    /// Whether its transaction is known to have committed.
    pub going: bool,
    /// How many of its intentions were carried out.
    pub next: u8,
}

fn unit_file(unit: LockUnit) -> u32
    ensures { result ≡ unit_file unit }
{
    match unit {
        LockUnit::File(file) | LockUnit::Block(file, _) => file.0,
    }
}

fn place_in_file(unit: LockUnit) -> u32
    ensures { result ≡ place_in_file unit }
{
    match unit {
        LockUnit::File(_) => 0,
        LockUnit::Block(_, block) => u32::from(block.0) + 1,
    }
}

/// Whether a unit stands before another: by file, a file before its blocks, then by block.
fn is_below(a: LockUnit, b: LockUnit) -> bool
    ensures { result ≡ unit_lt a b }
{
    unit_file(a) < unit_file(b)
        || unit_file(a) == unit_file(b) && place_in_file(a) < place_in_file(b)
}

fn follows(last: Option<LockUnit>, unit: LockUnit) -> bool
    ensures { result ≡ follows last unit }
{
    match last {
        None => true,
        Some(last) => is_below(last, unit),
    }
}

/// Whether the units ascend, each once.
pub fn ascends(units: &[LockUnit]) -> bool
    ensures { result ≡ ascends None units.now }
{
    let mut last = None;
    for unit in units {
        if !follows(last, *unit) {
            return false;
        }
        last = Some(*unit);
    }
    true
}

/// Whether no block has the number that stands for its file.
pub fn all_have_pages(units: &[LockUnit]) -> bool
    ensures { result ≡ list_all (λ u. unit_has_page u) units.now }
{
    units.iter().all(|unit| match unit {
        LockUnit::File(_) => true,
        LockUnit::Block(_, block) => block.0 != 0xFFFF,
    })
}
