//! The files and blocks that prepared works hold for commit.
ghost use Rattle.std.specs.Prelude.{◌≡◌, Option, ◌≤◌, ◌+◌, ◌^◌};
ghost use Rattle.jn_base.specs.declared.names.FileNo.{FileNo};
ghost use Rattle.jn_rows.specs.Worker.{WorkerTable};
ghost use Rattle.jn_works.specs.Locked as specs;
ghost use Rattle.jn_works.specs.Locked.{is_held};
ghost use Rattle.jn_base.specs.declared.names.BlockNo.{BlockNo};
ghost use Rattle.jn_base.specs.declared.names.LockUnit.TheVariants.{File, Block};
ghost use Rattle.jn_index.specs.Least.{NextAfter, number_after, lesser};

use jn_base::{BlockNo, FileNo, LockUnit};
use jn_rows::{Phase, Work};

/// The lesser of two files.
pub fn lesser_file(a: Option<FileNo>, b: Option<FileNo>) -> Option<FileNo>
    ensures { result ≡ lesser (λ (f : FileNo). f.0) a b }
{
    let Some(f) = a else {
        return b;
    };
    match b {
        Some(g) if g.0 < f.0 => b,
        _ => a,
    }
}

/// The lesser of two blocks.
pub fn lesser_block(a: Option<BlockNo>, b: Option<BlockNo>) -> Option<BlockNo>
    ensures { result ≡ lesser (λ (p : BlockNo). p.0) a b }
{
    let Some(p) = a else {
        return b;
    };
    match b {
        Some(q) if q.0 < p.0 => b,
        _ => a,
    }
}

fn file_after(after: Option<FileNo>) -> u64
    ensures { result ≡ number_after (λ (f : FileNo). f.0) after }
{
    match after {
        Some(f) => u64::from(f.0) + 1,
        None => 0,
    }
}

fn block_after(after: Option<BlockNo>) -> u32
    ensures { result ≡ number_after (λ (p : BlockNo). p.0) after }
{
    match after {
        Some(p) => u32::from(p.0) + 1,
        None => 0,
    }
}

/// The file of a unit that is a file from a number on.
fn file_from(from: u64, unit: LockUnit) -> Option<FileNo>
    ensures { result ≡ specs.file_from from unit }
{
    match unit {
        LockUnit::File(f) if from <= u64::from(f.0) => Some(f),
        _ => None,
    }
}

/// The block of a unit that is a block of the file, from a number on.
fn block_from(file: FileNo, from: u32, unit: LockUnit) -> Option<BlockNo>
    ensures { result ≡ specs.block_from file from unit }
{
    match unit {
        LockUnit::Block(f, p) if f == file && from <= u32::from(p.0) => Some(p),
        _ => None,
    }
}

#[tactic(auto, using(jn_index::proofs::Least::lesser_none, jn_index::proofs::Least::lesser_step))]
fn least_file(from: u64, units: &[LockUnit]) -> Option<FileNo>
    ensures { result ≡ specs.least_in (λ (f : FileNo). f.0) (specs.file_from from) units.now }
{
    let mut least = None;
    for unit in units {
        least = lesser_file(least, file_from(from, *unit));
    }
    least
}

#[tactic(auto, using(jn_index::proofs::Least::lesser_none, jn_index::proofs::Least::lesser_step))]
fn least_block(file: FileNo, from: u32, units: &[LockUnit]) -> Option<BlockNo>
    ensures { result ≡ specs.least_in (λ (p : BlockNo). p.0) (specs.block_from file from) units.now }
{
    let mut least = None;
    for unit in units {
        least = lesser_block(least, block_from(file, from, *unit));
    }
    least
}

fn file_held(from: u64, phase: &Phase) -> Option<FileNo>
    ensures { result ≡ specs.least_in (λ (f : FileNo). f.0) (specs.file_from from) (specs.held_by phase.now) }
{
    match phase {
        Phase::Prepared(work) => least_file(from, work.writes.as_slice()),
        _ => None,
    }
}

fn block_held(file: FileNo, from: u32, phase: &Phase) -> Option<BlockNo>
    ensures { result ≡ specs.least_in (λ (p : BlockNo). p.0) (specs.block_from file from) (specs.held_by phase.now) }
{
    match phase {
        Phase::Prepared(work) => least_block(file, from, work.writes.as_slice()),
        _ => None,
    }
}

#[tactic(auto, using(jn_index::proofs::Least::lesser_none, jn_index::proofs::Least::lesser_step))]
fn locked_file(from: u64, works: &[Work]) -> Option<FileNo>
    ensures { result ≡ specs.least_locked (λ (f : FileNo). f.0) (specs.file_from from) works.now }
{
    let mut least = None;
    for work in works {
        least = lesser_file(least, file_held(from, &work.phase));
    }
    least
}

#[tactic(auto, using(jn_index::proofs::Least::lesser_none, jn_index::proofs::Least::lesser_step))]
fn locked_block(file: FileNo, from: u32, works: &[Work]) -> Option<BlockNo>
    ensures { result ≡ specs.least_locked (λ (p : BlockNo). p.0) (specs.block_from file from) works.now }
{
    let mut least = None;
    for work in works {
        least = lesser_block(least, block_held(file, from, &work.phase));
    }
    least
}

/// The least file above `after`, or the least of all, that a prepared work holds for commit as a file. Each work's
/// units are looked at once.
pub fn next_locked(works: &[Work], after: Option<FileNo>) -> Option<FileNo>
    ensures { result ≡ specs.next_locked after works.now }
{
    locked_file(file_after(after), works)
}

/// The least block of the file above `after`, or the least of all, that a prepared work holds for commit.
pub fn next_locked_block(works: &[Work], file: FileNo, after: Option<BlockNo>) -> Option<BlockNo>
    ensures { result ≡ specs.next_locked_block file after works.now }
{
    locked_block(file, block_after(after), works)
}

/// It is the least file above `after` that has a holder for commit, and none exactly where there is no such file; and so of the blocks of a file.
pub fn the_next_locked_unit_is_the_least()
    ensures file { (after : Option FileNo) (t : WorkerTable) → NextAfter (λ (f : FileNo). f.0) (λ f. is_held t (File f)) after (specs.next_locked after t) }
    ensures block { (f : FileNo) (after : Option BlockNo) (t : WorkerTable) → NextAfter (λ (p : BlockNo). p.0) (λ p. is_held t (Block f p)) after (specs.next_locked_block f after t) }
{}
