//! Finding works in a list of them, and changing one.
ghost use Rattle.std.specs.Prelude.{◌≡◌, filter, not};
ghost use Rattle.jn_base.specs.Names.{work_eq};
ghost use Rattle.jn_fields.specs.Reading.{Gives};
ghost use Rattle.jn_locks.specs.declared.words.Mode.TheVariants.{Commit};
ghost use Rattle.jn_locks.specs.Locks.{is_unit};
ghost use Rattle.jn_rows.specs.Worker as rows;
ghost use Rattle.jn_storage.specs.Listing.{is_in};
ghost use Rattle.jn_lock_rows.specs.Calls.{rephased};
ghost use Rattle.jn_works.specs.Changing.{going_in};

use jn_base::{LockUnit, Tid, WorkId};
use jn_rows::{Phase, Work};

/// The first work of a transaction.
pub fn work_of(works: &[Work], tid: Tid) -> Option<&Work>
    ensures { Gives (λ w. w.now) result (rows.work_of tid works.now) }
{
    for work in works {
        if work.tid == tid {
            return Some(work);
        }
    }
    None
}

/// Whether a unit stands in a list.
fn is_unit(units: &[LockUnit], unit: LockUnit) -> bool
    ensures { result ≡ is_unit units.now unit }
{
    for other in units {
        if *other == unit {
            return true;
        }
    }
    false
}

/// Whether a name stands in a list.
pub fn is_in(names: &[WorkId], name: WorkId) -> bool
    ensures { result ≡ is_in work_eq name names.now }
{
    for other in names {
        if *other == name {
            return true;
        }
    }
    false
}

/// The first going work.
pub fn going_work<'a>(works: &'a [Work], going: &[WorkId]) -> Option<&'a Work>
    ensures { Gives (λ w. w.now) result (going_in going.now works.now) }
{
    for work in works {
        if is_in(going, work.name) {
            return Some(work);
        }
    }
    None
}

/// Whether a work in this phase holds the unit for commit.
fn holds_for_commit(phase: &Phase, unit: LockUnit) -> bool
    ensures { result ≡ rows.holds phase.now unit Commit }
{
    match phase {
        Phase::Prepared(work) => is_unit(work.writes.as_slice(), unit),
        _ => false,
    }
}

/// The transaction of the prepared work that holds the unit for commit.
pub fn commit_holder(works: &[Work], unit: LockUnit) -> Option<Tid>
    ensures { result ≡ rows.commit_holder unit works.now }
{
    for work in works {
        if holds_for_commit(&work.phase, unit) {
            return Some(work.tid);
        }
    }
    None
}

/// Takes a work away.
pub fn remove(works: &mut Vec<Work>, name: WorkId)
    ensures { works.new.items ≡ rows.without name works.old.items }
{
    for i in 0..works.len() {
        if works[i].name == name {
            works.remove(i);
            return;
        }
    }
}

fn make_vulnerable(phase: &mut Phase)
    ensures { phase.new ≡ rows.vulnerable phase.old }
{
    if let Phase::Active(work) = phase {
        work.vulnerable = true;
    }
}

/// From now on an active work gives way.
#[tactic(auto, using(jn_lock_rows::proofs::Edits::rephased_none))]
pub fn expose(works: &mut Vec<Work>, name: WorkId)
    ensures { works.new.items ≡ rephased name rows.vulnerable works.old.items }
{
    for i in 0..works.len() {
        if works[i].name == name {
            make_vulnerable(&mut works[i].phase);
            return;
        }
    }
}

/// Takes a name from a list.
pub fn forget_name(names: &mut Vec<WorkId>, name: WorkId)
    ensures { names.new.items ≡ filter (λ (other : WorkId). not (work_eq name other)) names.old.items }
{
    names.retain(|other| name != *other);
}
