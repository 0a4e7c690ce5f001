//! Finding works in a list of them, and changing one.
ghost use Rattle.std.specs.Prelude.{◌≡◌};
ghost use Rattle.jn_fields.specs.Reading.{Gives};
ghost use Rattle.jn_rows.specs.Worker as rows;
ghost use Rattle.jn_lock_rows.specs.Calls as calls;

use jn_base::{FileNo, LockUnit, ServerNo, Tid, WorkId};
use jn_records::{ListOf, NetList};
use jn_rows::{ActiveWork, Phase, PreparedWork, Work};
use std::alloc::Global;
use std::mem::replace;

/// The work of this name.
pub fn work_at(works: &[Work], name: WorkId) -> Option<&Work>
    ensures { Gives (λ w. w.now) result (rows.work_at name works.now) }
{
    for work in works {
        if work.name == name {
            return Some(work);
        }
    }
    None
}

/// Puts a work into another phase.
#[tactic(auto, using(crate::proofs::Edits::set_at, crate::proofs::Edits::set_none))]
pub fn set_phase(works: &mut [Work], name: WorkId, phase: Phase)
    ensures { works.new ≡ rows.with_phase name phase works.old }
{
    for i in 0..works.len() {
        if works[i].name == name {
            works[i].phase = phase;
            return;
        }
    }
}

/// An active work's phase once it is stored.
fn stored(phase: Phase) -> Phase
    ensures { result ≡ calls.stored phase }
{
    match phase {
        Phase::Active(work) => Phase::Prepared(PreparedWork {
            reads: work.reads,
            writes: work.writes,
        }),
        other => other,
    }
}

fn store_phase(phase: &mut Phase)
    ensures { phase.new ≡ calls.stored phase.old }
{
    let nowhere = Phase::Broken(
        LockUnit::File(FileNo(0)),
        Tid {
            server: ServerNo(0),
            epoch: 0,
            ticket: 0,
        },
    );
    let old = replace(phase, nowhere);
    *phase = stored(old);
}

/// An active work is stored.
#[tactic(auto, using(crate::proofs::Edits::rephased_none))]
pub(crate) fn store_work(works: &mut [Work], name: WorkId)
    ensures { works.new ≡ calls.rephased name calls.stored works.old }
{
    for i in 0..works.len() {
        if works[i].name == name {
            store_phase(&mut works[i].phase);
            return;
        }
    }
}

/// A work from the moment when it is opened.
pub fn new_work(alloc: Global, tid: Tid, name: WorkId) -> Work
    ensures { result ≡ rows.new_work name tid }
{
    Work {
        name,
        tid,
        phase: Phase::Active(ActiveWork {
            list: NetList::new(alloc),
            reads: ListOf::from_vec(Vec::new(alloc)),
            writes: ListOf::from_vec(Vec::new(alloc)),
            last: 0,
            kept: None,
            vulnerable: false,
        }),
    }
}
