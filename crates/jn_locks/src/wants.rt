//! Lists of wants.

ghost use Rattle.std.specs.Prelude.{◌≡◌, ◌||◌, ◌&&◌, ◌++◌, IfOk};
ghost use Rattle.jn_base.specs.declared.names.LockUnit.{LockUnit};
ghost use Rattle.jn_locks.specs.declared.words.Mode.{Mode};
ghost use Rattle.jn_locks.specs.Locks as locks;
ghost use Rattle.jn_locks.specs.Asked as asked;
ghost use Rattle.jn_locks.specs.Loops as loops;
ghost use Rattle.jn_locks.specs.Tables as tables;

use crate::held::Held;
use crate::words::{Holder, Mode, Want};
use jn_base::{LockUnit, WorkId};
use std::alloc::{AllocError, Global};

/// Wants the units in a mode.
fn push_units(wants: &mut Vec<Want>, units: &[LockUnit], mode: Mode) -> Result<(), AllocError>
    ensures { IfOk result (λ _. (u : LockUnit) (m : Mode) → locks.wanted wants.new.items u m ≡ (locks.wanted wants.old.items u m || (locks.is_unit units.now u && locks.mode_eq mode m))) }
{
    for unit in units {
        wants.push(Want { unit: *unit, mode })?;
    }
    Ok(())
}

/// What a restart makes of the units that a prepared work writes and reads.
pub(crate) fn unit_wants(
    alloc: Global,
    commits: &[LockUnit],
    reads: &[LockUnit],
) -> Result<Vec<Want>, AllocError>
    ensures { IfOk result (λ v. (u : LockUnit) (m : Mode) → locks.wanted v.items u m ≡ locks.rebuilt commits.now reads.now u m) }
{
    let mut wants = Vec::new(alloc);
    push_units(&mut wants, commits, Mode::Commit)?;
    push_units(&mut wants, reads, Mode::Read)?;
    Ok(wants)
}

impl Held {
    /// Where the work holds intention-write, as wants for commit.
    pub(crate) fn commit_wants(&self, alloc: Global, work: WorkId) -> Result<Vec<Want>, AllocError>
        ensures { IfOk result (λ v. v.items ≡ loops.intentions (tables.at self.now.units) work (tables.units_of self.now.works work)) }
    {
        let mut wants = Vec::new(alloc);
        for unit in self.works.units(work) {
            if self.intends(work, *unit) {
                wants.push(Want {
                    unit: *unit,
                    mode: Mode::Commit,
                })?;
            }
        }
        Ok(wants)
    }

    /// Who holds the unit, and how.
    pub(crate) fn holders(
        &self,
        alloc: Global,
        unit: LockUnit,
    ) -> Result<Vec<(WorkId, Mode)>, AllocError>
        requires { tables.IsSoundTable self.now }
        ensures { IfOk result (λ v. asked.AreHolders (tables.table_of self.now) unit v.items) }
    {
        let mut locks = Vec::new(alloc);
        for h in self.units.at(unit) {
            push_locks(&mut locks, *h)?;
        }
        Ok(locks)
    }
}

fn push_lock(
    locks: &mut Vec<(WorkId, Mode)>,
    is_held: bool,
    work: WorkId,
    mode: Mode,
) -> Result<(), AllocError>
    ensures { IfOk result (λ _. locks.new.items ≡ locks.old.items ++ loops.lock_if is_held work mode) }
{
    if is_held {
        locks.push((work, mode))?;
    }
    Ok(())
}

/// Adds the locks of one holder.
fn push_locks(locks: &mut Vec<(WorkId, Mode)>, holder: Holder) -> Result<(), AllocError>
    ensures { IfOk result (λ _. locks.new.items ≡ locks.old.items ++ loops.locks_of holder) }
{
    push_lock(locks, holder.modes.read, holder.work, Mode::Read)?;
    push_lock(
        locks,
        holder.modes.intention_write,
        holder.work,
        Mode::IntentionWrite,
    )?;
    push_lock(locks, holder.modes.commit, holder.work, Mode::Commit)
}
