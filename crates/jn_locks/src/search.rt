//! What stands in a work's way at the units that it wants.

ghost use Rattle.std.specs.Prelude.{◌≡◌, [], None, true, IfOk, IfErr, MatchResult};
ghost use Rattle.jn_base.specs.declared.names.LockUnit.{LockUnit};
ghost use Rattle.jn_locks.specs.declared.words.Mode.{Mode};
ghost use Rattle.jn_locks.specs.declared.words.Mode.TheVariants.{IntentionWrite};
ghost use Rattle.jn_locks.specs.Locks as locks;
ghost use Rattle.jn_locks.specs.Loops as loops;
ghost use Rattle.jn_locks.specs.Asked as asked;
ghost use Rattle.jn_locks.specs.Tables as tables;
ghost use Rattle.jn_locks.specs.Tables.{IsSoundTable};

use crate::broken::add_broken;
use crate::held::Held;
use crate::holders::is_intended;
use crate::modes::clashes;
use crate::order::{unit_before, unit_eq, work_before, work_eq};
use crate::words::{Broken, Conflict, Holder, LockFault, Mode, Standing, Want};
use jn_base::{LockUnit, WorkId};
use std::alloc::{AllocError, Global};

/// The lesser of two conflicts: at the earlier unit, and there with the lesser work.
fn lesser_conflict(best: Option<Conflict>, c: Conflict) -> Conflict
    ensures { result ≡ loops.lesser loops.conflict_before best c }
{
    match best {
        None => c,
        Some(b) => {
            if unit_before(c.unit, b.unit)
                || (unit_eq(c.unit, b.unit) && work_before(c.holder, b.holder))
            {
                c
            } else {
                b
            }
        }
    }
}

fn holder_collides(work: WorkId, mode: Mode, holder: &Holder) -> bool
    ensures { result ≡ loops.holder_collides work mode holder.now }
{
    !work_eq(holder.work, work) && clashes(mode, holder.modes)
}

impl Held {
    fn gives_way(&self, work: WorkId) -> bool
        ensures { result ≡ locks.gives_way (tables.table_of self.now) work }
    {
        matches!(self.works.standing(work), Some(Standing::Vulnerable))
    }

    /// The least conflict among the holders of one wanted unit, or the best so far.
    fn conflict_among(
        &self,
        best: Option<Conflict>,
        work: WorkId,
        want: Want,
        holders: &[Holder],
    ) -> Option<Conflict>
        ensures { result ≡ loops.least_conflict (tables.table_of self.now) best (loops.collisions_at work want holders.now) }
    {
        let mut best = best;
        for holder in holders {
            if holder_collides(work, want.mode, holder) && !self.gives_way(holder.work) {
                best = Some(lesser_conflict(
                    best,
                    Conflict {
                        unit: want.unit,
                        holder: holder.work,
                    },
                ));
            }
        }
        best
    }

    /// The least conflict at one wanted unit, or the best so far.
    fn conflict_at(&self, best: Option<Conflict>, work: WorkId, want: Want) -> Option<Conflict>
        ensures { result ≡ loops.least_conflict (tables.table_of self.now) best (loops.collisions_at work want (tables.at self.now.units want.unit)) }
    {
        self.conflict_among(best, work, want, self.units.at(want.unit))
    }

    /// The least conflict at the units that the work wants.
    fn first_conflict(&self, work: WorkId, wants: &[Want]) -> Option<Conflict>
        ensures { result ≡ loops.least_conflict (tables.table_of self.now) None (loops.collisions (tables.at self.now.units) work wants.now) }
    {
        let mut best = None;
        for want in wants {
            best = self.conflict_at(best, work, *want);
        }
        best
    }

    /// Whether nothing stands in the way of these wants.
    pub(crate) fn test(&self, work: WorkId, wants: &[Want]) -> Result<(), LockFault>
        ensures { let t = tables.table_of self.now in
            MatchResult result (λ _. asked.NoConflict t work (locks.wanted wants.now)) (asked.IsConflictFault t work (locks.wanted wants.now)) }
    {
        match self.first_conflict(work, wants) {
            None => Ok(()),
            Some(c) => Err(LockFault::Conflict(c)),
        }
    }

    /// Whether no other work holds a wanted unit in a mode that doesn't go with the wanted one.
    fn is_alone_at(&self, work: WorkId, want: Want) -> bool
        ensures { result ≡ true → loops.collisions_at work want (tables.at self.now.units want.unit) ≡ [] }
    {
        for holder in self.units.at(want.unit) {
            if holder_collides(work, want.mode, holder) {
                return false;
            }
        }
        true
    }

    /// The same at each wanted unit.
    fn is_alone(&self, work: WorkId, wants: &[Want]) -> bool
        ensures { result ≡ true → loops.collisions (tables.at self.now.units) work wants.now ≡ [] }
    {
        for want in wants {
            if !self.is_alone_at(work, *want) {
                return false;
            }
        }
        true
    }

    #[tactic(auto, using(crate::proofs::Conflicts::alone_free, crate::proofs::Breaks::alone_broken))]
    /// The works that give way where nothing stands in the way of these wants. Most works are alone, and need one look
    /// at each unit.
    pub(crate) fn clear(
        &self,
        alloc: Global,
        work: WorkId,
        wants: &[Want],
    ) -> Result<Vec<Broken>, LockFault>
        ensures free { IfOk result (λ _. asked.NoConflict (tables.table_of self.now) work (locks.wanted wants.now)) }
        ensures broken { IfOk result (λ v. asked.AreBroken (tables.table_of self.now) work (locks.wanted wants.now) v.items) }
        ensures refused { IfErr result (asked.IsRefusal (tables.table_of self.now) work (locks.wanted wants.now)) }
    {
        if self.is_alone(work, wants) {
            return Ok(Vec::new(alloc));
        }
        self.test(work, wants)?;
        Ok(self.broken(alloc, work, wants)?)
    }

    /// Whether the work holds the unit for intention-write.
    pub(crate) fn intends(&self, work: WorkId, unit: LockUnit) -> bool
        ensures { result ≡ (tables.table_of self.now).holds work unit IntentionWrite }
    {
        is_intended(self.units.at(unit), work)
    }

    /// The least conflict at a unit that the work is to write, or the best so far.
    fn commit_conflict_at(
        &self,
        best: Option<Conflict>,
        work: WorkId,
        unit: LockUnit,
    ) -> Option<Conflict>
        ensures { result ≡ loops.least_conflict (tables.table_of self.now) best (loops.intended_at (tables.at self.now.units) work unit) }
    {
        let holders = self.units.at(unit);
        if !is_intended(holders, work) {
            return best;
        }
        let want = Want {
            unit,
            mode: Mode::Commit,
        };
        self.conflict_among(best, work, want, holders)
    }

    /// The least conflict where the work holds intention-write and wants to hold for commit.
    fn first_commit_conflict(&self, work: WorkId) -> Option<Conflict>
        ensures { result ≡ loops.least_conflict (tables.table_of self.now) None (loops.collisions (tables.at self.now.units) work (loops.intentions (tables.at self.now.units) work (tables.units_of self.now.works work))) }
    {
        let mut best = None;
        for unit in self.works.units(work) {
            best = self.commit_conflict_at(best, work, *unit);
        }
        best
    }

    /// Whether nothing stands in the way of commit locks in place of those for intention-write.
    pub(crate) fn test_commit(&self, work: WorkId) -> Result<(), LockFault>
        requires { IsSoundTable self.now }
        ensures { let t = tables.table_of self.now in
            MatchResult result (λ _. asked.NoConflict t work (locks.commit_wants t work)) (asked.IsConflictFault t work (locks.commit_wants t work)) }
    {
        match self.first_commit_conflict(work) {
            None => Ok(()),
            Some(c) => Err(LockFault::Conflict(c)),
        }
    }

    /// Adds the works that give way at one wanted unit.
    fn add_broken_at(
        &self,
        broken: &mut Vec<Broken>,
        work: WorkId,
        want: Want,
    ) -> Result<(), AllocError>
        ensures { IfOk result (λ _. broken.new.items ≡ loops.all_broken (loops.makes_way (tables.table_of self.now)) broken.old.items (loops.collisions_at work want (tables.at self.now.units want.unit))) }
    {
        for holder in self.units.at(want.unit) {
            if holder_collides(work, want.mode, holder) && self.gives_way(holder.work) {
                add_broken(
                    broken,
                    Broken {
                        work: holder.work,
                        unit: want.unit,
                    },
                )?;
            }
        }
        Ok(())
    }

    /// The works that give way at the units that the work wants.
    fn broken(&self, alloc: Global, work: WorkId, wants: &[Want]) -> Result<Vec<Broken>, AllocError>
        ensures { IfOk result (λ v. asked.AreBroken (tables.table_of self.now) work (locks.wanted wants.now) v.items) }
    {
        let mut broken = Vec::new(alloc);
        for want in wants {
            self.add_broken_at(&mut broken, work, *want)?;
        }
        Ok(broken)
    }
}
