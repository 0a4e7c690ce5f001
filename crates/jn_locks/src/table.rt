//! The lock table as its users see it.

ghost use Rattle.std.specs.Prelude.{◌≡◌, None, false, IfOk, IfErr, OnOk, OnErr, MatchResult};
ghost use Rattle.jn_base.specs.declared.names.WorkId.{WorkId};
ghost use Rattle.jn_base.specs.declared.names.LockUnit.{LockUnit};
ghost use Rattle.jn_locks.specs.declared.words.Mode.{Mode};
ghost use Rattle.jn_locks.specs.Locks.{wanted, commit_wants, IsCompatible, rebuilt};
ghost use Rattle.jn_locks.specs.Asked.{Asks, Commits, Rebuilds, Releases, Exposes, LocksFit, NoConflict, IsRefusal, IsConflictFault, AreHolders};
ghost use Rattle.jn_locks.specs.Tables.{table_of, IsSoundTable};

use crate::held::Held;
use crate::words::{Broken, LockFault, Mode, Want};
use jn_base::{LockUnit, WorkId};
use std::alloc::{AllocError, Global};
use std::marker::Model;

/// The works that a grant broke, in rising order of their names: contracts see the list.
#[derive(Drop)]
pub struct Granted {
    broken: Vec<Broken>,
}

impl Model for Granted {
    ghost use Rattle.std.specs.Prelude.{List};
    ghost use Rattle.jn_locks.specs.declared.words.Broken.{Broken};

    ghost Value = { List Broken };

    ghost view = { λ g. g.broken.items };
}

impl Granted {
    pub fn broken(&self) -> &[Broken]
        ensures { result.now ≡ self.now }
    {
        self.broken.as_slice()
    }
}

/// Which work holds which unit in which mode, and how each work stands that is known. No two works hold modes that don't go
/// together. A work is known from its first granted request, which may want nothing, or its rebuild, until it is released
/// or broken. One that isn't known can't be made vulnerable: it doesn't give way once it is known. So its users ask for
/// nothing where a work begins.
#[derive(Drop)]
pub struct LockTable {
    held: Held,
    ghost compatible: { IsCompatible (table_of held) },
    ghost sound: { IsSoundTable held },
}

impl LockTable {
    ghost use Rattle.jn_locks.specs.LockTables.{table};

    /// Nothing is held, and no work is known.
    pub fn new(alloc: Global) -> LockTable
        ensures holds { (V : WorkId) (u : LockUnit) (m : Mode) → (table result).holds V u m ≡ false }
        ensures standing { (V : WorkId) → (table result).standing V ≡ None }
    {
        LockTable {
            held: Held::new(alloc),
        }
    }

    /// Grants all that the work wants, and breaks the vulnerable works in the way, or changes nothing.
    pub fn ask(&mut self, alloc: Global, work: WorkId, wants: &[Want]) -> Result<Granted, LockFault>
        ensures granted { IfOk result (λ bs. Asks (table self.old) work (wanted wants.now) bs (table self.new)) }
        ensures refused { IfErr result (IsRefusal (table self.old) work (wanted wants.now)) }
        ensures unchanged { OnErr result (table self.new ≡ table self.old) }
    {
        let broken = self.held.ask(alloc, work, wants)?;
        Ok(Granted { broken })
    }

    /// Turns the work's locks for intention-write into commit locks, and breaks the vulnerable works in the way, or
    /// changes nothing.
    pub fn to_commit(&mut self, alloc: Global, work: WorkId) -> Result<Granted, LockFault>
        ensures granted { IfOk result (λ bs. Commits (table self.old) work (commit_wants (table self.old) work) bs (table self.new)) }
        ensures refused { IfErr result (IsRefusal (table self.old) work (commit_wants (table self.old) work)) }
        ensures unchanged { OnErr result (table self.new ≡ table self.old) }
    {
        let broken = self.held.commit(alloc, work)?;
        Ok(Granted { broken })
    }

    /// Whether `to_commit` would find no conflict; the error is a conflict.
    pub fn test_commit(&self, work: WorkId) -> Result<(), LockFault>
        ensures { MatchResult result (λ _. NoConflict (table self.now) work (commit_wants (table self.now) work)) (IsConflictFault (table self.now) work (commit_wants (table self.now) work)) }
    {
        self.held.test_commit(work)
    }

    /// The work is prepared, as a restart finds it: it holds commit locks on the units that it writes and reads the
    /// others. Without memory nothing changes.
    pub fn rebuild(
        &mut self,
        alloc: Global,
        work: WorkId,
        commits: &[LockUnit],
        reads: &[LockUnit],
    ) -> Result<(), AllocError>
        requires { LocksFit (table self.old) work (rebuilt commits.now reads.now) }
        ensures rebuilt { OnOk result (Rebuilds (table self.old) work (rebuilt commits.now reads.now) (table self.new)) }
        ensures unchanged { OnErr result (table self.new ≡ table self.old) }
    {
        self.held.rebuild(alloc, work, commits, reads)
    }

    /// From now on the work gives way, if it is known and not prepared.
    pub fn make_vulnerable(&mut self, work: WorkId)
        ensures { Exposes (table self.old) work (table self.new) }
    {
        self.held.works.make_vulnerable(work);
    }

    /// Forgets the work.
    pub fn release(&mut self, work: WorkId)
        ensures { Releases (table self.old) work (table self.new) }
    {
        self.held.release(work);
    }

    /// Who holds the unit, and how: each lock once.
    pub fn holders(&self, alloc: Global, unit: LockUnit) -> Result<Vec<(WorkId, Mode)>, AllocError>
        ensures { IfOk result (λ v. AreHolders (table self.now) unit v.items) }
    {
        self.held.holders(alloc, unit)
    }
}
