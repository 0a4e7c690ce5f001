//! Fields are read back.
ghost use Rattle.std.specs.Prelude.{◌≡◌, ◌++◌, List, ℕ, Some, true};
ghost use Rattle.jn_base.specs.declared.names.LockUnit.{LockUnit};
ghost use Rattle.jn_base.specs.declared.names.Tid.{Tid};
ghost use Rattle.jn_base.specs.declared.names.WorkId.{WorkId};
ghost use Rattle.jn_fields.specs.Names.{tid_bytes, work_bytes, unit_bytes, TidFits, WorkFits, UnitFits, unit_has_page, tid_at, work_at, unit_at};

/// Names and units are read back from their bytes, whatever follows them.
pub fn fields_are_read_back()
    ensures tids { (t : Tid) (rest : List ℕ) → TidFits t → tid_at (tid_bytes t ++ rest) ≡ Some (t, rest) }
    ensures works { (w : WorkId) (rest : List ℕ) → WorkFits w → work_at (work_bytes w ++ rest) ≡ Some (w, rest) }
    ensures units { (u : LockUnit) (rest : List ℕ) → UnitFits u → unit_has_page u ≡ true → unit_at (unit_bytes u ++ rest) ≡ Some (u, rest) }
{}
