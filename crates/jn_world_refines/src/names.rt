//! What a restart names.

ghost use Rattle.std.specs.Prelude.{◌≡◌, ◌||◌, Bool, true, List};
ghost use Rattle.std.specs.List.{list_any};
ghost use Rattle.jn_base.specs.declared.names.Tid.{Tid};
ghost use Rattle.jn_base.specs.Names.{tid_eq};
ghost use Rattle.jn_system.specs.WholeSystem.Servers.{named_now};
ghost use Rattle.jn_system.specs.WholeSystem.Steps.{are_rising, tid_before};
ghost use Rattle.jn_system.specs.WholeSystem.World.{has_line};
ghost use Rattle.jn_report.specs.declared.line.Text.{Text};
ghost use Rattle.jn_world_refines.specs.Naming.{named_by, names_told};

/// A loop over rising names that names each one that isn't named yet reports what a restart of the system reports, and then these are named
/// besides.
pub fn a_loop_names_what_a_restart_names()
    ensures told { (tids : List Tid) (lines : List Text) (named : Tid → Bool) → are_rising tid_before tids ≡ true
        → ((tid : Tid) → list_any (λ other. tid_eq other tid) tids ≡ true → named tid ≡ has_line tid lines) → names_told tids named ≡ named_now tids lines }
    ensures named { (tids : List Tid) (named : Tid → Bool) → named_by tids named ≡ (λ tid. has_line tid (names_told tids named) || named tid) }
{}
