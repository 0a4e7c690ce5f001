//! The steps of the whole system as steps of the machine: what stands where, and that each step keeps it.

ghost use Rattle.std.specs.Prelude.{◌≡◌, ℕ, true, List};
ghost use Rattle.jn_base.specs.declared.names.ServerNo.{ServerNo};
ghost use Rattle.jn_order.specs.Files.{AllFiles};
ghost use Rattle.jn_system.specs.SmallSteps.Steps.{Atom, opening_world, run as run_atoms};
ghost use Rattle.jn_system.specs.SmallSteps.Premises.{MayRun};
ghost use Rattle.jn_system.specs.WholeSystem.World.{opening};
ghost use Rattle.jn_system.specs.WholeSystem.Steps.{Step, after, run, IsStep, IsRun};
ghost use Rattle.jn_system_order.specs.Mirroring.Mirrors.{Mirrors, MovesTo, is_shown};

/// The machine of small steps starts where the whole system does. Wherever it stands where the whole system does, after
/// any steps, and any step comes but that a client sends an End, there are steps of the machine that may come, after which it
/// stands there again.
pub fn steps_are_moves()
    ensures start { (servers : ℕ) (files : AllFiles) (epochs : ServerNo → ℕ) → Mirrors (opening servers files epochs) (opening_world files epochs) }
    ensures step { (servers : ℕ) (files : AllFiles) (epochs : ServerNo → ℕ) (steps : List Step) (atoms : List Atom)
        → IsRun steps (opening servers files epochs) → MayRun atoms (opening_world files epochs)
        → Mirrors (run steps (opening servers files epochs)) (run_atoms atoms (opening_world files epochs))
        → (step : Step) → IsStep step (run steps (opening servers files epochs)) → is_shown step ≡ true
        → MovesTo (after step (run steps (opening servers files epochs))) (run_atoms atoms (opening_world files epochs)) }
{}
