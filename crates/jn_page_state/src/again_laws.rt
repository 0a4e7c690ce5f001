//! Why a recovery may carry out a work from its start again.
ghost use Rattle.std.specs.Prelude.{◌≡◌, List, map};
ghost use Rattle.jn_base.specs.declared.names.WorkId.{WorkId};
ghost use Rattle.jn_records.specs.declared.intention.Intention.{Intention};
ghost use Rattle.jn_records.specs.NetLists.{carried_out};
ghost use Rattle.jn_rows.specs.Stable.{StableState, Left, made_all, CarryOut};
ghost use Rattle.jn_page_state.specs.Recovery.{after_turns};

/// A work that was carried out in part, any number of times, each with a cut in part at its end, and is carried out from its
/// start by the next recovery leaves the same state as one that was carried out at once.
pub fn a_recovery_may_carry_out_again()
    ensures files { (work : WorkId) (list : List Intention) (x : StableState) → made_all (map (λ i. CarryOut work i) list) x ≡ record x { files = carried_out list x.files } }
    ensures again { (work : WorkId) (list : List Intention) (turns : List Left) (x : StableState)
        → made_all (map (λ i. CarryOut work i) list) (after_turns (map (λ i. CarryOut work i) list) turns x) ≡ made_all (map (λ i. CarryOut work i) list) x }
{}
