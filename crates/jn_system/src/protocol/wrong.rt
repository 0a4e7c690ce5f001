//! Wrong rows: for each there is a run at which the commits aren't in order, so the order of commits refuses it.

ghost use Rattle.std.specs.Prelude.{◌≡◌};
ghost use Rattle.jn_order.specs.Files.{no_files};
ghost use Rattle.jn_system.specs.SmallSteps.Steps.{run};
ghost use Rattle.jn_system.specs.SmallSteps.Order.{IsInOrder};
ghost use Rattle.jn_system.specs.WholeSystem.WrongRuns.{start, named_before_the_flag, ready_work_dropped, kept_without_a_record, committed_work_dropped, prepared_work_broken, old_begin_thanks, forgotten_too_soon, reads_freed_at_prepare, reads_not_rebuilt, named_in_another_order};

/// A commit is lost: it is named before its flag is put, its flag goes too soon, or its work does.
pub fn wrong_rows_lose_a_commit()
    ensures named_before_the_flag { IsInOrder no_files (run named_before_the_flag start) → ⊥ }
    ensures ready_work_dropped { IsInOrder no_files (run ready_work_dropped start) → ⊥ }
    ensures kept_without_a_record { IsInOrder no_files (run kept_without_a_record start) → ⊥ }
    ensures committed_work_dropped { IsInOrder no_files (run committed_work_dropped start) → ⊥ }
    ensures prepared_work_broken { IsInOrder no_files (run prepared_work_broken start) → ⊥ }
    ensures old_begin_thanks { IsInOrder no_files (run old_begin_thanks start) → ⊥ }
    ensures forgotten_too_soon { IsInOrder no_files (run forgotten_too_soon start) → ⊥ }
{}

/// Two transactions are answered as in no order: what one read the other changes, or they are named the other way round.
pub fn wrong_rows_mix_the_order()
    ensures reads_freed_at_prepare { IsInOrder no_files (run reads_freed_at_prepare start) → ⊥ }
    ensures reads_not_rebuilt { IsInOrder no_files (run reads_not_rebuilt start) → ⊥ }
    ensures named_in_another_order { IsInOrder no_files (run named_in_another_order start) → ⊥ }
{}
