//! Reports of one server with faults and crashes, from new images on good pages: seven schedules with the only report that each has, and what is reported by none.

ghost use Rattle.std.specs.Prelude.{◌≡◌, ◌≢◌, ℕ, nat_lt, false, [], ◌∷◌};
ghost use Rattle.jn_base.specs.declared.device.FaultKind.{FaultKind};
ghost use Rattle.jn_base.specs.declared.device.FaultKind.TheVariants.{Null, Bad};
ghost use Rattle.jn_machine.specs.Chances.{Allows};
ghost use Rattle.jn_machine.specs.Examples.{calm, calmly, at_step, stopped, report};
ghost use Rattle.jn_wrong.specs.Wrong.{quiet_report};
ghost use Rattle.jn_wrong.specs.Faults.{IsOnlyOfGood, IsNoneOfGood, Computes, decays_once, first_decay_told, decays_both, both_report, decays_behind_scrub, nothing_mended, decays_with_power, forgiven_report, nothing_forgiven, decays_behind_restart, restarted_report, left_unmended, arms_two, armed_too_many, arms_far, show_stopped, arms_first, stop_met, stop_passed_by, arms_in_order, outside_in_order, outside_swapped, arms_null, null_told};
ghost use Rattle.jn_rows.specs.Stable.{whole_only};

/// Each whole run of these schedules reports exactly this, whatever befalls it.
pub fn reports_with_faults_are_the_only_ones()
    ensures decay { IsOnlyOfGood decays_once quiet_report }
    ensures both_halves { IsOnlyOfGood decays_both both_report }
    ensures scrub { IsOnlyOfGood decays_behind_scrub quiet_report }
    ensures power { IsOnlyOfGood decays_with_power forgiven_report }
    ensures restart { IsOnlyOfGood decays_behind_restart restarted_report }
    ensures two_faults { IsOnlyOfGood arms_two quiet_report }
    ensures far_off { IsOnlyOfGood arms_far quiet_report }
{}

/// The right reports of the same schedules, each computed as a run to its end. Its chances are written by hand: nothing strikes, and the one decay that isn't allowed is that of a half whose other one is bad.
pub fn reports_with_faults_are_computed()
    ensures decay { Computes calmly decays_once quiet_report }
    ensures both_halves { Computes (at_step 4 (record calm { found = Allows false }) calmly) decays_both both_report }
    ensures scrub { Computes calmly decays_behind_scrub quiet_report }
    ensures power { Computes calmly decays_with_power forgiven_report }
    ensures restart { Computes calmly decays_behind_restart restarted_report }
    ensures two_faults { Computes calmly arms_two quiet_report }
    ensures far_off { Computes calmly arms_far quiet_report }
{}

/// The first decay of a page is reported as refused.
pub fn a_first_decay_told_as_refused_is_none()
    ensures { IsNoneOfGood decays_once first_decay_told }
{}

/// A decay is passed over, so that the page's other half may decay too.
pub fn a_decay_passed_over_is_none()
    ensures { IsNoneOfGood decays_both quiet_report }
{}

/// A half that had gone bad before a scrub is bad behind it, so that the other one may not decay.
pub fn a_scrub_that_mends_nothing_is_none()
    ensures { IsNoneOfGood decays_behind_scrub nothing_mended }
{}

/// A page that has failed three times may not fail again, though the power went and came.
pub fn a_power_up_that_forgives_nothing_is_none()
    ensures { IsNoneOfGood decays_with_power nothing_forgiven }
{}

/// A half that had gone bad before a restart which nothing disturbs is bad behind it, so that the other one may not decay.
pub fn a_restart_that_mends_nothing_is_none()
    ensures { IsNoneOfGood decays_behind_restart left_unmended }
{}

/// A fault is refused as one too many for a call for which none can wait.
pub fn a_fault_refused_for_a_free_call_is_none()
    ensures { IsNoneOfGood arms_two armed_too_many }
{}

/// A show is stopped by a stop that waits for call 1,000,000.
pub fn a_show_that_meets_a_stop_far_off_is_none()
    ensures { IsNoneOfGood arms_far show_stopped }
{}

/// A restart, which must raise the epoch, passes by a stop that waits for its first call.
pub fn a_stop_passed_by_is_none()
    ensures { IsNoneOfGood arms_first stop_passed_by }
{}

/// The right report of the same schedule, computed: there the restart is stopped.
pub fn a_stop_at_a_first_call_is_met()
    ensures { report 1 (at_step 6 (stopped (λ c. whole_only 0)) calmly) 60 arms_first ≡ stop_met }
{}

/// Of two faults that a restart reports, the one that met the later call stands first.
pub fn faults_told_in_another_order_are_none()
    ensures { (p r : ℕ) → IsNoneOfGood arms_in_order (outside_swapped p r) }
{}

/// The right report of the same schedule, computed: the two lines stand the other way round.
pub fn faults_are_told_in_the_order_of_their_calls()
    ensures { (p r : ℕ) → report 1 (at_step 8 (record calm { told = (record { kind = Null; page = p }) ∷ (record { kind = Bad; page = r }) ∷ [] }) calmly) 60 arms_in_order ≡ outside_in_order p r }
{}

/// A fault is reported at a page that isn't there.
pub fn a_fault_at_a_page_that_is_not_there_is_none()
    ensures { (page : ℕ) → nat_lt page 354 ≡ false → IsNoneOfGood arms_null (null_told Null page) }
{}

/// Another fault is reported than the one that was to wait.
pub fn a_fault_that_was_never_armed_is_none()
    ensures { (kind : FaultKind) → kind ≢ Null → (page : ℕ) → IsNoneOfGood arms_null (null_told kind page) }
{}

/// The right report of the same schedule, computed: that one line reports the fault that waited, at whichever page the call met.
pub fn a_fault_that_waited_is_told()
    ensures { (page : ℕ) → report 1 (at_step 6 (record calm { told = (record { kind = Null; page = page }) ∷ [] }) calmly) 60 arms_null ≡ null_told Null page }
{}
