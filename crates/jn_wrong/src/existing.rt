//! Whole runs that are there: images of a new server, and a device whose calls are such as the written machine allows at each step.
//! They need not be those of the code: each restart that isn't stopped puts one half of a record anew, and then the root.

ghost use Rattle.std.specs.Prelude.{[]};
ghost use Rattle.jn_base.specs.declared.device.FaultKind.TheVariants.{Null};
ghost use Rattle.jn_wrong.specs.Wrong.{quiet_report};
ghost use Rattle.jn_wrong.specs.Faults.{IsOneOfGood, decays_once, decays_both, both_report, decays_behind_scrub, decays_with_power, forgiven_report, decays_behind_restart, restarted_report, arms_two, arms_far, arms_first, stop_met, arms_in_order, outside_in_order, arms_null, null_told};

/// A run without events comes to its end, from the image of a new server.
pub fn a_run_without_events_is_there()
    ensures { IsOneOfGood [] quiet_report }
{}

/// Each of these schedules has a whole run with its right report. So the law on its only report speaks of some run.
pub fn runs_with_faults_are_there()
    ensures decay { IsOneOfGood decays_once quiet_report }
    ensures both_halves { IsOneOfGood decays_both both_report }
    ensures scrub { IsOneOfGood decays_behind_scrub quiet_report }
    ensures power { IsOneOfGood decays_with_power forgiven_report }
    ensures restart { IsOneOfGood decays_behind_restart restarted_report }
    ensures two_faults { IsOneOfGood arms_two quiet_report }
    ensures far_off { IsOneOfGood arms_far quiet_report }
{}

/// So have those in which a stop or faults wait for a restart. Its first calls there are gets of the root's halves, pages 0 and 177.
pub fn runs_struck_at_a_restart_are_there()
    ensures stop { IsOneOfGood arms_first stop_met }
    ensures one_fault { IsOneOfGood arms_null (null_told Null 0) }
    ensures two_faults { IsOneOfGood arms_in_order (outside_in_order 0 177) }
{}
