//! Runs of schedules, computed: their reports, with chances written by hand.

ghost use Rattle.jn_rows.specs.Stable.{whole_only};
ghost use Rattle.std.specs.Prelude.{◌≡◌, true, false, [], ◌∷◌, Some};
ghost use Rattle.jn_base.specs.declared.device.FaultKind.TheVariants as faults;
ghost use Rattle.jn_schedule.specs.declared.Event.TheVariants as events;
ghost use Rattle.jn_system.specs.WholeSystem.ExampleNames.{s0, s1, tid, half_made, the_work};
ghost use Rattle.jn_machine.specs.Chances.{Allows, Recovered};
ghost use Rattle.jn_machine.specs.Examples.{calm, calmly, at_step, stopped, finding, report, a_reader_gives_way, a_prepare_is_stopped, restarts_are_stopped, pages_fail, events_are_refused, half_prepared, half_committed};
ghost use Rattle.jn_machine.specs.ExampleReports.{nothing_happens_report, refusals_are_told_report, a_prepare_stops_report, a_half_prepared_work_is_found_report, a_half_prepared_work_decays_report, a_half_written_flag_is_found_report, a_half_written_flag_decays_report, restarts_stop_early_report, restarts_stop_late_report, failing_pages_are_told_report, a_reader_is_broken_report, a_coordinator_is_stopped_twice_report};

/// A schedule without an event: the server comes up, goes down and comes up again.
#[tactic(auto, using(crate::proofs::Reports::nothing_happens))]
pub fn nothing_happens()
    ensures { report 1 calmly 40 [] ≡ nothing_happens_report }
{}

/// Each event that is refused has its number, and changes nothing.
#[tactic(auto, using(crate::proofs::Reports::refusals_are_told))]
pub fn refusals_are_told()
    ensures { report 1 calmly 60 events_are_refused ≡ refusals_are_told_report }
{}

/// A server is stopped while it prepares a work, which it has lost after its restart.
#[tactic(auto, using(crate::proofs::Reports::a_prepare_stops))]
pub fn a_prepare_stops()
    ensures { report 1 (at_step 61 (stopped (λ c. whole_only 0)) calmly) 150 a_prepare_is_stopped ≡ a_prepare_stops_report }
{}

/// Half a ready record is written: the restart finds it, and the commit goes on.
#[tactic(auto, using(crate::proofs::Reports::a_half_prepared_work_is_found))]
pub fn a_half_prepared_work_is_found()
    ensures { report 2 (at_step 65 (stopped half_made) (at_step 81 (finding true (the_work ∷ []) []) calmly)) 200 (half_prepared (events.Restart s0 ∷ events.Settle ∷ [])) ≡ a_half_prepared_work_is_found_report }
{}

/// That half goes bad: the restart doesn't find it, and the work is lost.
#[tactic(auto, using(crate::proofs::Reports::a_half_prepared_work_decays))]
pub fn a_half_prepared_work_decays()
    ensures { report 2 (at_step 65 (stopped half_made) calmly) 200 (half_prepared (events.Decay s0 2 ∷ events.Restart s0 ∷ events.Settle ∷ [])) ≡ a_half_prepared_work_decays_report }
{}

/// Half a flag is written: the restart finds it and names the commit.
#[tactic(auto, using(crate::proofs::Reports::a_half_written_flag_is_found))]
pub fn a_half_written_flag_is_found()
    ensures { report 2 (at_step 66 (stopped half_made) (at_step 82 (finding true [] (tid s1 0 ∷ [])) calmly)) 200 (half_committed (events.Restart s1 ∷ events.Settle ∷ [])) ≡ a_half_written_flag_is_found_report }
{}

/// That half goes bad: the restart doesn't find it, and the transaction is aborted.
#[tactic(auto, using(crate::proofs::Reports::a_half_written_flag_decays))]
pub fn a_half_written_flag_decays()
    ensures { report 2 (at_step 66 (stopped half_made) calmly) 200 (half_committed (events.Decay s1 1 ∷ events.Restart s1 ∷ events.Settle ∷ [])) ≡ a_half_written_flag_decays_report }
{}

/// Two restarts are stopped before the root's put, and the third one comes up in the next epoch: the lines to the end's restart.
pub fn restarts_stop_early()
    ensures { report 1 (at_step 102 (stopped (λ c. whole_only 0)) (at_step 106 (stopped (λ c. whole_only 0)) calmly)) 115 (restarts_are_stopped (events.Arm s0 404 faults.StopTorn)) ≡ restarts_stop_early_report }
{}

/// The second one is stopped within the root's put, whose first half has the next epoch: the lines to the end's restart.
pub fn restarts_stop_late()
    ensures { report 1 (at_step 102 (stopped (λ c. whole_only 0)) (at_step 106 (stopped (λ c. whole_only 1)) calmly)) 115 (restarts_are_stopped (events.Arm s0 406 faults.StopBefore)) ≡ restarts_stop_late_report }
{}

/// A decay that isn't allowed and a put that can't miss its page are reported, and the commit goes on.
#[tactic(auto, using(crate::proofs::Reports::failing_pages_are_told))]
pub fn failing_pages_are_told()
    ensures { report 1 (at_step 4 (record calm { found = Allows false }) (at_step 71 (record calm { told = record { kind = faults.Null; page = 1 } ∷ [] }) calmly)) 200 pages_fail ≡ failing_pages_are_told_report }
{}

/// A reader that has had its time is broken, and the writer commits: the lines to the end's restart.
pub fn a_reader_is_broken()
    ensures { report 1 calmly 290 a_reader_gives_way ≡ a_reader_is_broken_report }
{}

/// A coordinator is stopped in a flag's write and then in its restart; the next restart names the commit.
#[tactic(auto, using(crate::proofs::Reports::a_coordinator_is_stopped_twice))]
pub fn a_coordinator_is_stopped_twice()
    ensures { report 2 (at_step 66 (stopped half_made) (at_step 84 (record calm { stop = Some (λ c. whole_only 0); found = Recovered (λ c n. true) [] [] }) (at_step 86 (finding true [] (tid s1 0 ∷ [])) calmly))) 220 (half_committed (events.Arm s1 9 faults.StopAfter ∷ events.Restart s1 ∷ events.Restart s1 ∷ events.Settle ∷ [])) ≡ a_coordinator_is_stopped_twice_report }
{}
