//! Runs of the whole system by schedules: the lines that they report, each with the number of its event.

ghost use Rattle.std.specs.Prelude.{◌≡◌, [], ◌∷◌, Some};
ghost use Rattle.jn_base.specs.declared.names.LockUnit.TheVariants.{File, Block};
ghost use Rattle.jn_order.specs.Files.{there};
ghost use Rattle.jn_rows.specs.Stable.{Pick};
ghost use Rattle.jn_report.specs.declared.line.Refusal.TheVariants.{Locked};
ghost use Rattle.jn_report.specs.declared.line.Text.TheVariants as says;
ghost use Rattle.jn_system_settling.specs.Settling.Events.{line, AreSteps};
ghost use Rattle.jn_system_settling.specs.Settling.Rows.{start, told, report, without_stale, one_write, stopped_at_prepare, two_at_a_block, a_reader_breaks, two_wait, half_prepared, not_prepared, revived_and_prepared, half_committed, not_committed, goes_on_beside};
ghost use Rattle.jn_schedule.specs.Grammar.{filled};
ghost use Rattle.jn_system.specs.WholeSystem.ExampleNames.{s0, s1, c1, c2, tid, file, block};
ghost use Rattle.jn_system_settling.specs.Settling.RowReports.{one_client_writes_report, a_prepare_is_stopped_report, a_write_waits_for_a_reader_report, a_reader_gives_way_report, two_clients_wait_report, a_stopped_prepare_is_found_report, a_stopped_prepare_is_lost_report, a_stopped_prepare_comes_back_report, a_stopped_commit_is_found_report, a_stopped_commit_is_lost_report};

/// A client makes a file, writes a block and ends, with a settle after each command.
pub fn one_client_writes()
    ensures steps { AreSteps 1 (one_write (filled (104 ∷ 105 ∷ []))) (start 1) }
    ensures lines { report 1 (one_write (filled (104 ∷ 105 ∷ []))) ≡ one_client_writes_report }
    ensures page { (c : Pick) → ((told 1 (one_write (filled (104 ∷ 105 ∷ [])))).course.world.found s0 c).files (Block (file 7) (block 0)) ≡ Some (filled (104 ∷ 105 ∷ [])) }
{}

/// A server is stopped while it prepares a work, which it has lost after its restart.
pub fn a_prepare_is_stopped()
    ensures steps { AreSteps 1 stopped_at_prepare (start 1) }
    ensures lines { report 1 stopped_at_prepare ≡ a_prepare_is_stopped_report }
{}

/// A client that has written a block waits, in each part of a settle, for one that has read it.
pub fn a_write_waits_for_a_reader()
    ensures steps { AreSteps 1 two_at_a_block (start 1) }
    ensures lines { report 1 two_at_a_block ≡ a_write_waits_for_a_reader_report }
{}

/// Once the reader has had its time, it is broken and the other one commits.
pub fn a_reader_gives_way()
    ensures steps { AreSteps 1 a_reader_breaks (start 1) }
    ensures lines { report 1 a_reader_breaks ≡ a_reader_gives_way_report }
    ensures page { (c : Pick) → ((told 1 a_reader_breaks).course.world.found s0 c).files (Block (file 7) (block 0)) ≡ Some (filled (98 ∷ [])) }
{}

/// Two clients wait for one another, until one gives up.
pub fn two_clients_wait()
    ensures steps { AreSteps 2 two_wait (start 2) }
    ensures lines { report 2 two_wait ≡ two_clients_wait_report }
    ensures file { (c : Pick) → ((told 2 two_wait).course.world.found s0 c).files (File (file 7)) ≡ Some there }
{}

/// A server is stopped halfway through the put that makes a work ready: a restart may find it, or not while that half is
/// bad. Where the half has decayed and is revived before the restart, the work is found as if it had never been bad.
pub fn a_stopped_prepare_is_found_or_not()
    ensures found_steps { AreSteps 2 half_prepared (start 2) }
    ensures found { report 2 half_prepared ≡ a_stopped_prepare_is_found_report }
    ensures file { (c : Pick) → ((told 2 half_prepared).course.world.found s0 c).files (File (file 7)) ≡ Some there }
    ensures decayed_steps { AreSteps 2 not_prepared (start 2) }
    ensures decayed { report 2 not_prepared ≡ a_stopped_prepare_is_lost_report }
    ensures revived_steps { AreSteps 2 revived_and_prepared (start 2) }
    ensures revived { report 2 revived_and_prepared ≡ a_stopped_prepare_comes_back_report }
    ensures revived_file { (c : Pick) → ((told 2 revived_and_prepared).course.world.found s0 c).files (File (file 7)) ≡ Some there }
{}

/// A coordinator is stopped halfway through the put of a flag: a restart may find it and names the commit, or not.
pub fn a_stopped_commit_is_found_or_not()
    ensures found_steps { AreSteps 2 half_committed (start 2) }
    ensures found { report 2 half_committed ≡ a_stopped_commit_is_found_report }
    ensures file { (c : Pick) → ((told 2 half_committed).course.world.found s0 c).files (File (file 7)) ≡ Some there }
    ensures decayed_steps { AreSteps 2 not_committed (start 2) }
    ensures decayed { report 2 not_committed ≡ a_stopped_commit_is_lost_report }
{}

/// While a coordinator is down, another client commits at the other server, where the prepared work keeps its locks.
pub fn a_commit_is_named_at_a_restart()
    ensures steps { AreSteps 2 goes_on_beside (start 2) }
    ensures lines { without_stale (report 2 goes_on_beside)
        ≡ line 2 (says.Begun c1 1 (tid s1 0))
        ∷ line 4 (says.Opened c1 3 s0)
        ∷ line 6 (says.Did c1 5)
        ∷ line 9 (says.Stopped s1)
        ∷ line 11 (says.Begun c2 10 (tid s0 1))
        ∷ line 13 (says.Opened c2 12 s0)
        ∷ line 15 (says.Refused c2 14 (Locked (File (file 7)) (tid s1 0)))
        ∷ line 17 (says.Did c2 16)
        ∷ line 19 (says.Commit (tid s0 1))
        ∷ line 19 (says.Committed c2 18 (tid s0 1))
        ∷ line 20 (says.Up s1 2)
        ∷ line 20 (says.Commit (tid s1 0))
        ∷ line 21 (says.Committed c1 8 (tid s1 0))
        ∷ [] }
    ensures first_file { (c : Pick) → ((told 2 goes_on_beside).course.world.found s0 c).files (File (file 7)) ≡ Some there }
    ensures second_file { (c : Pick) → ((told 2 goes_on_beside).course.world.found s0 c).files (File (file 8)) ≡ Some there }
{}
