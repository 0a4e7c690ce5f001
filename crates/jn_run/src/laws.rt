//! What follows from what a call of the program leaves.

ghost use Rattle.jn_run.specs.Laws.{CountsTellTheStatus, KeeperIsLeftAlone, RunsComplete, TrialsComplete};

use jn_image_files::an_accepted_image_is_not_refused;
use jn_schedule::{a_schedule_has_one_list_of_events, a_text_with_a_fault_is_no_schedule};

/// The source, the sink and the keeper fail with a status of their own each: with any other the count of their faults stays.
pub fn counts_tell_the_status()
    ensures { CountsTellTheStatus }
{}

/// A run that begins with new disks and keeps none leaves the keeper as it was.
pub fn a_run_without_images_leaves_the_keeper_alone()
    ensures { KeeperIsLeftAlone }
{}

/// A schedule that may be run, on new disks or on those of sound images, is run to its end or to a limit, unless a call of the outside fails or memory
/// runs out.
pub fn a_run_that_can_be_done_is_done()
    ensures { RunsComplete }
{
    a_text_with_a_fault_is_no_schedule();
    a_schedule_has_one_list_of_events();
    an_accepted_image_is_not_refused();
}

/// A trial is run to its end or to a limit, unless the sink fails or memory runs out.
pub fn a_trial_is_done()
    ensures { TrialsComplete }
{}
