//! What is reported of servers and their devices, in any run: each fault that is refused, what a scrub and a restart mend, at a show the files that are there, and
//! who comes up and goes down.

ghost use Rattle.std.specs.Prelude.{◌≡◌, ◌≢◌, ◌<◌, ℕ, true, false, List, length, None};
ghost use Rattle.jn_base.specs.declared.names.ServerNo.{ServerNo};
ghost use Rattle.jn_order.specs.Files.{AllFiles};
ghost use Rattle.jn_schedule.specs.declared.Event.{Event};
ghost use Rattle.jn_schedule.specs.declared.Event.TheVariants.{Scrub, Restart, Show};
ghost use Rattle.jn_page_state.specs.Pages.{found_on};
ghost use Rattle.jn_rows.specs.Stable.{Pick};
ghost use Rattle.jn_store.specs.Pairs.{pairs_view};
ghost use Rattle.jn_machine.specs.Chances.{Setup};
ghost use Rattle.jn_machine.specs.Refusals.{refusal_of};
ghost use Rattle.jn_machine.specs.Runs.{Moment, DoesStep, MayLead};
ghost use Rattle.jn_machine.specs.Tasks.{Meets, Acts, ComesUp, CutShort, State};
ghost use Rattle.jn_machine.specs.Whole.{before};
ghost use Rattle.jn_wrong.specs.Leaving.{IsUpBehind};
ghost use Rattle.jn_wrong.specs.Showing.{Shows};
ghost use Rattle.jn_wrong.specs.Telling.{TellsFaults, AreMended};
ghost use Rattle.jn_wrong.specs.Turns.{takes_turns, epochs_rise, are_by};

/// The lines of a step that report a refused fault are one for each that its device reported in the step's calls, in their order, or for a decay that the
/// device doesn't allow: none is left out, and none is reported besides.
pub fn each_refused_fault_is_told()
    ensures { (x : Setup) (a b : Moment) (d : DoesStep x a b) → b.state.stage ≢ CutShort → TellsFaults x a b d }
{}

/// Behind a scrub that isn't refused or stopped, and behind each of the end, every pick of halves finds the same, so that no decay shows what stood before.
pub fn a_scrub_leaves_no_old_half()
    ensures in_the_schedule { (x : Setup) (q : ServerNo) (a b : Moment) (d : DoesStep x a b) → q.0 < x.servers → d.task ≡ Meets (Scrub q) → refusal_of x a.state.course.world (Scrub q) ≡ None → d.chance.stop ≡ None
        → (c r : Pick) → found_on (x.counts q) (pairs_view (b.devices q)) c ≡ found_on (x.counts q) (pairs_view (b.devices q)) r }
    ensures at_the_end { (x : Setup) (q : ServerNo) (a b : Moment) (d : DoesStep x a b) → q.0 < x.servers → d.task ≡ Acts (Scrub q) → d.chance.stop ≡ None
        → (c r : Pick) → found_on (x.counts q) (pairs_view (b.devices q)) c ≡ found_on (x.counts q) (pairs_view (b.devices q)) r }
{}

/// Behind a restart that brings its server up, the two halves of the root, of each record and of each head hold the same bytes. Where no fault had waited,
/// either half of each may go bad, and of each map page that a head names, so that no line reports its decay as refused.
pub fn a_restart_mends_root_records_heads_and_maps()
    ensures in_the_schedule { (x : Setup) (q : ServerNo) (a b : Moment) (d : DoesStep x a b) → q.0 < x.servers → d.task ≡ Meets (Restart q) → refusal_of x a.state.course.world (Restart q) ≡ None → IsUpBehind x a b d q
        → AreMended (x.counts q) (a.devices q) (b.devices q) }
    ensures at_start_and_end { (x : Setup) (q : ServerNo) (a b : Moment) (d : DoesStep x a b) → q.0 < x.servers → d.task ≡ ComesUp q → IsUpBehind x a b d q
        → AreMended (x.counts q) (a.devices q) (b.devices q) }
{}

/// A show that isn't refused or stopped, and each of the end, prints each file and each of its blocks that is there, once, in order, each file
/// before its blocks; and shows just those as locked that a work holds for commit.
pub fn a_show_prints_what_is_there_once()
    ensures in_the_schedule { (x : Setup) (q : ServerNo) (a b : Moment) (d : DoesStep x a b) → d.task ≡ Meets (Show q) → refusal_of x a.state.course.world (Show q) ≡ None → d.chance.stop ≡ None → b.state.stage ≢ CutShort → Shows x q a b d }
    ensures at_the_end { (x : Setup) (q : ServerNo) (a b : Moment) (d : DoesStep x a b) → d.task ≡ Acts (Show q) → d.chance.stop ≡ None → b.state.stage ≢ CutShort → Shows x q a b d }
{}

/// Each server is reported to come up only where it is down, first at the start, and to go down only where it is up.
pub fn a_server_comes_up_and_goes_down_by_turns()
    ensures { (q : ServerNo) (x : Setup) (schedule : List Event) (files : AllFiles) (epochs : ServerNo → ℕ) (t : State) → q.0 < x.servers → MayLead x (before x schedule files epochs) t
        → takes_turns q t.lines ≡ true }
{}

/// No line stands at an event that has not begun, so none at one that the schedule doesn't have.
pub fn no_line_stands_at_an_event_that_has_not_begun()
    ensures begun { (x : Setup) (schedule : List Event) (files : AllFiles) (epochs : ServerNo → ℕ) (t : State) → MayLead x (before x schedule files epochs) t → are_by t.course.world.event t.lines ≡ true }
    ensures of_the_schedule { (x : Setup) (schedule : List Event) (files : AllFiles) (epochs : ServerNo → ℕ) (t : State) → MayLead x (before x schedule files epochs) t
        → (t.stage ≡ CutShort → ⊥) → are_by (length schedule) t.lines ≡ true }
{}

/// Each server comes up in a later epoch each time, first in a later one than its images have.
pub fn epochs_rise_from_those_of_the_images()
    ensures { (q : ServerNo) (x : Setup) (schedule : List Event) (files : AllFiles) (epochs : ServerNo → ℕ) (t : State) → MayLead x (before x schedule files epochs) t
        → epochs_rise q (epochs q) t.lines ≡ true }
{}
