//! The events of a schedule in a world of servers, each on a disk of its own in memory.

ghost use Rattle.std.specs.Prelude.{◌≡◌, ◌≤◌, ◌+◌, ◌++◌, ◌∷◌, [], ℕ, List, OnOk, IfOk, length, vec_len};
ghost use Rattle.std.specs.List.{AllByRecursion};
ghost use Rattle.jn_schedule.specs.Ranges.{EventInRange};
ghost use Rattle.jn_schedule.specs.declared.Event.{Event as AnEvent};
ghost use Rattle.jn_machine.specs.Devices.{Devices};
ghost use Rattle.jn_machine.specs.Runs.{Moment};
ghost use Rattle.jn_machine.specs.Chances.{Setup};
ghost use Rattle.jn_machine.specs.Whole.{AreImages};
ghost use Rattle.jn_base.specs.declared.names.ServerNo.{ServerNo as AnyServer};
ghost use Rattle.jn_order.specs.Files.{AllFiles};
ghost use Rattle.jn_world.specs.Standing.{IsWorld};
ghost use Rattle.jn_events.specs.Stores.{AreStores};
ghost use Rattle.jn_events.specs.Written.{AreStoresOf};
ghost use Rattle.jn_run.specs.declared.running.RunFault.TheVariants as runs;
ghost use Rattle.jn_run.specs.Running.{Course, course_of, AreLeft, HasTold, StandsBefore, Reaches, RunsFrom, Reported, ReportedLast};

use jn_events::{close, do_event, start};
use jn_intent::PageCounts;
use jn_memdisk::MemDisk;
use jn_report::Line;
use jn_schedule::Event;
use jn_stable::Pairs;
use jn_store::{Powered, StableStore};
use jn_world::{Ended, World};
use jn_writing::{ReportFault, Reporter};
use std::alloc::{AllocError, Global};

/// Why a run was cut off.
#[derive(Clone, Copy, Debug, PartialEq, Eq, Drop)]
pub enum RunFault {
    /// The output failed.
    Write,
    /// A message too many would be sent, or a server has no epoch left at the start or the end.
    Limit,
    /// There is no memory.
    Memory,
}

impl From<AllocError> for RunFault {
    ghost from_gives = { λ _ e. e ≡ runs.Memory };

    fn from(_refused: AllocError) -> RunFault {
        RunFault::Memory
    }
}

/// The stores of servers: pairs of pages on disks in memory.
pub type Disks = Pairs<MemDisk>;

/// Runs events from these stores, server 0 first, and reports the lines event by event. The stores that are left, one of each server.
pub fn run_from<O, R: Reporter<O>>(
    alloc: Global,
    trace: bool,
    stores: Vec<(Disks, PageCounts)>,
    events: &[Event],
    reporter: &mut R,
    output: &mut O,
) -> Result<Vec<Disks>, RunFault>
    requires servers { vec_len stores ≤ 8 }
    requires stores { AreStores (⟦<Pairs<MemDisk> as StableStore>⟧.view) 0 stores.items }
    requires few { length events.now ≤ 100000 }
    requires range { AllByRecursion EventInRange events.now }
    ensures ran { (x : Setup) (files : AllFiles) (epochs : AnyServer → ℕ) (images : Devices) → AreStoresOf (⟦<Pairs<MemDisk> as Powered>⟧.device) x stores.items images → x.trace ≡ trace → AreImages x files epochs images
        → RunsFrom R.reporting (course_of x events.now images output.old) (λ left. AreLeft (⟦<Pairs<MemDisk> as Powered>⟧.device) x left.items) result output.new }
{
    // One list for all events, so that none takes memory of its own for its lines.
    let mut lines = Vec::new(alloc);
    let mut world = open_world(alloc, trace, stores, &mut lines, reporter, output)?;
    run_events(&mut world, 0, events, &mut lines, reporter, output)?;
    close_world(world, &mut lines, reporter, output)
}

/// Does events one after another, when so many have begun and any may follow.
pub fn run_events<O, R: Reporter<O>>(
    world: &mut World<Disks>,
    begun: u32,
    events: &[Event],
    lines: &mut Vec<Line>,
    reporter: &mut R,
    output: &mut O,
) -> Result<(), RunFault>
    requires world { IsWorld (⟦<Pairs<MemDisk> as StableStore>⟧.view) world.old }
    requires few { begun + length events.now ≤ 100000 }
    requires range { AllByRecursion EventInRange events.now }
    ensures world { OnOk result (IsWorld (⟦<Pairs<MemDisk> as StableStore>⟧.view) world.new) }
    ensures ran { (c : Course O) (m : Moment) (rest : List AnEvent) → HasTold R.reporting c m output.old → begun ≡ m.state.course.world.event
        → StandsBefore (⟦<Pairs<MemDisk> as StableStore>⟧.view) (⟦<Pairs<MemDisk> as Powered>⟧.device) c.setup (events.now ++ rest) world.old m
        → Reaches R.reporting c (λ done. StandsBefore (⟦<Pairs<MemDisk> as StableStore>⟧.view) (⟦<Pairs<MemDisk> as Powered>⟧.device) c.setup rest world.new) result output.new }
{
    let mut number = begun;
    for event in events {
        number += 1;
        run_event(world, number, event, lines, reporter, output)?;
    }
    Ok(())
}

/// The world of these stores, all of whose servers come up. The lines that say so are reported, also where a server doesn't.
pub fn open_world<O, R: Reporter<O>>(
    alloc: Global,
    trace: bool,
    stores: Vec<(Disks, PageCounts)>,
    lines: &mut Vec<Line>,
    reporter: &mut R,
    output: &mut O,
) -> Result<World<Disks>, RunFault>
    requires few { vec_len stores ≤ 8 }
    requires stores { AreStores (⟦<Pairs<MemDisk> as StableStore>⟧.view) 0 stores.items }
    ensures world { IfOk result (λ world. IsWorld (⟦<Pairs<MemDisk> as StableStore>⟧.view) world) }
    ensures opened { (x : Setup) (schedule : List AnEvent) (files : AllFiles) (epochs : AnyServer → ℕ) (images : Devices) → AreStoresOf (⟦<Pairs<MemDisk> as Powered>⟧.device) x stores.items images → x.trace ≡ trace → AreImages x files epochs images
        → Reaches R.reporting (course_of x schedule images output.old) (StandsBefore (⟦<Pairs<MemDisk> as StableStore>⟧.view) (⟦<Pairs<MemDisk> as Powered>⟧.device) x schedule) result output.new }
{
    lines.clear();
    let world = start(alloc, stores, trace, lines);
    report_lines(lines, world, reporter, output)
}

/// Does an event, and reports its lines, also where it ends the run.
fn run_event<O, R: Reporter<O>>(
    world: &mut World<Disks>,
    number: u32,
    event: &Event,
    lines: &mut Vec<Line>,
    reporter: &mut R,
    output: &mut O,
) -> Result<(), RunFault>
    requires world { IsWorld (⟦<Pairs<MemDisk> as StableStore>⟧.view) world.old }
    requires range { EventInRange event.now }
    ensures world { OnOk result (IsWorld (⟦<Pairs<MemDisk> as StableStore>⟧.view) world.new) }
    ensures ran { (c : Course O) (m : Moment) (rest : List AnEvent) → HasTold R.reporting c m output.old
        → StandsBefore (⟦<Pairs<MemDisk> as StableStore>⟧.view) (⟦<Pairs<MemDisk> as Powered>⟧.device) c.setup (event.now ∷ rest) world.old m → number ≡ m.state.course.world.event + 1
        → Reaches R.reporting c (λ done. StandsBefore (⟦<Pairs<MemDisk> as StableStore>⟧.view) (⟦<Pairs<MemDisk> as Powered>⟧.device) c.setup rest world.new) result output.new }
{
    lines.clear();
    let done = do_event(world, number, event, lines);
    report_lines(lines, done, reporter, output)
}

/// Ends the run, and reports the lines of the end, as far as it comes.
pub fn close_world<O, R: Reporter<O>>(
    world: World<Disks>,
    lines: &mut Vec<Line>,
    reporter: &mut R,
    output: &mut O,
) -> Result<Vec<Disks>, RunFault>
    requires world { IsWorld (⟦<Pairs<MemDisk> as StableStore>⟧.view) world }
    ensures ran { (c : Course O) (m : Moment) → HasTold R.reporting c m output.old
        → StandsBefore (⟦<Pairs<MemDisk> as StableStore>⟧.view) (⟦<Pairs<MemDisk> as Powered>⟧.device) c.setup [] world m
        → RunsFrom R.reporting c (λ left. AreLeft (⟦<Pairs<MemDisk> as Powered>⟧.device) c.setup left.items) result output.new }
{
    lines.clear();
    let closed = close(world, lines);
    report_lines(lines, closed, reporter, output)
}

/// Reports the lines of a call, also where it ended the run, and gives what the call gave. Where memory ran out its last step may not
/// be whole, so none is reported.
fn report_lines<O, R: Reporter<O>, T: Drop>(
    lines: &[Line],
    done: Result<T, Ended>,
    reporter: &mut R,
    output: &mut O,
) -> Result<T, RunFault>
    ensures reported { Reported R.reporting done lines.now output.old result output.new }
{
    match done {
        Err(Ended::Memory) => Err(RunFault::Memory),
        Err(Ended::Messages) => Err(report_last(lines, reporter, output)),
        Err(Ended::Epoch(_)) => Err(report_last(lines, reporter, output)),
        Ok(given) => match reporter.report(output, lines) {
            Ok(()) => Ok(given),
            Err(ReportFault::Write) => Err(RunFault::Write),
            Err(ReportFault::Memory) => Err(RunFault::Memory),
        },
    }
}

/// Reports the last lines of a run that a limit cut short. Why it ends then.
fn report_last<O, R: Reporter<O>>(lines: &[Line], reporter: &mut R, output: &mut O) -> RunFault
    ensures { ReportedLast R.reporting lines.now output.old result output.new }
{
    match reporter.report(output, lines) {
        Ok(()) => RunFault::Limit,
        Err(ReportFault::Write) => RunFault::Write,
        Err(ReportFault::Memory) => RunFault::Memory,
    }
}
