//! A trial: a run of the schedule that a seed makes, reported in one line.

ghost use Rattle.std.specs.Prelude.{◌≡◌, ◌≤◌, [], ℕ, false, Option, OnOk, length, vec_len};
ghost use Rattle.std.specs.List.{AllByRecursion};
ghost use Rattle.jn_base.specs.declared.names.ServerNo.{ServerNo as AnyServer};
ghost use Rattle.jn_host.specs.Outside.{Contents};
ghost use Rattle.jn_options.specs.Words.{IsTrialInRange};
ghost use Rattle.jn_order.specs.Files.{AllFiles};
ghost use Rattle.jn_schedule.specs.Ranges.{EventInRange};
ghost use Rattle.jn_world.specs.Standing.{IsWorld};
ghost use Rattle.jn_events.specs.Stores.{AreStores};
ghost use Rattle.jn_events.specs.Written.{AreStoresOf};
ghost use Rattle.jn_machine.specs.Chances.{Setup};
ghost use Rattle.jn_machine.specs.Devices.{Devices};
ghost use Rattle.jn_machine.specs.Runs.{Moment};
ghost use Rattle.jn_machine.specs.Whole.{AreImages};
ghost use Rattle.jn_run.specs.Running.{Course, course_of, AreLeft, HasTold, StandsBefore, Reaches, RunsFrom};
ghost use Rattle.jn_run.specs.Trial.{SumsUp};

use crate::opening::new_stores;
use crate::running::{Disks, RunFault, close_world, open_world, run_events};
use jn_gen::TrialEvents;
use jn_intent::PageCounts;
use jn_memdisk::MemDisk;
use jn_options::{Geometry, Trial};
use jn_report::Line;
use jn_stable::Pairs;
use jn_store::{Powered, StableStore};
use jn_summary::{Summary, Summing};
use jn_world::World;
use jn_writing::Reporter;
use std::alloc::Global;

/// How many servers a trial has.
const SERVERS: u8 = 2;

/// The counts of their pages, which are those of a run without options.
const GEOMETRY: Geometry = Geometry {
    pool: 32,
    heads: 16,
    leaves: 128,
};

/// How many events are drawn at once, so that few of a long trial's are kept at any time.
const STRETCH: u32 = 1_000;

/// Runs the schedule of a seed on new servers, and gives the line that sums up its report. No line of the report is kept.
pub fn sum_up(alloc: Global, trial: &Trial) -> Result<Vec<u8>, RunFault>
    requires range { IsTrialInRange trial.now }
    ensures told { (kept : Option Contents) → SumsUp trial.now kept result }
{
    let drawn = TrialEvents::new(trial.seed, trial.events);
    let stores = new_stores(alloc, SERVERS, GEOMETRY)?;
    let mut summary = Summary::new(alloc);
    run_drawn(alloc, stores, drawn, &mut Summing, &mut summary)?;
    Ok(summary.text(alloc, trial.seed, trial.events)?)
}

/// Runs the events of a trial from these stores, server 0 first, and reports the lines event by event. The stores that are left.
fn run_drawn<O, R: Reporter<O>>(
    alloc: Global,
    stores: Vec<(Disks, PageCounts)>,
    drawn: TrialEvents,
    reporter: &mut R,
    output: &mut O,
) -> Result<Vec<Disks>, RunFault>
    requires servers { vec_len stores ≤ 8 }
    requires stores { AreStores (⟦<Pairs<MemDisk> as StableStore>⟧.view) 0 stores.items }
    requires few { length drawn ≤ 100000 }
    requires range { AllByRecursion EventInRange drawn }
    ensures ran { (x : Setup) (files : AllFiles) (epochs : AnyServer → ℕ) (images : Devices) → AreStoresOf (⟦<Pairs<MemDisk> as Powered>⟧.device) x stores.items images → x.trace ≡ false → AreImages x files epochs images
        → RunsFrom R.reporting (course_of x drawn images output.old) (λ left. AreLeft (⟦<Pairs<MemDisk> as Powered>⟧.device) x left.items) result output.new }
{
    let mut lines = Vec::new(alloc);
    let mut world = open_world(alloc, false, stores, &mut lines, reporter, output)?;
    run_stretches(alloc, &mut world, drawn, &mut lines, reporter, output)?;
    close_world(world, &mut lines, reporter, output)
}

/// Does all events of a trial, a stretch of them at a time.
fn run_stretches<O, R: Reporter<O>>(
    alloc: Global,
    world: &mut World<Disks>,
    mut drawn: TrialEvents,
    lines: &mut Vec<Line>,
    reporter: &mut R,
    output: &mut O,
) -> Result<(), RunFault>
    requires world { IsWorld (⟦<Pairs<MemDisk> as StableStore>⟧.view) world.old }
    requires few { length drawn ≤ 100000 }
    requires range { AllByRecursion EventInRange drawn }
    ensures world { OnOk result (IsWorld (⟦<Pairs<MemDisk> as StableStore>⟧.view) world.new) }
    ensures ran { (c : Course O) (m : Moment) → HasTold R.reporting c m output.old → c.schedule ≡ drawn
        → StandsBefore (⟦<Pairs<MemDisk> as StableStore>⟧.view) (⟦<Pairs<MemDisk> as Powered>⟧.device) c.setup drawn world.old m
        → Reaches R.reporting c (λ done. StandsBefore (⟦<Pairs<MemDisk> as StableStore>⟧.view) (⟦<Pairs<MemDisk> as Powered>⟧.device) c.setup [] world.new) result output.new }
{
    let mut begun = 0;
    'stretches: while drawn.left() > 0 {
        let events = drawn.next(alloc, STRETCH)?;
        run_events(world, begun, &events, lines, reporter, output)?;
        begun += events.len() as u32;
    }
    Ok(())
}
