//! A schedule's events in a world whose stores are watched.
ghost use Rattle.std.specs.Prelude.{◌≡◌, ◌≤◌, OnOk, IfOk, vec_len};
ghost use Rattle.std.specs.List.{AllByRecursion};
ghost use Rattle.jn_schedule.specs.Ranges.{EventInRange};
ghost use Rattle.jn_events.specs.Stores.{AreStores};
ghost use Rattle.jn_world.specs.Standing.{IsWorld};

use crate::storm::watching::{MapCounts, Watched};
use jn_events::{close, do_event, start};
use jn_intent::PageCounts;
use jn_report::Line;
use jn_schedule::Event;
use jn_store::{Powered, StableStore};
use jn_world::{Ended, World};
use std::alloc::{AllocError, Global};

/// A store with its counts of pages, watched.
fn watch<S: Powered + Drop>(
    alloc: Global,
    disk: (S, PageCounts),
) -> Result<(Watched<S>, PageCounts), AllocError>
    ensures view { IfOk result (λ x. ⟦<Watched<S> as StableStore>⟧.view x.0 ≡ S.view disk.0) }
    ensures counts { IfOk result (λ x. x.1 ≡ disk.1) }
{
    let (store, counts) = disk;
    Ok((Watched::new(alloc, store, counts)?, counts))
}

fn watch_all<S: Powered + Drop>(
    alloc: Global,
    disks: Vec<(S, PageCounts)>,
) -> Result<Vec<(Watched<S>, PageCounts)>, AllocError>
    requires few { vec_len disks ≤ 8 }
    requires stores { AreStores (λ s. S.view s) 0 disks.items }
    ensures few { IfOk result (λ watched. vec_len watched ≤ 8) }
    ensures stores { IfOk result (λ watched. AreStores (⟦<Watched<S> as StableStore>⟧.view) 0 watched.items) }
{
    let mut watched = Vec::new(alloc);
    for disk in disks {
        watched.push(watch(alloc, disk)?)?;
    }
    Ok(watched)
}

/// Does all events, one after another.
fn do_all<S: Powered + Drop>(
    world: &mut World<S>,
    events: &[Event],
    lines: &mut Vec<Line>,
) -> Result<(), Ended>
    requires world { IsWorld (λ s. S.view s) world.old }
    requires range { AllByRecursion EventInRange events.now }
    ensures world { OnOk result (IsWorld (λ s. S.view s) world.new) }
{
    let mut number: u32 = 0;
    for event in events {
        number = number.saturating_add(1);
        do_event(world, number, event, lines)?;
    }
    Ok(())
}

/// The lines of a whole run from these stores. What they saw is added.
pub(crate) fn lines_of<S: Powered + Drop>(
    alloc: Global,
    disks: Vec<(S, PageCounts)>,
    events: &[Event],
    counts: &mut MapCounts,
) -> Result<Vec<Line>, Ended>
    requires few { vec_len disks ≤ 8 }
    requires stores { AreStores (λ s. S.view s) 0 disks.items }
    requires range { AllByRecursion EventInRange events.now }
{
    let watched = watch_all(alloc, disks)?;
    let mut lines = Vec::new(alloc);
    let mut world = start(alloc, watched, false, &mut lines)?;
    do_all(&mut world, events, &mut lines)?;
    let stores = close(world, &mut lines)?;
    for store in &stores {
        counts.add_all(&store.counts());
    }
    Ok(lines)
}
