//! A schedule's events in a world of new servers.
ghost use Rattle.std.specs.Prelude.{◌≡◌, ◌≤◌, ◌∷◌, [], OnOk, IfOk, vec_len};
ghost use Rattle.std.specs.List.{AllByRecursion};
ghost use Rattle.jn_schedule.specs.Ranges.{EventInRange};
ghost use Rattle.jn_events.specs.Stores.{AreStores};
ghost use Rattle.jn_world.specs.Standing.{IsWorld};

use jn_base::ServerNo;
use jn_disks::new_store;
use jn_events::{close, do_event, start};
use jn_intent::PageCounts;
use jn_memdisk::MemDisk;
use jn_records::{FORMAT_VERSION, Root};
use jn_report::Line;
use jn_schedule::{Event, ParseFault, parse, words_are_in_range};
use jn_stable::Pairs;
use jn_store::{Powered, StableStore};
use jn_world::{Ended, World};
use std::alloc::{AllocError, Global};

/// The servers of a run, whose disks are new.
#[derive(Clone, Copy)]
pub struct Servers {
    /// How many there are: 1, 2 or 3, and 3 for every other number.
    pub count: u8,
    /// How many pages of each kind each of them has.
    pub pages: PageCounts,
    /// Whether each message has a line.
    pub trace: bool,
}

/// The store of a server, with its counts of pages.
type Disk = (Pairs<MemDisk>, PageCounts);

/// The store of a new server.
fn new_disk(alloc: Global, server: ServerNo, pages: PageCounts) -> Result<Disk, AllocError>
    ensures { IfOk result (λ disk. AreStores (⟦<Pairs<MemDisk> as StableStore>⟧.view) server.0 (disk ∷ [])) }
{
    let root = Root {
        version: FORMAT_VERSION,
        server,
        pool: pages.pool,
        heads: pages.heads,
        leaves: pages.leaves,
        epoch: 0,
    };
    Ok((new_store(alloc, root)?, pages))
}

/// The store of one new server.
fn one_disk(alloc: Global, pages: PageCounts) -> Result<Vec<Disk>, AllocError>
    ensures few { IfOk result (λ disks. vec_len disks ≤ 8) }
    ensures stores { IfOk result (λ disks. AreStores (⟦<Pairs<MemDisk> as StableStore>⟧.view) 0 disks.items) }
{
    let first = new_disk(alloc, ServerNo(0), pages)?;
    Ok(vec![in alloc; first]?)
}

/// The stores of two new servers.
fn two_disks(alloc: Global, pages: PageCounts) -> Result<Vec<Disk>, AllocError>
    ensures few { IfOk result (λ disks. vec_len disks ≤ 8) }
    ensures stores { IfOk result (λ disks. AreStores (⟦<Pairs<MemDisk> as StableStore>⟧.view) 0 disks.items) }
{
    let first = new_disk(alloc, ServerNo(0), pages)?;
    let second = new_disk(alloc, ServerNo(1), pages)?;
    Ok(vec![in alloc; first, second]?)
}

/// The stores of three new servers.
fn three_disks(alloc: Global, pages: PageCounts) -> Result<Vec<Disk>, AllocError>
    ensures few { IfOk result (λ disks. vec_len disks ≤ 8) }
    ensures stores { IfOk result (λ disks. AreStores (⟦<Pairs<MemDisk> as StableStore>⟧.view) 0 disks.items) }
{
    let first = new_disk(alloc, ServerNo(0), pages)?;
    let second = new_disk(alloc, ServerNo(1), pages)?;
    let third = new_disk(alloc, ServerNo(2), pages)?;
    Ok(vec![in alloc; first, second, third]?)
}

fn new_disks(alloc: Global, servers: Servers) -> Result<Vec<Disk>, AllocError>
    ensures few { IfOk result (λ disks. vec_len disks ≤ 8) }
    ensures stores { IfOk result (λ disks. AreStores (⟦<Pairs<MemDisk> as StableStore>⟧.view) 0 disks.items) }
{
    match servers.count {
        1 => one_disk(alloc, servers.pages),
        2 => two_disks(alloc, servers.pages),
        _ => three_disks(alloc, servers.pages),
    }
}

/// The events of a schedule.
pub fn parsed(alloc: Global, schedule: &[u8]) -> Result<Vec<Event>, ParseFault>
    ensures { IfOk result (λ events. AllByRecursion EventInRange events.items) }
{
    words_are_in_range();
    let events = parse(alloc, schedule)?;
    Ok(events)
}

/// Does all events, one after another.
fn do_all<S: Powered + Drop>(
    world: &mut World<S>,
    events: &[Event],
    lines: &mut Vec<Line>,
) -> Result<(), Ended>
    requires world { IsWorld (λ s. S.view s) world.old }
    requires range { AllByRecursion EventInRange events.now }
    ensures world { OnOk result (IsWorld (λ s. S.view s) world.new) }
{
    let mut number: u32 = 0;
    for event in events {
        number = number.saturating_add(1);
        do_event(world, number, event, lines)?;
    }
    Ok(())
}

/// The lines of a whole run from these stores.
fn run_from<S: Powered + Drop>(
    alloc: Global,
    stores: Vec<(S, PageCounts)>,
    trace: bool,
    events: &[Event],
) -> Result<Vec<Line>, Ended>
    requires few { vec_len stores ≤ 8 }
    requires stores { AreStores (λ s. S.view s) 0 stores.items }
    requires range { AllByRecursion EventInRange events.now }
{
    let mut lines = Vec::new(alloc);
    let mut world = start(alloc, stores, trace, &mut lines)?;
    do_all(&mut world, events, &mut lines)?;
    let _stores = close(world, &mut lines)?;
    Ok(lines)
}

/// The lines of a whole run.
pub fn lines_of(alloc: Global, servers: Servers, events: &[Event]) -> Result<Vec<Line>, Ended>
    requires range { AllByRecursion EventInRange events.now }
{
    let disks = new_disks(alloc, servers)?;
    run_from(alloc, disks, servers.trace, events)
}
