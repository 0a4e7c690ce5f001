//! How servers come up, at the start of a run and later.
ghost use Rattle.jn_events.specs.Bringing.{AreDown, IsRisen, BroughtUp, left_to_tell};
ghost use Rattle.jn_events.specs.Naming.{has_come, restart_texts, newly_named};
ghost use Rattle.jn_events.specs.Opening.{Opens, AreNew};
ghost use Rattle.jn_events.specs.Stores.{AreStores};
ghost use Rattle.jn_events.specs.Written.{Starts, DoesTasks};
ghost use Rattle.jn_machine.specs.Events.{coming_up};
ghost use Rattle.jn_machine.specs.Tasks.{Meets, ComesUp};
ghost use Rattle.jn_report.specs.Lines.{lines_at};
ghost use Rattle.jn_schedule.specs.declared.Event.TheVariants.{Restart};
ghost use Rattle.jn_system.specs.WholeSystem.World.{commits_in};
ghost use Rattle.jn_world.specs.Calm.{AreQuiet, AreUpAndCalm};
ghost use Rattle.jn_world.specs.Standing.{IsWorld, IsClientOf, is_up_at};
ghost use Rattle.jn_world.specs.Written.{standing_of, DoesEvent};
ghost use Rattle.jn_world.specs.declared.ended.Ended.TheVariants.{Memory};
ghost use Rattle.std.specs.Prelude.{◌≤◌, vec_len, IfOk, ◌≡◌, All, ◌∷◌, [], OnOk, ◌<◌, false, true, IfErr, ◌++◌};

use crate::meeting::refuse;
use jn_base::{ClientNo, ServerNo, Tid};
use jn_client::Client;
use jn_intent::PageCounts;
use jn_net::Net;
use jn_place::{Place, Restarted, Slot, tell};
use jn_report::{EventRefusal, Line, Text, When};
use jn_store::Powered;
use jn_world::{CLIENTS, Ended, Named, World};
use std::alloc::{AllocError, Global};

/// The world of these stores, each with its counts of pages, server 0 first: all servers come up, and there is a line of each.
pub fn start<S: Powered + Drop>(
    alloc: Global,
    stores: Vec<(S, PageCounts)>,
    trace: bool,
    lines: &mut Vec<Line>,
) -> Result<World<S>, Ended>
    requires few { vec_len stores ≤ 8 }
    requires stores { AreStores (λ s. S.view s) 0 stores.items }
    ensures world { IfOk result (λ world. IsWorld (λ s. S.view s) world) }
    ensures written { Starts (λ s. S.view s) (λ s. S.device s) stores.items trace result lines.old.items lines.new.items }
{
    let mut world = down(alloc, stores, trace)?;
    bring_all_up(&mut world, When::Event(0), lines)?;
    Ok(world)
}

/// The world in which all servers are down.
fn down<S: Powered + Drop>(
    alloc: Global,
    stores: Vec<(S, PageCounts)>,
    trace: bool,
) -> Result<World<S>, AllocError>
    requires few { vec_len stores ≤ 8 }
    requires stores { AreStores (λ s. S.view s) 0 stores.items }
    ensures world { IfOk result (λ world. IsWorld (λ s. S.view s) world) }
    ensures all_down { IfOk result (λ world. AreDown world.places.items) }
    ensures opens { IfOk result (λ world. Opens (λ s. S.device s) stores.items trace (standing_of world)) }
{
    let servers = stores.len() as u8;
    let mut places = Vec::new(alloc);
    for (store, counts) in stores {
        let slot = Slot::Down(store);
        places.push(Place { counts, slot })?;
    }
    Ok(World {
        places,
        clients: new_clients(alloc, servers)?,
        net: Net::new(alloc),
        named: Named::new(alloc),
        trace,
        alloc,
    })
}

/// All clients, which have no transaction yet.
fn new_clients(alloc: Global, servers: u8) -> Result<Vec<Client>, AllocError>
    requires { servers ≤ 8 }
    ensures { IfOk result (λ clients. (vec_len clients ≡ 8) × All (IsClientOf 0) clients.items × AreNew servers clients.items) }
{
    let mut clients = Vec::new(alloc);
    for c in 0..CLIENTS {
        clients.push(Client::new(alloc, ClientNo(c + 1), servers))?;
    }
    Ok(clients)
}

/// A server that is down is to come up, as an event of its own.
pub(crate) fn restart<S: Powered + Drop>(
    world: &mut World<S>,
    server: ServerNo,
    when: When,
    lines: &mut Vec<Line>,
) -> Result<(), Ended>
    requires world { IsWorld (λ s. S.view s) world.old }
    ensures world { OnOk result (IsWorld (λ s. S.view s) world.new) }
    ensures does { DoesTasks (λ s. S.view s) (λ s. S.device s) (λ x. Meets (Restart server) ∷ []) when (standing_of world.old) result (standing_of world.new) lines.old.items lines.new.items }
{
    if !world.has(server) {
        return refuse(lines, when, EventRefusal::NoSuchServer);
    }
    if world.is_up(server) {
        return refuse(lines, when, EventRefusal::ServerUp);
    }
    restart_down(world, server, when, lines)
}

/// The same of a server that is there and down.
fn restart_down<S: Powered + Drop>(
    world: &mut World<S>,
    server: ServerNo,
    when: When,
    lines: &mut Vec<Line>,
) -> Result<(), Ended>
    requires world { IsWorld (λ s. S.view s) world.old }
    requires there { server.0 < vec_len world.old.places }
    requires down { is_up_at server.0 world.old.places.items ≡ false }
    ensures world { OnOk result (IsWorld (λ s. S.view s) world.new) }
    ensures does { DoesEvent (λ s. S.view s) (λ s. S.device s) (Restart server) when (standing_of world.old) result (standing_of world.new) lines.old.items lines.new.items }
{
    let mut told = Vec::new(world.alloc);
    let came = bring_up(world, server, when, &mut told)?;
    tell_refusal(came, when, &mut told)?;
    lines.append(&mut told)?;
    Ok(())
}

/// All servers, which are down, come up.
pub(crate) fn bring_all_up<S: Powered + Drop>(
    world: &mut World<S>,
    when: When,
    lines: &mut Vec<Line>,
) -> Result<(), Ended>
    requires world { IsWorld (λ s. S.view s) world.old }
    requires all_down { AreDown world.old.places.items }
    ensures world { OnOk result (IsWorld (λ s. S.view s) world.new) }
    ensures clients { OnOk result (world.new.clients ≡ world.old.clients) }
    ensures calm { OnOk result (AreQuiet (λ s. S.view s) world.old.places.items → AreUpAndCalm (λ s. S.view s) world.new.places.items) }
    ensures does { DoesTasks (λ s. S.view s) (λ s. S.device s) coming_up when (standing_of world.old) result (standing_of world.new) lines.old.items lines.new.items }
{
    for s in 0..world.servers() {
        let server = ServerNo(s);
        bring_up_at_once(world, server, when, lines)?;
    }
    Ok(())
}

/// A server, which is down, comes up, and the run ends where it has no epoch left.
fn bring_up_at_once<S: Powered + Drop>(
    world: &mut World<S>,
    server: ServerNo,
    when: When,
    lines: &mut Vec<Line>,
) -> Result<(), Ended>
    requires world { IsWorld (λ s. S.view s) world.old }
    requires there { server.0 < vec_len world.old.places }
    requires down { is_up_at server.0 world.old.places.items ≡ false }
    ensures world { OnOk result (IsWorld (λ s. S.view s) world.new) }
    ensures as_many { OnOk result (vec_len world.new.places ≡ vec_len world.old.places) }
    ensures clients { OnOk result (world.new.clients ≡ world.old.clients) }
    ensures calm { OnOk result (IsRisen (λ s. S.view s) server.0 world.old.places.items world.new.places.items) }
    ensures does { DoesTasks (λ s. S.view s) (λ s. S.device s) (λ x. ComesUp server ∷ []) when (standing_of world.old) result (standing_of world.new) lines.old.items lines.new.items }
{
    let mut told = Vec::new(world.alloc);
    let came = bring_up(world, server, when, &mut told)?;
    if !came {
        return Err(Ended::Epoch(server));
    }
    lines.append(&mut told)?;
    Ok(())
}

/// A server that is down comes up, unless it is stopped. False exactly where it has no epoch left.
fn bring_up<S: Powered + Drop>(
    world: &mut World<S>,
    server: ServerNo,
    when: When,
    told: &mut Vec<Line>,
) -> Result<bool, Ended>
    requires world { IsWorld (λ s. S.view s) world.old }
    requires there { server.0 < vec_len world.old.places }
    requires down { is_up_at server.0 world.old.places.items ≡ false }
    ensures world { OnOk result (IsWorld (λ s. S.view s) world.new) }
    ensures as_many { OnOk result (vec_len world.new.places ≡ vec_len world.old.places) }
    ensures clients { OnOk result (world.new.clients ≡ world.old.clients) }
    ensures brought { IfOk result (λ came. BroughtUp (λ s. S.view s) (λ s. S.device s) server when (standing_of world.old) came (standing_of world.new) told.old.items told.new.items) }
    ensures calm { IfOk result (λ came. came ≡ true → IsRisen (λ s. S.view s) server.0 world.old.places.items world.new.places.items) }
    ensures memory { IfErr result (λ e. e ≡ Memory) }
{
    let place = &mut world.places[usize::from(server.0)];
    let restarted = place.come_up(world.alloc, server, when, told)?;
    let came = tell_restarted(world, server, restarted, when, told)?;
    Ok(came)
}

/// Reports how a restart ended. False exactly where the server has no epoch left.
fn tell_restarted<S: Powered + Drop>(
    world: &mut World<S>,
    server: ServerNo,
    restarted: Restarted,
    when: When,
    told: &mut Vec<Line>,
) -> Result<bool, AllocError>
    ensures others { world.new ≡ record world.old { named = world.new.named } }
    ensures names { OnOk result (world.new.named.names.items ≡ world.old.named.names.items ++ commits_in (restart_texts server world.old.named.names.items restarted)) }
    ensures told { OnOk result (told.new.items ≡ told.old.items ++ lines_at when (restart_texts server world.old.named.names.items restarted)) }
    ensures came { IfOk result (λ came. came ≡ has_come restarted) }
{
    match restarted {
        Restarted::UsedUp => Ok(false),
        Restarted::Stopped => {
            tell(told, when, Text::Stopped(server))?;
            Ok(true)
        }
        Restarted::Up(epoch, tids) => {
            tell(told, when, Text::Up(server, epoch))?;
            name_all(world, &tids, when, told)?;
            Ok(true)
        }
    }
}

/// The transactions whose flags a server found and that have no line yet are named.
fn name_all<S: Powered + Drop>(
    world: &mut World<S>,
    tids: &[Tid],
    when: When,
    told: &mut Vec<Line>,
) -> Result<(), AllocError>
    ensures others { world.new ≡ record world.old { named = world.new.named } }
    ensures names { OnOk result (world.new.named.names.items ≡ world.old.named.names.items ++ commits_in (newly_named tids.now world.old.named.names.items)) }
    ensures told { OnOk result (told.new.items ≡ told.old.items ++ lines_at when (newly_named tids.now world.old.named.names.items)) }
{
    for tid in tids {
        name_one(world, *tid, when, told)?;
    }
    Ok(())
}

/// A transaction whose flag a server found is named, unless it has a line.
fn name_one<S: Powered + Drop>(
    world: &mut World<S>,
    tid: Tid,
    when: When,
    told: &mut Vec<Line>,
) -> Result<(), AllocError>
    ensures others { world.new ≡ record world.old { named = world.new.named } }
    ensures names { OnOk result (world.new.named.names.items ≡ world.old.named.names.items ++ commits_in (newly_named (tid ∷ []) world.old.named.names.items)) }
    ensures told { OnOk result (told.new.items ≡ told.old.items ++ lines_at when (newly_named (tid ∷ []) world.old.named.names.items)) }
{
    if !world.named.has(tid) {
        world.named.add(tid)?;
        tell(told, when, Text::Commit(tid))?;
    }
    Ok(())
}

/// Where a server has no epoch left the event is refused.
fn tell_refusal(came: bool, when: When, told: &mut Vec<Line>) -> Result<(), Ended>
    ensures told { OnOk result (told.new.items ≡ told.old.items ++ left_to_tell when came) }
    ensures memory { IfErr result (λ e. e ≡ Memory) }
{
    if came {
        return Ok(());
    }
    refuse(told, when, EventRefusal::EpochsUsedUp)
}
