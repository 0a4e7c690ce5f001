//! A settle: until nothing is left to do.
ghost use Rattle.jn_events.specs.Settling.{IsAtRest, RestsUnlessWaiting, TellsFirst, TellsBusy, asking_clients, asking_servers};
ghost use Rattle.jn_events.specs.Written.{DoesTasks, TakesTurn, KeepsOn};
ghost use Rattle.jn_machine.specs.Events.{settling, asking};
ghost use Rattle.jn_machine.specs.Tasks.{Rests};
ghost use Rattle.jn_report.specs.declared.line.When.TheVariants.{Event as AtEvent};
ghost use Rattle.jn_schedule.specs.declared.Event.TheVariants.{Nudge};
ghost use Rattle.jn_world.specs.Calm.{StayUp};
ghost use Rattle.jn_world.specs.Counting.{handed, steps_of_all};
ghost use Rattle.jn_world.specs.Standing.{IsWorld};
ghost use Rattle.jn_world.specs.Written.{standing_of, DoesEvent};
ghost use Rattle.std.specs.Prelude.{OnOk, ◌∷◌, [], ◌≡◌, suc, true, false, IfOk, ◌<◌, vec_len};

use jn_base::{ClientNo, ServerNo};
use jn_report::{Line, When};
use jn_schedule::Event;
use jn_store::Powered;
use jn_world::{CLIENTS, Ended, World};

/// Settles: what waits is handed over and what is begun is carried out, until nothing is left to do. Then each client
/// and each server that is up sends once more what waits for an answer, and it goes on in the same way.
pub fn settle<S: Powered + Drop>(
    world: &mut World<S>,
    number: u32,
    lines: &mut Vec<Line>,
) -> Result<(), Ended>
    requires world { IsWorld (λ s. S.view s) world.old }
    ensures world { OnOk result (IsWorld (λ s. S.view s) world.new) }
    ensures does { DoesTasks (λ s. S.view s) (λ s. S.device s) settling (AtEvent number) (standing_of world.old) result (standing_of world.new) lines.old.items lines.new.items }
    ensures rests { OnOk result (IsAtRest (λ s. S.view s) (λ s. S.device s) world.new.net world.new.places.items) }
{
    settle_at(world, When::Event(number), lines)
}

/// What waits is handed over and what goes is carried out, until nothing is left to do; then all ask again, and so
/// once more.
pub(crate) fn settle_at<S: Powered + Drop>(
    world: &mut World<S>,
    when: When,
    lines: &mut Vec<Line>,
) -> Result<(), Ended>
    requires world { IsWorld (λ s. S.view s) world.old }
    ensures world { OnOk result (IsWorld (λ s. S.view s) world.new) }
    ensures calm { OnOk result (StayUp (λ s. S.view s) world.old.places.items world.new.places.items) }
    ensures does { DoesTasks (λ s. S.view s) (λ s. S.device s) settling when (standing_of world.old) result (standing_of world.new) lines.old.items lines.new.items }
    ensures rests { OnOk result (IsAtRest (λ s. S.view s) (λ s. S.device s) world.new.net world.new.places.items) }
{
    come_to_rest(world, when, lines)?;
    ask_again(world, when, lines)?;
    come_to_rest(world, when, lines)
}

/// Steps, until nothing is left to do.
fn come_to_rest<S: Powered + Drop>(
    world: &mut World<S>,
    when: When,
    lines: &mut Vec<Line>,
) -> Result<(), Ended>
    requires world { IsWorld (λ s. S.view s) world.old }
    ensures world { OnOk result (IsWorld (λ s. S.view s) world.new) }
    ensures calm { OnOk result (StayUp (λ s. S.view s) world.old.places.items world.new.places.items) }
    ensures does { DoesTasks (λ s. S.view s) (λ s. S.device s) (λ x. Rests ∷ []) when (standing_of world.old) result (standing_of world.new) lines.old.items lines.new.items }
    ensures rests { OnOk result (IsAtRest (λ s. S.view s) (λ s. S.device s) world.new.net world.new.places.items) }
{
    // Each turn hands one message over, and no message is handed over twice.
    while goes_on(world, when, lines)? {}
    Ok(())
}

/// What servers have to do is carried out, until a message waits; then the least that waits is handed over. False exactly where
/// none waits and nothing is left to do.
fn goes_on<S: Powered + Drop>(
    world: &mut World<S>,
    when: When,
    lines: &mut Vec<Line>,
) -> Result<bool, Ended>
    requires world { IsWorld (λ s. S.view s) world.old }
    ensures world { OnOk result (IsWorld (λ s. S.view s) world.new) }
    ensures calm { OnOk result (StayUp (λ s. S.view s) world.old.places.items world.new.places.items) }
    ensures turn { TakesTurn (λ s. S.view s) (λ s. S.device s) when (standing_of world.old) result (standing_of world.new) lines.old.items lines.new.items }
    ensures hands { IfOk result (λ hands. hands ≡ true → handed world.new.net.sent ≡ suc (handed world.old.net.sent)) }
    ensures rests { IfOk result (λ hands. hands ≡ false → IsAtRest (λ s. S.view s) (λ s. S.device s) world.new.net world.new.places.items) }
{
    carry_out(world, when, lines)?;
    let Some(k) = world.net.waiting() else {
        return Ok(false);
    };
    world.hand_over(k, when, lines)?;
    Ok(true)
}

/// Servers make steps, until a message waits or none has anything to do.
fn carry_out<S: Powered + Drop>(
    world: &mut World<S>,
    when: When,
    lines: &mut Vec<Line>,
) -> Result<(), Ended>
    requires world { IsWorld (λ s. S.view s) world.old }
    ensures world { OnOk result (IsWorld (λ s. S.view s) world.new) }
    ensures calm { OnOk result (StayUp (λ s. S.view s) world.old.places.items world.new.places.items) }
    ensures turns { KeepsOn (λ s. S.view s) (λ s. S.device s) when (standing_of world.old) result (standing_of world.new) lines.old.items lines.new.items }
    ensures hands { OnOk result (handed world.new.net.sent ≡ handed world.old.net.sent) }
    ensures rests { OnOk result (RestsUnlessWaiting (λ s. S.view s) (λ s. S.device s) world.new.net world.new.places.items) }
{
    // Each step leaves fewer to make.
    while carries_on(world, when, lines)? {}
    Ok(())
}

/// Where no message waits, the first server that has something to do makes a step. Whether one did.
fn carries_on<S: Powered + Drop>(
    world: &mut World<S>,
    when: When,
    lines: &mut Vec<Line>,
) -> Result<bool, Ended>
    requires world { IsWorld (λ s. S.view s) world.old }
    ensures world { OnOk result (IsWorld (λ s. S.view s) world.new) }
    ensures calm { OnOk result (StayUp (λ s. S.view s) world.old.places.items world.new.places.items) }
    ensures turn { KeepsOn (λ s. S.view s) (λ s. S.device s) when (standing_of world.old) result (standing_of world.new) lines.old.items lines.new.items }
    ensures hands { OnOk result (handed world.new.net.sent ≡ handed world.old.net.sent) }
    ensures less { IfOk result (λ works. works ≡ true → steps_of_all (λ s. S.view s) world.new.places.items < steps_of_all (λ s. S.view s) world.old.places.items) }
    ensures rests { IfOk result (λ works. works ≡ false → RestsUnlessWaiting (λ s. S.view s) (λ s. S.device s) world.new.net world.new.places.items) }
{
    if world.net.waiting().is_some() {
        return Ok(false);
    }
    if let Some(server) = first_busy(world) {
        world.make_step(server, when, lines)?;
        return Ok(true);
    }
    Ok(false)
}

/// The first server that is up and has something to do.
fn first_busy<S: Powered + Drop>(world: &World<S>) -> Option<ServerNo>
    requires world { IsWorld (λ s. S.view s) world.now }
    ensures first { TellsFirst (λ s. S.view s) (λ s. S.device s) world.now.places.items result }
{
    for s in 0..world.servers() {
        if is_busy(world, ServerNo(s)) {
            return Some(ServerNo(s));
        }
    }
    None
}

/// Whether it is up and has something to do.
fn is_busy<S: Powered + Drop>(world: &World<S>, server: ServerNo) -> bool
    requires world { IsWorld (λ s. S.view s) world.now }
    requires there { server.0 < vec_len world.now.places }
    ensures busy { TellsBusy (λ s. S.view s) (λ s. S.device s) server world.now.places.items result }
{
    if !world.is_up(server) {
        return false;
    }
    world.places[usize::from(server.0)].has_work()
}

/// Each client, and then each server that is up, sends once more what waits for an answer.
fn ask_again<S: Powered + Drop>(
    world: &mut World<S>,
    when: When,
    lines: &mut Vec<Line>,
) -> Result<(), Ended>
    requires world { IsWorld (λ s. S.view s) world.old }
    ensures world { OnOk result (IsWorld (λ s. S.view s) world.new) }
    ensures calm { OnOk result (StayUp (λ s. S.view s) world.old.places.items world.new.places.items) }
    ensures does { DoesTasks (λ s. S.view s) (λ s. S.device s) asking when (standing_of world.old) result (standing_of world.new) lines.old.items lines.new.items }
{
    ask_clients(world, when, lines)?;
    ask_servers(world, when, lines)
}

fn ask_clients<S: Powered + Drop>(
    world: &mut World<S>,
    when: When,
    lines: &mut Vec<Line>,
) -> Result<(), Ended>
    requires world { IsWorld (λ s. S.view s) world.old }
    ensures world { OnOk result (IsWorld (λ s. S.view s) world.new) }
    ensures calm { OnOk result (StayUp (λ s. S.view s) world.old.places.items world.new.places.items) }
    ensures does { DoesTasks (λ s. S.view s) (λ s. S.device s) asking_clients when (standing_of world.old) result (standing_of world.new) lines.old.items lines.new.items }
{
    for c in 0..CLIENTS {
        world.again(ClientNo(c + 1), when, lines)?;
    }
    Ok(())
}

fn ask_servers<S: Powered + Drop>(
    world: &mut World<S>,
    when: When,
    lines: &mut Vec<Line>,
) -> Result<(), Ended>
    requires world { IsWorld (λ s. S.view s) world.old }
    ensures world { OnOk result (IsWorld (λ s. S.view s) world.new) }
    ensures calm { OnOk result (StayUp (λ s. S.view s) world.old.places.items world.new.places.items) }
    ensures does { DoesTasks (λ s. S.view s) (λ s. S.device s) asking_servers when (standing_of world.old) result (standing_of world.new) lines.old.items lines.new.items }
{
    for s in 0..world.servers() {
        ask_server(world, ServerNo(s), when, lines)?;
    }
    Ok(())
}

/// A server sends again what waits for an answer, if it is up.
fn ask_server<S: Powered + Drop>(
    world: &mut World<S>,
    server: ServerNo,
    when: When,
    lines: &mut Vec<Line>,
) -> Result<(), Ended>
    requires world { IsWorld (λ s. S.view s) world.old }
    requires there { server.0 < vec_len world.old.places }
    ensures world { OnOk result (IsWorld (λ s. S.view s) world.new) }
    ensures calm { OnOk result (StayUp (λ s. S.view s) world.old.places.items world.new.places.items) }
    ensures as_many { OnOk result (vec_len world.new.places ≡ vec_len world.old.places) }
    ensures does { DoesEvent (λ s. S.view s) (λ s. S.device s) (Nudge server) when (standing_of world.old) result (standing_of world.new) lines.old.items lines.new.items }
{
    if !world.is_up(server) {
        return Ok(());
    }
    world.nudge(server, when, lines)
}
