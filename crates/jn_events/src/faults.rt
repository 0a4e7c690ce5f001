//! What befalls a server's device.
ghost use Rattle.jn_device.specs.Events.{is_within};
ghost use Rattle.jn_events.specs.Meeting.{IsBefalling};
ghost use Rattle.jn_events.specs.Written.{DoesTasks};
ghost use Rattle.jn_machine.specs.Tasks.{Meets};
ghost use Rattle.jn_schedule.specs.Ranges.{EventInRange};
ghost use Rattle.jn_world.specs.Standing.{IsWorld};
ghost use Rattle.jn_world.specs.Written.{standing_of};
ghost use Rattle.std.specs.Prelude.{◌≡◌, ◌∷◌, [], OnOk, ◌<◌, vec_len};
ghost use Rattle.jn_schedule.specs.declared.Event.TheVariants as events;

use crate::meeting::refuse;
use jn_base::{FaultKind, Outside, ServerNo};
use jn_place::tell;
use jn_report::{EventRefusal, Line, Text, When};
use jn_schedule::Event;
use jn_store::Powered;
use jn_world::{Ended, World};

/// Whether a fault names a page that there is.
fn is_within(pages: u32, kind: FaultKind) -> bool
    ensures { result ≡ is_within pages kind }
{
    match kind {
        FaultKind::Decay(p) | FaultKind::Revive(p) => p < pages,
        _ => true,
    }
}

/// An event of the device of a server that must be there, up or down.
pub(crate) fn befall<S: Powered + Drop>(
    world: &mut World<S>,
    server: ServerNo,
    event: &Event,
    when: When,
    lines: &mut Vec<Line>,
) -> Result<(), Ended>
    requires world { IsWorld (λ s. S.view s) world.old }
    requires its { IsBefalling server event.now }
    requires range { EventInRange event.now }
    ensures world { OnOk result (IsWorld (λ s. S.view s) world.new) }
    ensures does { DoesTasks (λ s. S.view s) (λ s. S.device s) (λ x. Meets event.now ∷ []) when (standing_of world.old) result (standing_of world.new) lines.old.items lines.new.items }
{
    if !world.has(server) {
        return refuse(lines, when, EventRefusal::NoSuchServer);
    }
    match event {
        Event::Decay(_, p) => decay(world, server, *p, when, lines),
        Event::Revive(_, p) => revive(world, server, *p, when, lines),
        Event::Arm(_, n, kind) => arm(world, server, *n, *kind, when, lines),
        _ => Ok(()),
    }
}

/// A page goes bad, or that is reported as outside of what is allowed.
fn decay<S: Powered + Drop>(
    world: &mut World<S>,
    server: ServerNo,
    p: u32,
    when: When,
    lines: &mut Vec<Line>,
) -> Result<(), Ended>
    requires world { IsWorld (λ s. S.view s) world.old }
    requires there { server.0 < vec_len world.old.places }
    ensures world { OnOk result (IsWorld (λ s. S.view s) world.new) }
    ensures does { DoesTasks (λ s. S.view s) (λ s. S.device s) (λ x. Meets (events.Decay server p) ∷ []) when (standing_of world.old) result (standing_of world.new) lines.old.items lines.new.items }
{
    let place = &mut world.places[usize::from(server.0)];
    if p >= place.pages() {
        return refuse(lines, when, EventRefusal::NoSuchPage);
    }
    if !place.decay(p) {
        let kind = FaultKind::Decay(p);
        tell(
            lines,
            when,
            Text::Outside(server, Outside { kind, page: p }),
        )?;
    }
    Ok(())
}

/// A bad page is good again.
fn revive<S: Powered + Drop>(
    world: &mut World<S>,
    server: ServerNo,
    p: u32,
    when: When,
    lines: &mut Vec<Line>,
) -> Result<(), Ended>
    requires world { IsWorld (λ s. S.view s) world.old }
    requires there { server.0 < vec_len world.old.places }
    ensures world { OnOk result (IsWorld (λ s. S.view s) world.new) }
    ensures does { DoesTasks (λ s. S.view s) (λ s. S.device s) (λ x. Meets (events.Revive server p) ∷ []) when (standing_of world.old) result (standing_of world.new) lines.old.items lines.new.items }
{
    let place = &mut world.places[usize::from(server.0)];
    if p >= place.pages() {
        return refuse(lines, when, EventRefusal::NoSuchPage);
    }
    place.revive(p);
    Ok(())
}

/// A fault waits for the n-th device call from now.
fn arm<S: Powered + Drop>(
    world: &mut World<S>,
    server: ServerNo,
    n: u32,
    kind: FaultKind,
    when: When,
    lines: &mut Vec<Line>,
) -> Result<(), Ended>
    requires world { IsWorld (λ s. S.view s) world.old }
    requires there { server.0 < vec_len world.old.places }
    requires from_one { 0 < n }
    ensures world { OnOk result (IsWorld (λ s. S.view s) world.new) }
    ensures does { DoesTasks (λ s. S.view s) (λ s. S.device s) (λ x. Meets (events.Arm server n kind) ∷ []) when (standing_of world.old) result (standing_of world.new)
        lines.old.items lines.new.items }
{
    let place = &mut world.places[usize::from(server.0)];
    if !is_within(place.pages(), kind) {
        return refuse(lines, when, EventRefusal::NoSuchPage);
    }
    if !place.arm(n, kind) {
        return refuse(lines, when, EventRefusal::TooManyArmed);
    }
    Ok(())
}
