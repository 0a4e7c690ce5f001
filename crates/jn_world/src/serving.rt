//! What servers that are up do without a message.
ghost use Rattle.std.specs.Prelude.{◌≡◌, ◌<◌, ◌++◌, [], true, map, vec_len, OnOk};
ghost use Rattle.jn_place.specs.Exact.{items_of};
ghost use Rattle.jn_schedule.specs.declared.Event.TheVariants as events;
ghost use Rattle.jn_world_refines.specs.Showing.{text_shown, texts_shown};
ghost use Rattle.jn_world.specs.Calm.{AreQuiet, AreUpAndCalm, IsTakenDown, StayUp};
ghost use Rattle.jn_world.specs.Images.{AreClean, IsScrubbedAt, StayClean};
ghost use Rattle.jn_world.specs.Counting.{handed, steps_of_all};
ghost use Rattle.jn_world.specs.Standing.{IsWorld, is_up_at, works_at};
ghost use Rattle.jn_world.specs.Written.{DoesEvent, standing_of};
ghost use Rattle.jn_report.specs.Lines.{lines_at};

use crate::ended::Ended;
use crate::world::World;
use jn_base::ServerNo;
use jn_msgs::Out;
use jn_place::tell;
use jn_report::{Line, Text, When};
use jn_server::Shown;
use jn_store::Powered;
use std::alloc::AllocError;

/// A line of a show.
fn text_of(server: ServerNo, shown: Shown) -> Text
    ensures { result ≡ text_shown server shown }
{
    match shown {
        Shown::File(file) => Text::File(server, file),
        Shown::Locked(unit, tid) => Text::Locked(server, unit, tid),
        Shown::Page(file, block, content) => Text::Page(server, file, block, content),
    }
}

/// The lines of a show, whose list is left empty.
fn tell_shown(
    lines: &mut Vec<Line>,
    when: When,
    server: ServerNo,
    list: &mut Vec<Shown>,
) -> Result<(), AllocError>
    ensures { OnOk result (lines.new.items ≡ lines.old.items ++ lines_at when (map (text_shown server) list.old.items)) }
{
    for shown in list.drain(..) {
        tell(lines, when, text_of(server, shown))?;
    }
    Ok(())
}

/// The lines of a show, none of which are of a server that was stopped.
fn tell_list(
    lines: &mut Vec<Line>,
    when: When,
    server: ServerNo,
    shown: &mut Option<Vec<Shown>>,
) -> Result<(), AllocError>
    ensures { OnOk result (lines.new.items ≡ lines.old.items ++ lines_at when (texts_shown server (items_of shown.old))) }
{
    match shown {
        None => Ok(()),
        Some(list) => tell_shown(lines, when, server, list),
    }
}

impl<S: Powered + Drop> World<S> {
    /// One background step, if there is something to do.
    pub fn work(&mut self, server: ServerNo, when: When, lines: &mut Vec<Line>) -> Result<(), Ended>
        requires world { IsWorld (λ s. S.view s) self.old }
        requires up { is_up_at server.0 self.old.places.items ≡ true }
        ensures world { OnOk result (IsWorld (λ s. S.view s) self.new) }
        ensures calm { OnOk result (StayUp (λ s. S.view s) self.old.places.items self.new.places.items) }
        ensures does { DoesEvent (λ s. S.view s) (λ s. S.device s) (events.Step server) when (standing_of self.old) result (standing_of self.new) lines.old.items lines.new.items }
    {
        if !self.places[usize::from(server.0)].has_work() {
            return Ok(());
        }
        self.make_step(server, when, lines)
    }

    /// A server that has something to do makes one background step, which leaves fewer to make.
    pub fn make_step(
        &mut self,
        server: ServerNo,
        when: When,
        lines: &mut Vec<Line>,
    ) -> Result<(), Ended>
        requires world { IsWorld (λ s. S.view s) self.old }
        requires up { is_up_at server.0 self.old.places.items ≡ true }
        requires work { works_at (λ s. S.view s) server.0 self.old.places.items ≡ true }
        ensures world { OnOk result (IsWorld (λ s. S.view s) self.new) }
        ensures calm { OnOk result (StayUp (λ s. S.view s) self.old.places.items self.new.places.items) }
        ensures does { DoesEvent (λ s. S.view s) (λ s. S.device s) (events.Step server) when (standing_of self.old) result (standing_of self.new) lines.old.items lines.new.items }
        ensures hands { OnOk result (handed self.new.net.sent ≡ handed self.old.net.sent) }
        ensures less { OnOk result (steps_of_all (λ s. S.view s) self.new.places.items < steps_of_all (λ s. S.view s) self.old.places.items) }
    {
        let out = self.net.lend_room(self.alloc);
        self.step_into(out, server, when, lines)
    }

    /// The same, with the room for what the step sends and reports.
    fn step_into(
        &mut self,
        out: Out,
        server: ServerNo,
        when: When,
        lines: &mut Vec<Line>,
    ) -> Result<(), Ended>
        requires world { IsWorld (λ s. S.view s) self.old }
        requires up { is_up_at server.0 self.old.places.items ≡ true }
        requires work { works_at (λ s. S.view s) server.0 self.old.places.items ≡ true }
        requires empty { out ≡ record { messages = []; notes = [] } }
        ensures world { OnOk result (IsWorld (λ s. S.view s) self.new) }
        ensures calm { OnOk result (StayUp (λ s. S.view s) self.old.places.items self.new.places.items) }
        ensures does { DoesEvent (λ s. S.view s) (λ s. S.device s) (events.Step server) when (standing_of self.old) result (standing_of self.new) lines.old.items lines.new.items }
        ensures hands { OnOk result (handed self.new.net.sent ≡ handed self.old.net.sent) }
        ensures less { OnOk result (steps_of_all (λ s. S.view s) self.new.places.items < steps_of_all (λ s. S.view s) self.old.places.items) }
    {
        let mut told = Vec::new(self.alloc);
        let place = &mut self.places[usize::from(server.0)];
        let answer = place.step(out, server, when, &mut told)?;
        self.end_step(server, None, answer, when, told, lines)
    }

    /// A server sends again what waits for an answer.
    pub fn nudge(
        &mut self,
        server: ServerNo,
        when: When,
        lines: &mut Vec<Line>,
    ) -> Result<(), Ended>
        requires world { IsWorld (λ s. S.view s) self.old }
        requires up { is_up_at server.0 self.old.places.items ≡ true }
        ensures world { OnOk result (IsWorld (λ s. S.view s) self.new) }
        ensures calm { OnOk result (StayUp (λ s. S.view s) self.old.places.items self.new.places.items) }
        ensures does { DoesEvent (λ s. S.view s) (λ s. S.device s) (events.Nudge server) when (standing_of self.old) result (standing_of self.new) lines.old.items lines.new.items }
        ensures as_many { OnOk result (vec_len self.new.places ≡ vec_len self.old.places) }
    {
        let out = self.net.lend_room(self.alloc);
        self.nudge_into(out, server, when, lines)
    }

    /// The same, with the room for what the server sends.
    fn nudge_into(
        &mut self,
        out: Out,
        server: ServerNo,
        when: When,
        lines: &mut Vec<Line>,
    ) -> Result<(), Ended>
        requires world { IsWorld (λ s. S.view s) self.old }
        requires up { is_up_at server.0 self.old.places.items ≡ true }
        requires empty { out ≡ record { messages = []; notes = [] } }
        ensures world { OnOk result (IsWorld (λ s. S.view s) self.new) }
        ensures calm { OnOk result (StayUp (λ s. S.view s) self.old.places.items self.new.places.items) }
        ensures does { DoesEvent (λ s. S.view s) (λ s. S.device s) (events.Nudge server) when (standing_of self.old) result (standing_of self.new) lines.old.items lines.new.items }
        ensures as_many { OnOk result (vec_len self.new.places ≡ vec_len self.old.places) }
    {
        let told = Vec::new(self.alloc);
        let out = self.places[usize::from(server.0)].again(out)?;
        self.end_step(server, None, Some(out), when, told, lines)
    }

    /// Each pair of pages is cleaned.
    pub fn scrub(
        &mut self,
        server: ServerNo,
        when: When,
        lines: &mut Vec<Line>,
    ) -> Result<(), Ended>
        requires world { IsWorld (λ s. S.view s) self.old }
        requires up { is_up_at server.0 self.old.places.items ≡ true }
        ensures world { OnOk result (IsWorld (λ s. S.view s) self.new) }
        ensures as_many { OnOk result (vec_len self.new.places ≡ vec_len self.old.places) }
        ensures calm { OnOk result (StayUp (λ s. S.view s) self.old.places.items self.new.places.items) }
        ensures clean { OnOk result (StayClean (λ s. S.view s) self.old.places.items self.new.places.items) }
        ensures images { OnOk result (AreUpAndCalm (λ s. S.view s) self.old.places.items → AreClean (λ s. S.view s) self.old.places.items → IsScrubbedAt (λ s. S.view s) server.0 self.old.places.items self.new.places.items) }
        ensures does { DoesEvent (λ s. S.view s) (λ s. S.device s) (events.Scrub server) when (standing_of self.old) result (standing_of self.new) lines.old.items lines.new.items }
    {
        self.places[usize::from(server.0)].scrub(server, when, lines)?;
        Ok(())
    }

    /// The server's files are printed.
    pub fn show(&mut self, server: ServerNo, when: When, lines: &mut Vec<Line>) -> Result<(), Ended>
        requires world { IsWorld (λ s. S.view s) self.old }
        requires up { is_up_at server.0 self.old.places.items ≡ true }
        ensures world { OnOk result (IsWorld (λ s. S.view s) self.new) }
        ensures as_many { OnOk result (vec_len self.new.places ≡ vec_len self.old.places) }
        ensures calm { OnOk result (StayUp (λ s. S.view s) self.old.places.items self.new.places.items) }
        ensures clean { OnOk result (StayClean (λ s. S.view s) self.old.places.items self.new.places.items) }
        ensures does { DoesEvent (λ s. S.view s) (λ s. S.device s) (events.Show server) when (standing_of self.old) result (standing_of self.new) lines.old.items lines.new.items }
    {
        let place = &mut self.places[usize::from(server.0)];
        let mut shown = place.show(self.alloc, server, when, lines)?;
        tell_list(lines, when, server, &mut shown)?;
        place.keep_room(shown);
        Ok(())
    }

    /// A server goes down.
    pub fn crash(
        &mut self,
        server: ServerNo,
        when: When,
        lines: &mut Vec<Line>,
    ) -> Result<(), Ended>
        requires world { IsWorld (λ s. S.view s) self.old }
        requires up { is_up_at server.0 self.old.places.items ≡ true }
        ensures world { OnOk result (IsWorld (λ s. S.view s) self.new) }
        ensures others { self.new ≡ record self.old { places = self.new.places } }
        ensures as_many { vec_len self.new.places ≡ vec_len self.old.places }
        ensures down { OnOk result (IsTakenDown server.0 self.old.places.items self.new.places.items) }
        ensures quiet { OnOk result (AreQuiet (λ s. S.view s) self.old.places.items → AreQuiet (λ s. S.view s) self.new.places.items) }
        ensures does { DoesEvent (λ s. S.view s) (λ s. S.device s) (events.Crash server) when (standing_of self.old) result (standing_of self.new) lines.old.items lines.new.items }
    {
        self.places[usize::from(server.0)].crash();
        tell(lines, when, Text::Down(server))?;
        Ok(())
    }
}
