//! Messages that are handed over.
ghost use Rattle.std.specs.Prelude.{◌≡◌, ◌<◌, [], true, false, length, OnOk, slice_get};
ghost use Rattle.jn_base.specs.declared.names.Party.TheVariants.{Server as AServer};
ghost use Rattle.jn_net.specs.Carried.{with_delivered};
ghost use Rattle.jn_schedule.specs.declared.Event.TheVariants as events;
ghost use Rattle.jn_world.specs.Calm.{StayUp};
ghost use Rattle.jn_world.specs.Counting.{handed};
ghost use Rattle.jn_world.specs.Standing.{IsWorld, is_up_at};
ghost use Rattle.jn_world.specs.Written.{DoesEvent, IsSentTo, standing_of};

use crate::ended::Ended;
use crate::world::World;
use jn_base::{Party, ServerNo};
use jn_msgs::Out;
use jn_place::tell;
use jn_report::{Line, Text, When};
use jn_store::Powered;

impl<S: Powered + Drop> World<S> {
    /// The message of this number, which was sent, is handed over.
    pub fn hand_over(&mut self, k: u32, when: When, lines: &mut Vec<Line>) -> Result<(), Ended>
        requires world { IsWorld (λ s. S.view s) self.old }
        requires sent { k < length self.old.net.sent }
        ensures world { OnOk result (IsWorld (λ s. S.view s) self.new) }
        ensures calm { OnOk result (StayUp (λ s. S.view s) self.old.places.items self.new.places.items) }
        ensures does { DoesEvent (λ s. S.view s) (λ s. S.device s) (events.Deliver k) when (standing_of self.old) result (standing_of self.new) lines.old.items lines.new.items }
        ensures hands { OnOk result (handed self.new.net.sent ≡ handed (with_delivered k self.old.net.sent)) }
    {
        let Some(sent) = self.net.message(k) else {
            unreachable!()
        };
        match sent.to {
            Party::Client(client) => self.take_at_client(client, k, when, lines),
            Party::Server(server) => self.take_at_server(server, k, when, lines),
        }
    }

    /// A server takes a message. One that is down loses it, as would one that isn't there, to which none is sent.
    fn take_at_server(
        &mut self,
        server: ServerNo,
        k: u32,
        when: When,
        lines: &mut Vec<Line>,
    ) -> Result<(), Ended>
        requires world { IsWorld (λ s. S.view s) self.old }
        requires sent { k < length self.old.net.sent }
        requires to { IsSentTo (AServer server) (slice_get self.old.net.sent k) }
        ensures world { OnOk result (IsWorld (λ s. S.view s) self.new) }
        ensures calm { OnOk result (StayUp (λ s. S.view s) self.old.places.items self.new.places.items) }
        ensures does { DoesEvent (λ s. S.view s) (λ s. S.device s) (events.Deliver k) when (standing_of self.old) result (standing_of self.new) lines.old.items lines.new.items }
        ensures hands { OnOk result (handed self.new.net.sent ≡ handed (with_delivered k self.old.net.sent)) }
    {
        if !self.is_up(server) {
            return self.lose(server, k, when, lines);
        }
        let out = self.net.lend_room(self.alloc);
        self.take_at_up(out, server, k, when, lines)
    }

    /// A message for a server that isn't up is lost.
    fn lose(
        &mut self,
        server: ServerNo,
        k: u32,
        when: When,
        lines: &mut Vec<Line>,
    ) -> Result<(), Ended>
        requires world { IsWorld (λ s. S.view s) self.old }
        requires sent { k < length self.old.net.sent }
        requires to { IsSentTo (AServer server) (slice_get self.old.net.sent k) }
        requires down { is_up_at server.0 self.old.places.items ≡ false }
        ensures world { OnOk result (IsWorld (λ s. S.view s) self.new) }
        ensures calm { OnOk result (StayUp (λ s. S.view s) self.old.places.items self.new.places.items) }
        ensures does { DoesEvent (λ s. S.view s) (λ s. S.device s) (events.Deliver k) when (standing_of self.old) result (standing_of self.new) lines.old.items lines.new.items }
        ensures hands { OnOk result (handed self.new.net.sent ≡ handed (with_delivered k self.old.net.sent)) }
    {
        self.net.delivered(k);
        tell(lines, when, Text::Lost(k))?;
        Ok(())
    }

    /// A server that is up takes a message, with the room for what it sends and reports.
    fn take_at_up(
        &mut self,
        out: Out,
        server: ServerNo,
        k: u32,
        when: When,
        lines: &mut Vec<Line>,
    ) -> Result<(), Ended>
        requires world { IsWorld (λ s. S.view s) self.old }
        requires sent { k < length self.old.net.sent }
        requires to { IsSentTo (AServer server) (slice_get self.old.net.sent k) }
        requires up { is_up_at server.0 self.old.places.items ≡ true }
        requires empty { out ≡ record { messages = []; notes = [] } }
        ensures world { OnOk result (IsWorld (λ s. S.view s) self.new) }
        ensures calm { OnOk result (StayUp (λ s. S.view s) self.old.places.items self.new.places.items) }
        ensures does { DoesEvent (λ s. S.view s) (λ s. S.device s) (events.Deliver k) when (standing_of self.old) result (standing_of self.new) lines.old.items lines.new.items }
        ensures hands { OnOk result (handed self.new.net.sent ≡ handed (with_delivered k self.old.net.sent)) }
    {
        let mut told = Vec::new(self.alloc);
        let Some(sent) = self.net.message(k) else {
            unreachable!()
        };
        let place = &mut self.places[usize::from(server.0)];
        let answer = place.take(out, server, &sent.message, when, &mut told)?;
        self.net.delivered(k);
        self.end_step(server, Some(k), answer, when, told, lines)
    }
}
