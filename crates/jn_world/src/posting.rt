//! What a step sends and reports.
ghost use Rattle.std.specs.Prelude.{◌≡◌, ◌≤◌, ◌++◌, ◌∷◌, [], length, OnOk, Some};
ghost use Rattle.jn_base.specs.declared.names.Party.TheVariants.{Server};
ghost use Rattle.jn_system.specs.WholeSystem.Servers.{line_of, lines_of};
ghost use Rattle.jn_system.specs.WholeSystem.World.{commits_in};
ghost use Rattle.jn_world_refines.specs.Stands.{posted_by, texts_sent, with_answer, with_sent};
ghost use Rattle.jn_world.specs.Standing.{messages_in};
ghost use Rattle.jn_world.specs.Written.{EndsPart, EndsStep, standing_of};
ghost use Rattle.jn_machine.specs.Steps.{message_texts, traced, most_messages};
ghost use Rattle.jn_report.specs.Lines.{lines_at};

use crate::ended::Ended;
use crate::world::World;
use jn_base::{Party, ServerNo};
use jn_msgs::{Message, Note, Out};
use jn_place::tell;
use jn_report::{Line, Text, When};
use jn_store::Powered;
use std::alloc::AllocError;

impl<S: Powered + Drop> World<S> {
    /// A step of a server ends: unless it was stopped its notes are reported and its messages sent. Its lines are added.
    pub(crate) fn end_step(
        &mut self,
        server: ServerNo,
        message: Option<u32>,
        answer: Option<Out>,
        when: When,
        told: Vec<Line>,
        lines: &mut Vec<Line>,
    ) -> Result<(), Ended>
        requires few { length self.old.net.sent ≤ most_messages }
        ensures others { self.new ≡ record self.old { net = self.new.net; named = self.new.named } }
        ensures sent { OnOk result (self.new.net.sent ≡ self.old.net.sent ++ posted_by (Server server) (messages_in answer)) }
        ensures limit { OnOk result (length self.new.net.sent ≤ most_messages) }
        ensures ends { EndsStep result (with_answer server message answer (standing_of self.old)) (standing_of self.new) lines.old.items
            (lines.old.items ++ told.items ++ lines_at when (texts_sent server message self.old.trace (length self.old.net.sent) answer)) lines.new.items }
    {
        let mut told = told;
        if let Some(out) = answer {
            self.send_out(server, message, out, when, &mut told)?;
        }
        if told.is_empty() {
            return Ok(());
        }
        lines.append(&mut told)?;
        Ok(())
    }

    /// The notes of a server's step are reported, and its messages sent.
    fn send_out(
        &mut self,
        server: ServerNo,
        message: Option<u32>,
        out: Out,
        when: When,
        told: &mut Vec<Line>,
    ) -> Result<(), Ended>
        requires few { length self.old.net.sent ≤ most_messages }
        ensures others { self.new ≡ record self.old { net = self.new.net; named = self.new.named } }
        ensures sent { OnOk result (self.new.net.sent ≡ self.old.net.sent ++ posted_by (Server server) out.messages) }
        ensures limit { OnOk result (length self.new.net.sent ≤ most_messages) }
        ensures ends { EndsPart result (with_answer server message (Some out) (standing_of self.old)) (standing_of self.new)
            (told.old.items ++ lines_at when (texts_sent server message self.old.trace (length self.old.net.sent) (Some out))) told.new.items }
    {
        let (messages, notes) = out.into_parts();
        self.tell_notes(server, message, &notes, when, told)?;
        self.post_all(Party::Server(server), messages, when, told)
    }

    /// Sends messages, the first one first, and keeps their room.
    fn post_all(
        &mut self,
        from: Party,
        messages: Vec<(Party, Message)>,
        when: When,
        told: &mut Vec<Line>,
    ) -> Result<(), Ended>
        requires few { length self.old.net.sent ≤ most_messages }
        ensures others { self.new ≡ record self.old { net = self.new.net } }
        ensures sent { OnOk result (self.new.net.sent ≡ self.old.net.sent ++ posted_by from messages.items) }
        ensures limit { OnOk result (length self.new.net.sent ≤ most_messages) }
        ensures ends { EndsPart result (with_sent (posted_by from messages.items) (standing_of self.old)) (standing_of self.new)
            (told.old.items ++ lines_at when (traced self.old.trace (message_texts from (length self.old.net.sent) messages.items))) told.new.items }
    {
        let mut messages = messages;
        for (to, message) in messages.drain(..) {
            self.post(from, to, message, when, told)?;
        }
        self.net.keep_room(messages);
        Ok(())
    }

    /// Sends a message, with a line where messages are traced.
    pub(crate) fn post(
        &mut self,
        from: Party,
        to: Party,
        message: Message,
        when: When,
        told: &mut Vec<Line>,
    ) -> Result<(), Ended>
        ensures others { self.new ≡ record self.old { net = self.new.net } }
        ensures sent { OnOk result (self.new.net.sent ≡ self.old.net.sent ++ posted_by from ((to, message) ∷ [])) }
        ensures limit { OnOk result (length self.new.net.sent ≤ most_messages) }
        ensures ends { EndsStep result (with_sent (posted_by from ((to, message) ∷ [])) (standing_of self.old)) (standing_of self.new) told.old.items
            (told.old.items ++ lines_at when (traced self.old.trace (message_texts from (length self.old.net.sent) ((to, message) ∷ [])))) told.new.items }
    {
        let kind = message.kind();
        let k = self.net.send(from, to, message)?;
        if self.trace {
            tell(told, when, Text::Message(k, from, to, kind))?;
        }
        Ok(())
    }

    /// Reports the notes of a server's step, in which this message was handed over.
    fn tell_notes(
        &mut self,
        server: ServerNo,
        message: Option<u32>,
        notes: &[Note],
        when: When,
        told: &mut Vec<Line>,
    ) -> Result<(), AllocError>
        ensures others { self.new ≡ record self.old { named = self.new.named } }
        ensures names { OnOk result (self.new.named.names.items ≡ self.old.named.names.items ++ commits_in (lines_of server message notes.now)) }
        ensures told { OnOk result (told.new.items ≡ told.old.items ++ lines_at when (lines_of server message notes.now)) }
    {
        for note in notes {
            self.tell_note(server, message, *note, when, told)?;
        }
        Ok(())
    }

    fn tell_note(
        &mut self,
        server: ServerNo,
        message: Option<u32>,
        note: Note,
        when: When,
        told: &mut Vec<Line>,
    ) -> Result<(), AllocError>
        ensures others { self.new ≡ record self.old { named = self.new.named } }
        ensures names { OnOk result (self.new.named.names.items ≡ self.old.named.names.items ++ commits_in (line_of server message note)) }
        ensures told { OnOk result (told.new.items ≡ told.old.items ++ lines_at when (line_of server message note)) }
    {
        match note {
            Note::Commit(tid) => {
                self.named.add(tid)?;
                tell(told, when, Text::Commit(tid))?;
            }
            Note::Broke(tid, unit, by) => tell(told, when, Text::Broke(server, tid, unit, by))?,
            Note::Ignored => {
                if let Some(k) = message {
                    tell(told, when, Text::Ignored(k))?;
                }
            }
        }
        Ok(())
    }
}
