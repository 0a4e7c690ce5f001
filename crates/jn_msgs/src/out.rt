//! What a step sends and reports.

ghost use Rattle.std.specs.Prelude.{◌≡◌, [], ◌∷◌, ◌++◌, take, is_ok, if◌then◌else◌};

use crate::message::{Message, Note};
use jn_base::Party;
use std::alloc::{AllocError, Global};
use std::marker::Model;

/// The messages and the notes of a step, each in order: contracts see both lists.
#[derive(Drop)]
pub struct Out {
    messages: Vec<(Party, Message)>,
    notes: Vec<Note>,
}

impl Model for Out {
    ghost use Rattle.jn_msgs.specs.Collected.{Collected};

    ghost Value = { Collected };

    ghost view = { λ o. record { messages = o.messages.items; notes = o.notes.items } };
}

impl Out {
    pub fn new(alloc: Global) -> Out
        ensures { result ≡ record { messages = []; notes = [] } }
    {
        Out {
            messages: Vec::new(alloc),
            notes: Vec::new(alloc),
        }
    }

    /// Nothing yet, in the room of a list of messages, which are dropped.
    pub fn in_room(alloc: Global, messages: Vec<(Party, Message)>) -> Out
        ensures { result ≡ record { messages = []; notes = [] } }
    {
        let mut messages = messages;
        messages.clear();
        Out {
            messages,
            notes: Vec::new(alloc),
        }
    }

    /// Adds a message. Without memory nothing changes.
    pub fn send(&mut self, to: Party, message: Message) -> Result<(), AllocError>
        ensures { self.new ≡ record self.old {
          messages = if is_ok result then self.old.messages ++ (to, message) ∷ [] else self.old.messages;
        } }
    {
        self.messages.push((to, message))?;
        Ok(())
    }

    /// Adds a note. Without memory nothing changes.
    pub fn note(&mut self, note: Note) -> Result<(), AllocError>
        ensures { self.new ≡ record self.old {
          notes = if is_ok result then self.old.notes ++ note ∷ [] else self.old.notes;
        } }
    {
        self.notes.push(note)?;
        Ok(())
    }

    /// Takes back all but so many first messages and notes.
    pub fn truncate(&mut self, messages: usize, notes: usize)
        ensures { self.new ≡ record { messages = take messages self.old.messages; notes = take notes self.old.notes } }
    {
        self.messages.truncate(messages);
        self.notes.truncate(notes);
    }

    pub fn messages(&self) -> &[(Party, Message)]
        ensures { result.now ≡ self.now.messages }
    {
        self.messages.as_slice()
    }

    pub fn notes(&self) -> &[Note]
        ensures { result.now ≡ self.now.notes }
    {
        self.notes.as_slice()
    }

    /// Gives both lists away.
    pub fn into_parts(self) -> (Vec<(Party, Message)>, Vec<Note>)
        ensures messages { result.0.items ≡ self.messages }
        ensures notes { result.1.items ≡ self.notes }
    {
        let Out { messages, notes } = self;
        (messages, notes)
    }
}
