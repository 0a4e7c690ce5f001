//! A server that takes frames.
ghost use Rattle.std.specs.Prelude.{◌≡◌, ◌≤◌, ◌<◌, ◌+◌, ◌^◌, ◌↔◌, ◌∷◌, [], true, false, IsFalse, OnOk, IfOk};
ghost use Rattle.jn_msgs.specs.Ranges.{CanBeTaken, names_near};
ghost use Rattle.jn_node.specs.Calls.{BeginsBy, HandlesMessage, PostsAll, TakesFrame, IsSameNode};
ghost use Rattle.jn_node.specs.Nodes.{IsAtWork, IsNode, IsRunning, counts_at, left_to_take, running_at, view_at};
ghost use Rattle.jn_node.specs.Running.{state_of};
ghost use Rattle.jn_node.specs.Serving.{IsTaken, is_own, row_for};
ghost use Rattle.jn_msgs.specs.Weights.{weight};
ghost use Rattle.jn_row_ranges.specs.Drawing.{draws};
ghost use Rattle.jn_row_ranges.specs.Taking.{are_from_server, is_from_server};
ghost use Rattle.jn_system.specs.WholeSystem.Servers.{server_again, server_timeout};
ghost use Rattle.jn_server.specs.Settled.{IsSettledState};
ghost use Rattle.jn_wire.specs.Taking.{MayCome};

use jn_base::{Party, ServerNo, Tid};
use jn_intent::PageCounts;
use jn_msgs::{Message, Out};
use jn_server::{Server, ServerFault};
use jn_store::StableStore;
use jn_wire::{Body, Framed, encode};
use std::alloc::{AllocError, Global};
use std::collections::VecDeque;

/// A server that takes frames, with the frames that it has yet to give to others.
#[derive(Drop)]
pub struct Node<S: StableStore + Drop> {
    pub(crate) alloc: Global,
    pub(crate) server: ServerNo,
    pub(crate) counts: PageCounts,
    pub(crate) running: Server<S>,
    /// What it has sent to itself and not taken yet, the oldest first.
    pub(crate) own: VecDeque<Message>,
    /// The frames of what it has sent to others.
    pub(crate) answers: Vec<u8>,
}

impl<S: StableStore + Drop> Node<S> {
    /// Does what a frame says, takes what it sends to itself by that, and carries out what then goes, until nothing is left to do. The
    /// frames of all that it sends to others are added to the answers, in the order in which they are sent.
    pub fn take(&mut self, body: &Body) -> Result<(), AllocError>
        requires node { IsNode (λ s. S.view s) self.old }
        requires may { MayCome body.now }
        requires next { self.old.running.tickets.next + 2 < 2 ^ 32 }
        ensures node { OnOk result (IsNode (λ s. S.view s) self.new) }
        ensures serves { OnOk result (TakesFrame (λ s. S.view s) self.old body.now self.new) }
        ensures next { OnOk result (self.new.running.tickets.next ≤ self.old.running.tickets.next + 1) }
        ensures same { IsSameNode self.old self.new }
    {
        self.begin(body)?;
        self.settle()
    }

    /// The frames of what it has sent to others, one behind another.
    pub fn answers(&self) -> &[u8]
        ensures { result.now ≡ self.now.answers.items }
    {
        self.answers.as_slice()
    }

    /// Forgets the answers, once they were written.
    pub fn clear_answers(&mut self)
        ensures others { self.new ≡ record self.old { answers = self.new.answers } }
        ensures empty { self.new.answers.items ≡ [] }
    {
        self.answers.clear();
    }

    /// Whether a work is prepared or a transaction has a flag, so that others may wait for it.
    pub fn unsettled(&self) -> bool
        requires node { IsNode (λ s. S.view s) self.now }
        ensures settled { IsFalse result ↔ IsSettledState (state_of (counts_at self.now) (running_at (λ s. S.view s) self.now)) }
    {
        self.running.unsettled()
    }

    /// The frame itself.
    fn begin(&mut self, body: &Body) -> Result<(), AllocError>
        requires node { IsNode (λ s. S.view s) self.old }
        requires may { MayCome body.now }
        requires next { self.old.running.tickets.next + 1 < 2 ^ 32 }
        ensures runs { OnOk result (IsAtWork (λ s. S.view s) self.new) }
        ensures begins { OnOk result (BeginsBy (λ s. S.view s) self.old body.now self.new) }
        ensures next { OnOk result (self.new.running.tickets.next ≤ self.old.running.tickets.next + 1) }
        ensures same { IsSameNode self.old self.new }
    {
        match body {
            Body::Message(message) => self.handle(message),
            Body::Nudge => self.nudge(),
            Body::Timeout(tid) => {
                self.time_out(*tid);
                Ok(())
            }
        }
    }

    /// Takes a message.
    pub(crate) fn handle(&mut self, message: &Message) -> Result<(), AllocError>
        requires runs { IsAtWork (λ s. S.view s) self.old }
        requires taken { CanBeTaken message.now }
        requires near { names_near 8 message.now ≡ true }
        requires next { self.old.running.tickets.next + 1 < 2 ^ 32 }
        ensures runs { OnOk result (IsAtWork (λ s. S.view s) self.new) }
        ensures handles { OnOk result (HandlesMessage (λ s. S.view s) self.old message.now self.new) }
        ensures less { is_from_server message.now ≡ true → OnOk result (left_to_take (λ s. S.view s) self.new < left_to_take (λ s. S.view s) self.old + weight message.now) }
        ensures next { OnOk result (self.new.running.tickets.next ≤ self.old.running.tickets.next + 1) }
        ensures undrawn { draws message.now ≡ false → OnOk result (self.new.running.tickets ≡ self.old.running.tickets) }
        ensures same { IsSameNode self.old self.new }
    {
        let out = self.do_row(message)?;
        self.post(out)
    }

    /// The server takes a message. What it sends.
    fn do_row(&mut self, message: &Message) -> Result<Out, AllocError>
        requires runs { IsRunning self.old.server (counts_at self.old) (view_at (λ s. S.view s) self.old) }
        requires taken { CanBeTaken message.now }
        requires near { names_near 8 message.now ≡ true }
        requires next { self.old.running.tickets.next + 1 < 2 ^ 32 }
        ensures runs { OnOk result (IsRunning self.old.server (counts_at self.old) (view_at (λ s. S.view s) self.new)) }
        ensures taken { OnOk result (IsTaken self.old.server (counts_at self.old) message.now (running_at (λ s. S.view s) self.old) (running_at (λ s. S.view s) self.new)) }
        ensures sends { IfOk result (λ out. out.messages ≡ (row_for (counts_at self.old) (running_at (λ s. S.view s) self.old) message.now).messages) }
        ensures others { self.new ≡ record self.old { running = self.new.running } }
    {
        let mut out = Out::new(self.alloc);
        match self.running.handle(message, &mut out) {
            Ok(()) => {
                self.running.counts_pages();
                self.running.reads_pages();
                Ok(out)
            }
            Err(ServerFault::Stopped) => unreachable!(),
            Err(ServerFault::Memory) => Err(AllocError),
        }
    }

    /// Sends once more what waits for an answer.
    fn nudge(&mut self) -> Result<(), AllocError>
        requires runs { IsAtWork (λ s. S.view s) self.old }
        ensures runs { OnOk result (IsAtWork (λ s. S.view s) self.new) }
        ensures posts { OnOk result (PostsAll self.old (server_again (running_at (λ s. S.view s) self.old).memory (state_of (counts_at self.old) (running_at (λ s. S.view s) self.old))) self.new) }
        ensures others { self.new ≡ record self.old { own = self.new.own; answers = self.new.answers } }
    {
        let mut out = Out::new(self.alloc);
        self.running.again(&mut out)?;
        self.post(out)
    }

    /// The work of a transaction gives way from now on, where there is one.
    fn time_out(&mut self, tid: Tid)
        requires runs { IsAtWork (λ s. S.view s) self.old }
        ensures runs { IsAtWork (λ s. S.view s) self.new }
        ensures others { self.new ≡ record self.old { running = self.new.running } }
        ensures memory { running_at (λ s. S.view s) self.new ≡ record (running_at (λ s. S.view s) self.old) { memory = server_timeout (running_at (λ s. S.view s) self.old).memory tid } }
        ensures tickets { self.new.running.tickets ≡ self.old.running.tickets }
    {
        let _live = self.running.timeout(tid);
        self.running.counts_pages();
        self.running.reads_pages();
    }

    /// Sends messages, the first one first. Notes are for reports alone.
    pub(crate) fn post(&mut self, out: Out) -> Result<(), AllocError>
        requires from_server { are_from_server out.messages ≡ true }
        ensures posts { OnOk result (PostsAll self.old out.messages self.new) }
        ensures others { self.new ≡ record self.old { own = self.new.own; answers = self.new.answers } }
    {
        let (messages, _notes) = out.into_parts();
        self.post_all(messages)
    }

    /// Sends these messages, the first one first.
    fn post_all(&mut self, messages: Vec<(Party, Message)>) -> Result<(), AllocError>
        requires from_server { are_from_server messages.items ≡ true }
        ensures posts { OnOk result (PostsAll self.old messages.items self.new) }
        ensures others { self.new ≡ record self.old { own = self.new.own; answers = self.new.answers } }
    {
        for (to, message) in messages {
            self.send(to, message)?;
        }
        Ok(())
    }

    /// A message to itself waits for its turn; one to another is an answer.
    fn send(&mut self, to: Party, message: Message) -> Result<(), AllocError>
        requires from_server { is_from_server message ≡ true }
        ensures posts { OnOk result (PostsAll self.old ((to, message) ∷ []) self.new) }
        ensures others { self.new ≡ record self.old { own = self.new.own; answers = self.new.answers } }
    {
        if is_own(self.server, to) {
            self.own.push_back(message)?;
            return Ok(());
        }
        let framed = Framed {
            from: Party::Server(self.server),
            to,
            body: Body::Message(message),
        };
        encode(&framed, &mut self.answers)
    }
}

/// Whether a message is for this server itself.
fn is_own(server: ServerNo, to: Party) -> bool
    ensures { result ≡ is_own server to }
{
    match to {
        Party::Client(_) => false,
        Party::Server(other) => other == server,
    }
}
