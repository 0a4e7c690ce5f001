//! The network: every message that was ever sent, each of which may be delivered at any time and again.
#![tactic(auto)]

ghost use Rattle.std.specs.Prelude.{◌≡◌, ◌≤◌, ◌<◌, ◌+◌, ◌↔◌, ℕ, [], ◌∷◌, ◌++◌, true, false, length, slice_get, is_ok, IfOk, IfSome, IsSome, OnErr, if◌then◌else◌};
ghost use Rattle.std.specs.Option.{option_copied};
ghost use Rattle.jn_net.specs.declared.SendFault.TheVariants.{Limit};
ghost use Rattle.jn_net.specs.Cursor.{NoneWaits, waits_at};

use jn_base::Party;
use jn_msgs::{Message, Out};
use std::alloc::{AllocFailed, Global};
use std::marker::Model;
use std::mem;
use thiserror::Error;

/// How many messages a network carries.
pub const MESSAGE_LIMIT: u32 = 1_000_000;

/// A message that was sent, and whether it was ever delivered. It takes at most 72 bytes beside what it carries.
#[derive(Drop)]
pub struct Sent {
    pub from: Party,
    pub to: Party,
    pub delivered: bool,
    pub message: Message,
}

/// Why a message isn't sent.
#[derive(Clone, Copy, Debug, PartialEq, Eq, Drop, Error)]
pub enum SendFault {
    /// As many messages as the network carries were sent.
    #[error("as many messages were sent as the network carries")]
    Limit,
    /// There is no memory.
    #[error("there is no memory")]
    Memory,
}

impl<T: Drop> From<AllocFailed<T>> for SendFault {
    ghost use Rattle.jn_net.specs.declared.SendFault.TheVariants.{Memory};

    ghost from_gives = { λ _ e. e ≡ Memory };

    fn from(_e: AllocFailed<T>) -> SendFault {
        SendFault::Memory
    }
}

/// The network: contracts see every message that was sent, in order, and how many were forgotten.
#[derive(Drop)]
pub struct Net {
    sent: Vec<Sent>,
    forgotten: usize,
    /// No message before this one waits, and this one does unless it is yet to be sent.
    cursor: usize,
    /// The room of a step's messages, which the next step takes.
    room: Vec<(Party, Message)>,
}

impl Model for Net {
    ghost use Rattle.std.specs.Prelude.{◌≤◌, vec_len};
    ghost use Rattle.jn_net.specs.Carried.{Carried};
    ghost use Rattle.jn_net.specs.Cursor.{IsCursor};

    ghost Value = { Carried };

    ghost view = { λ n. record { sent = n.sent.items; forgotten = n.forgotten } };

    ghost invariant = { λ n. (vec_len n.sent ≤ 1000000) × IsCursor n.forgotten n.cursor n.sent.items };
}

/// The first message from here on that was never delivered, or how many there are.
fn first_undelivered(sent: &[Sent], from: usize) -> usize
    requires { from ≤ length sent.now }
    ensures order { from ≤ result }
    ensures within { result ≤ length sent.now }
    ensures none { NoneWaits from result sent.now }
    ensures waits { result < length sent.now → waits_at sent.now result ≡ true }
{
    let mut at = from;
    while at < sent.len() && sent[at].delivered {
        at += 1;
    }
    at
}

impl Net {
    ghost use Rattle.jn_net.specs.Carried.{Carried, waiting, with_delivered};

    /// Nothing was sent yet.
    pub fn new(alloc: Global) -> Net
        ensures { result ≡ record { sent = []; forgotten = 0 } }
    {
        Net {
            sent: Vec::new(alloc),
            forgotten: 0,
            cursor: 0,
            room: Vec::new(alloc),
        }
    }

    /// Gives the room that was kept last to what a step sends and reports.
    pub fn lend_room(&mut self, alloc: Global) -> Out
        ensures same { self.new ≡ self.old }
        ensures empty { result ≡ record { messages = []; notes = [] } }
    {
        Out::in_room(alloc, mem::replace(&mut self.room, Vec::new(alloc)))
    }

    /// Keeps the room of messages for the next step, where it is any.
    pub fn keep_room(&mut self, room: Vec<(Party, Message)>)
        ensures { self.new ≡ self.old }
    {
        if room.capacity() > 0 {
            self.room = room;
        }
    }

    /// Sends a message and gives its number. After an error nothing has changed.
    pub fn send(&mut self, from: Party, to: Party, message: Message) -> Result<u32, SendFault>
        ensures number { IfOk result (λ k. k ≡ length self.old.sent) }
        ensures sent { self.new ≡ record self.old {
          sent = if is_ok result
              then self.old.sent ++ (record { from = from; to = to; message = message; delivered = false }) ∷ []
              else self.old.sent;
        } }
        ensures limit { (result ≡ Err Limit) ↔ (1000000 ≤ length self.old.sent) }
    {
        let k = self.sent.len();
        if k >= MESSAGE_LIMIT as usize {
            return Err(SendFault::Limit);
        }
        self.sent.push(Sent {
            from,
            to,
            delivered: false,
            message,
        })?;
        Ok(k as u32)
    }

    /// The message of that number, None exactly where there is none.
    pub fn message(&self, k: u32) -> Option<&Sent>
        ensures { option_copied result ≡ slice_get self.now.sent k }
    {
        if (k as usize) < self.sent.len() {
            Some(&self.sent[k as usize])
        } else {
            None
        }
    }

    /// How many messages were sent.
    pub fn count(&self) -> u32
        ensures count { result ≡ length self.now.sent }
        ensures limit { result ≤ 1000000 }
    {
        self.sent.len() as u32
    }

    /// The least message that was neither delivered nor forgotten.
    pub fn waiting(&self) -> Option<u32>
        ensures { result ≡ waiting self.now }
    {
        if self.cursor < self.sent.len() {
            Some(self.cursor as u32)
        } else {
            None
        }
    }

    /// The message of that number is delivered.
    pub fn delivered(&mut self, k: u32)
        requires { k < length self.old.sent }
        ensures { self.new ≡ record self.old { sent = with_delivered k self.old.sent } }
    {
        let m = &mut self.sent[k as usize];
        m.delivered = true;
        self.cursor = first_undelivered(&self.sent, self.cursor);
    }

    /// No message that was sent so far waits any more.
    pub fn forget_waiting(&mut self)
        ensures { self.new ≡ record self.old { forgotten = length self.old.sent } }
    {
        self.forgotten = self.sent.len();
        self.cursor = self.forgotten;
    }
}
