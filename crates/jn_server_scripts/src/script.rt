//! Scripts: a line has what a server is made to do, and what it says of it, behind a bar.

use crate::moves::{Move, Named, Task};
use jn_base::{FileNo, LockUnit, Resource, ServerNo, Tid, WorkId};
use jn_msgs::Vote;

fn number_in(text: &str) -> Option<u32> {
    text.parse().ok()
}

fn small_in(text: &str) -> Option<u8> {
    u8::try_from(number_in(text)?).ok()
}

/// The words of a line that are still to be read.
#[derive(Drop)]
struct Reader<'a> {
    rest: &'a str,
}

impl<'a> Reader<'a> {
    fn word(&mut self) -> Option<&'a str> {
        if self.rest.is_empty() {
            return None;
        }
        match self.rest.split_once(' ') {
            Some((word, rest)) => {
                self.rest = rest;
                Some(word)
            }
            None => {
                let word = self.rest;
                self.rest = "";
                Some(word)
            }
        }
    }

    fn number(&mut self) -> Option<u32> {
        number_in(self.word()?)
    }

    fn small(&mut self) -> Option<u8> {
        small_in(self.word()?)
    }

    fn block(&mut self) -> Option<u16> {
        u16::try_from(number_in(self.word()?)?).ok()
    }

    /// A server, an epoch and a ticket, with points between them.
    fn tid(&mut self) -> Option<Tid> {
        let (server, rest) = self.word()?.split_once('.')?;
        let (epoch, ticket) = rest.split_once('.')?;
        Some(Tid {
            server: ServerNo(small_in(server)?),
            epoch: number_in(epoch)?,
            ticket: number_in(ticket)?,
        })
    }

    fn work(&mut self) -> Option<WorkId> {
        let name = self.tid()?;
        Some(WorkId {
            server: name.server,
            epoch: name.epoch,
            ticket: name.ticket,
        })
    }

    /// No work, one or two.
    fn named(&mut self) -> Option<Named> {
        if self.rest.is_empty() {
            return Some(Named::Nothing);
        }
        let first = self.work()?;
        if self.rest.is_empty() {
            return Some(Named::One(first));
        }
        Some(Named::Two(first, self.work()?))
    }

    fn task(&mut self) -> Option<Task> {
        match self.word()? {
            "create" => Some(Task::Create(self.number()?)),
            "remove" => Some(Task::Remove(self.number()?)),
            "cut" => Some(Task::Cut(self.number()?, self.block()?)),
            "read" => Some(Task::Read(self.number()?, self.block()?)),
            "nines" => Some(Task::Nines(self.number()?, self.block()?)),
            _ => None,
        }
    }

    fn operation(&mut self) -> Option<Move> {
        let (client, work) = (self.small()?, self.work()?);
        Some(Move::Do(client, work, self.number()?, self.task()?))
    }

    fn file(&mut self) -> Option<LockUnit> {
        Some(LockUnit::File(FileNo(self.number()?)))
    }

    /// What there is too little of, by the number of its refusal.
    fn resource(&mut self) -> Option<Resource> {
        match self.word()? {
            "31" => Some(Resource::Records),
            "32" => Some(Resource::Pages),
            "33" => Some(Resource::Heads),
            _ => None,
        }
    }

    fn vote(&mut self) -> Option<Vote> {
        match self.word()? {
            "ready" => Some(Vote::Ready),
            "waiting" => Some(Vote::Waiting(self.file()?, self.tid()?)),
            "broken" => Some(Vote::Broken(self.file()?, self.tid()?)),
            "lost" => Some(Vote::Lost(self.number()?, self.number()?)),
            "full" => Some(Vote::Full(self.resource()?, self.number()?, self.number()?)),
            _ => None,
        }
    }

    /// What a client asks for.
    fn asked(&mut self, kind: &str) -> Option<Move> {
        match kind {
            "begin" => Some(Move::Begin(self.small()?, self.number()?)),
            "open" => Some(Move::Open(self.small()?, self.tid()?)),
            "do" => self.operation(),
            "end" => Some(Move::End(self.small()?, self.tid()?, self.named()?)),
            "abort" => Some(Move::Abort(self.small()?, self.tid()?, self.named()?)),
            "thanks" => Some(Move::Thanks(self.small()?, self.tid()?)),
            "stray" => Some(Move::Stray(self.small()?)),
            _ => None,
        }
    }

    /// What servers tell each other.
    fn told(&mut self, kind: &str) -> Option<Move> {
        match kind {
            "prepare" => Some(Move::Prepare(self.tid()?, self.small()?, self.work()?)),
            "commit" => Some(Move::Commit(self.tid()?, self.work()?)),
            "drop" => Some(Move::Drop(self.tid()?, self.work()?)),
            "vote" => Some(Move::Vote(self.tid()?, self.work()?, self.vote()?)),
            "done" => Some(Move::Done(self.tid()?, self.work()?)),
            "inquire" => Some(Move::Inquire(self.tid()?, self.work()?)),
            _ => self.asked(kind),
        }
    }

    fn step(&mut self) -> Option<Move> {
        match self.word()? {
            "step" => Some(Move::Step),
            "again" => Some(Move::Again),
            "timeout" => Some(Move::Timeout(self.tid()?)),
            "scrub" => Some(Move::Scrub),
            "show" => Some(Move::Show),
            "close" => Some(Move::Close),
            kind => self.told(kind),
        }
    }
}

/// What a line has: the move, and what the server says of it.
#[derive(Clone, Copy)]
pub struct Scene<'a> {
    pub step: Move,
    pub words: &'a str,
}

pub fn scene_of(line: &str) -> Option<Scene<'_>> {
    let (first, words) = line.split_once('|')?;
    let step = Reader { rest: first.trim() }.step()?;
    Some(Scene {
        step,
        words: words.trim(),
    })
}
