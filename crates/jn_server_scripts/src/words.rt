//! What a server sends, notes and shows, in words: every field of a message, after whom it goes to.

use jn_base::{
    Answer, Block, BlockContent, Cause, ClientNo, FileNo, LockUnit, Party, RequestNo, Resource,
    Tid, WorkId,
};
use jn_msgs::{Message, Note, Out, Outcome, Vote};
use jn_server::Shown;
use std::alloc::{AllocError, Global};

/// A list of words.
#[derive(Drop)]
pub struct Words {
    pub alloc: Global,
    pub text: String,
}

impl Words {
    pub fn new(alloc: Global) -> Words {
        Words {
            alloc,
            text: String::new(alloc),
        }
    }

    /// Adds a word, behind a space where it isn't the first of its part.
    pub fn word(&mut self, word: &str) -> Result<(), AllocError> {
        if !self.text.is_empty() {
            self.text.push(' ')?;
        }
        self.text.push_str(word)
    }

    /// A number right behind what stands.
    fn digits(&mut self, n: u32) -> Result<(), AllocError> {
        let digits = format!(in self.alloc; "{n}")?;
        self.text.push_str(digits.as_str())
    }

    fn number(&mut self, n: u32) -> Result<(), AllocError> {
        self.word("")?;
        self.digits(n)
    }

    fn client(&mut self, c: ClientNo) -> Result<(), AllocError> {
        self.word("c")?;
        self.digits(u32::from(c.0))
    }

    fn party(&mut self, party: Party) -> Result<(), AllocError> {
        match party {
            Party::Client(c) => self.client(c),
            Party::Server(s) => {
                self.word("s")?;
                self.digits(u32::from(s.0))
            }
        }
    }

    fn name(&mut self, server: u8, epoch: u32, ticket: u32) -> Result<(), AllocError> {
        self.number(u32::from(server))?;
        self.text.push('.')?;
        self.digits(epoch)?;
        self.text.push('.')?;
        self.digits(ticket)
    }

    fn tid(&mut self, t: Tid) -> Result<(), AllocError> {
        self.name(t.server.0, t.epoch, t.ticket)
    }

    fn work(&mut self, w: WorkId) -> Result<(), AllocError> {
        self.name(w.server.0, w.epoch, w.ticket)
    }

    fn unit(&mut self, unit: LockUnit) -> Result<(), AllocError> {
        match unit {
            LockUnit::File(FileNo(f)) => self.number(f),
            LockUnit::Block(FileNo(f), p) => {
                self.number(f)?;
                self.text.push('/')?;
                self.digits(u32::from(p.0))
            }
        }
    }

    fn block(&mut self, block: &Block) -> Result<(), AllocError> {
        if *block == [9; 448] {
            self.word("nines")
        } else if *block == [0; 448] {
            self.word("zeros")
        } else {
            self.word("others")
        }
    }

    /// A unit and the transaction that holds it.
    fn held(&mut self, unit: LockUnit, by: Tid) -> Result<(), AllocError> {
        self.unit(unit)?;
        self.tid(by)
    }

    fn epochs(&mut self, then: u32, now: u32) -> Result<(), AllocError> {
        self.word("lost")?;
        self.number(then)?;
        self.number(now)
    }

    fn content(&mut self, content: &BlockContent) -> Result<(), AllocError> {
        self.word("read")?;
        self.block(&content.to_block())
    }

    fn answer(&mut self, answer: &Answer) -> Result<(), AllocError> {
        match answer {
            Answer::Did => self.word("did"),
            Answer::Read(content) => self.content(content),
            Answer::NoFile => self.word("absent"),
            Answer::Exists => self.word("exists"),
            Answer::Locked(unit, by) => {
                self.word("locked")?;
                self.held(*unit, *by)
            }
            Answer::TooManyReads => self.word("reads"),
            Answer::TooManyWrites => self.word("writes"),
            Answer::Broken(unit, by) => {
                self.word("broken")?;
                self.held(*unit, *by)
            }
            Answer::Lost(then, now) => self.epochs(*then, *now),
            Answer::Closing => self.word("closing"),
        }
    }

    /// The number of a refusal for want of room, what is free and what is needed.
    fn full(&mut self, resource: Resource, free: u32, need: u32) -> Result<(), AllocError> {
        self.word("full")?;
        self.number(u32::from(resource.refusal_number()))?;
        self.number(free)?;
        self.number(need)
    }

    fn vote(&mut self, vote: Vote) -> Result<(), AllocError> {
        match vote {
            Vote::Ready => self.word("ready"),
            Vote::Waiting(unit, by) => {
                self.word("waiting")?;
                self.held(unit, by)
            }
            Vote::Broken(unit, by) => {
                self.word("broken")?;
                self.held(unit, by)
            }
            Vote::Lost(then, now) => self.epochs(then, now),
            Vote::Full(resource, free, need) => self.full(resource, free, need),
        }
    }

    fn cause(&mut self, cause: Cause) -> Result<(), AllocError> {
        match cause {
            Cause::Requested => self.word("requested"),
            Cause::Broken(s, unit, by) => {
                self.word("broken")?;
                self.party(Party::Server(s))?;
                self.held(unit, by)
            }
            Cause::Lost(s) => {
                self.word("lost")?;
                self.party(Party::Server(s))
            }
            Cause::Full(s, resource, free, need) => {
                self.party(Party::Server(s))?;
                self.full(resource, free, need)
            }
        }
    }

    fn outcome(&mut self, outcome: Outcome) -> Result<(), AllocError> {
        match outcome {
            Outcome::Committed => self.word("committed"),
            Outcome::Aborted(cause) => {
                self.word("aborted")?;
                self.cause(cause)
            }
            Outcome::Waiting(s, unit, by) => {
                self.word("waiting")?;
                self.party(Party::Server(s))?;
                self.held(unit, by)
            }
            Outcome::NotKnown(s, epoch) => {
                self.word("unknown")?;
                self.party(Party::Server(s))?;
                self.number(epoch)
            }
        }
    }

    /// A kind of message with a transaction and its work.
    fn of_work(&mut self, kind: &str, t: Tid, w: WorkId) -> Result<(), AllocError> {
        self.word(kind)?;
        self.tid(t)?;
        self.work(w)
    }

    /// An answer to a client's request.
    fn reply(&mut self, kind: &str, c: ClientNo, request: RequestNo) -> Result<(), AllocError> {
        self.word(kind)?;
        self.client(c)?;
        self.number(request.0)
    }

    fn begun(&mut self, t: Option<Tid>) -> Result<(), AllocError> {
        match t {
            Some(t) => self.tid(t),
            None => self.word("none"),
        }
    }

    fn opened(&mut self, t: Tid, w: Option<WorkId>) -> Result<(), AllocError> {
        self.tid(t)?;
        match w {
            Some(w) => self.work(w),
            None => self.word("none"),
        }
    }

    fn to_client(&mut self, message: &Message) -> Result<(), AllocError> {
        match message {
            Message::Begun(c, request, t) => {
                self.reply("begun", *c, *request)?;
                self.begun(*t)
            }
            Message::Opened(c, request, t, w) => {
                self.reply("opened", *c, *request)?;
                self.opened(*t, *w)
            }
            Message::Answer(c, request, answer) => {
                self.reply("answer", *c, *request)?;
                self.answer(answer)
            }
            Message::Outcome(c, t, outcome) => {
                self.word("outcome")?;
                self.client(*c)?;
                self.tid(*t)?;
                self.outcome(*outcome)
            }
            _ => self.word("others"),
        }
    }

    fn message(&mut self, message: &Message) -> Result<(), AllocError> {
        match message {
            Message::Prepare(t, c, w) => {
                self.of_work("prepare", *t, *w)?;
                self.client(*c)
            }
            Message::Commit(t, w) => self.of_work("commit", *t, *w),
            Message::Drop(t, w) => self.of_work("drop", *t, *w),
            Message::Vote(t, w, vote) => {
                self.of_work("vote", *t, *w)?;
                self.vote(*vote)
            }
            Message::Done(t, w) => self.of_work("done", *t, *w),
            Message::Inquire(t, w) => self.of_work("inquire", *t, *w),
            _ => self.to_client(message),
        }
    }

    fn note(&mut self, note: Note) -> Result<(), AllocError> {
        match note {
            Note::Commit(t) => {
                self.word("!commit")?;
                self.tid(t)
            }
            Note::Broke(t, unit, by) => {
                self.word("!broke")?;
                self.tid(t)?;
                self.held(unit, by)
            }
            Note::Ignored => self.word("!ignored"),
        }
    }

    /// Each message behind the one that it goes to, and then the notes.
    pub fn out(&mut self, out: &Out) -> Result<(), AllocError> {
        for (to, message) in out.messages() {
            self.word(">")?;
            self.party(*to)?;
            self.message(message)?;
        }
        for note in out.notes() {
            self.note(*note)?;
        }
        Ok(())
    }

    fn one_shown(&mut self, shown: &Shown) -> Result<(), AllocError> {
        match shown {
            Shown::File(FileNo(f)) => {
                self.word("file")?;
                self.number(*f)
            }
            Shown::Locked(unit, by) => {
                self.word("locked")?;
                self.held(*unit, *by)
            }
            Shown::Page(f, p, content) => {
                self.word("page")?;
                self.unit(LockUnit::Block(*f, *p))?;
                self.block(&content.to_block())
            }
        }
    }

    pub fn shown(&mut self, list: &[Shown]) -> Result<(), AllocError> {
        for shown in list {
            self.one_shown(shown)?;
        }
        Ok(())
    }
}
