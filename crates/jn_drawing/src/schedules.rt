//! A random schedule. Most commands are those that a client would give next, if all that it asked for went well.
ghost use Rattle.std.specs.Prelude.{◌<◌};

use jn_base::{BlockContent, BlockNo, ClientNo, Command, FaultKind, FileNo, Op, ServerNo, Tid};
use jn_intent::PageCounts;
use jn_run_tests::Servers;
use jn_schedule::Event;
use rand_core::utils::NextWord;
use rand_pcg::Pcg32;
use std::alloc::{AllocError, Global};

/// The blocks that come in: some of the head, and the edges of map pages. A schedule has so many of them, from the first on, that few data
/// pages are enough for several map pages.
const BLOCKS: [u16; 17] = [
    0, 1, 2, 3, 4, 119, 120, 121, 239, 240, 241, 359, 360, 2398, 2399, 2400, 2519,
];

/// How many of them a file of version 1 may have.
const OLD_BLOCKS: u32 = 6;

/// How far a client has come, as far as the schedule can know.
#[derive(Clone, Copy, PartialEq, Eq)]
enum Stage {
    Idle,
    Begun(Tid),
    Opened(ServerNo, Tid),
}

/// What the schedule takes a server for.
#[derive(Clone, Copy)]
struct Guess {
    epoch: u32,
    /// The ticket that it draws next.
    ticket: u32,
    is_down: bool,
}

/// What a new server is taken for.
const NEW: Guess = Guess {
    epoch: 1,
    ticket: 0,
    is_down: false,
};

/// From what a schedule is drawn.
#[derive(Drop)]
pub struct Drawing {
    random: Pcg32,
    pub servers: Servers,
    /// Whether this is the first of two schedules, whose files are those of version 1. The second one begins from its images.
    pub begins: bool,
    /// How many of `BLOCKS` come in.
    blocks: u32,
    /// Of twenty commands in a work that was opened, how many end its transaction.
    ends: u32,
    /// How many of ten commands that a client gives next have a settle behind them.
    settles: u32,
    clients: u32,
    /// How many of a hundred events are misfortunes.
    misfortunes: u32,
    /// The one kind of stops of each server, of server 0 first, where it has only one.
    stops: [Option<FaultKind>; 3],
    /// Of server 0 first.
    guesses: Vec<Guess>,
    /// How many files there are to be at each server.
    files: u32,
    /// Of client 1 first.
    stages: Vec<Stage>,
    alloc: Global,
}

/// A number below the count.
fn below(random: &mut Pcg32, count: u32) -> u32
    requires { 0 < count }
    ensures { result < count }
{
    random.next_word() % count
}

/// The servers of a schedule: 1 to 3, or to 2 where it is the first of two, with few pages each, so that these run out.
fn drawn_servers(random: &mut Pcg32, begins: bool) -> Servers {
    let count = if begins {
        1 + below(random, 2) as u8
    } else {
        1 + below(random, 3) as u8
    };
    let pool = 3 + below(random, 8) as u16;
    let heads = 1 + below(random, 4) as u16;
    let leaves = 1 + below(random, 12) as u16;
    Servers {
        count,
        pages: PageCounts {
            pool,
            heads,
            leaves,
        },
        trace: false,
    }
}

/// How many blocks come in: those up to the second one of map page 0, of map page 1, or all.
fn drawn_blocks(random: &mut Pcg32) -> u32 {
    match below(random, 4) {
        0 => 9,
        1 => 12,
        _ => 17,
    }
}

/// The one kind of stops of a server, or `None` for one in four that has all kinds.
fn drawn_stop(random: &mut Pcg32) -> Option<FaultKind> {
    match below(random, 4) {
        0 => Some(FaultKind::StopBefore),
        1 => Some(FaultKind::StopTorn),
        2 => Some(FaultKind::StopAfter),
        _ => None,
    }
}

fn drawn_stops(random: &mut Pcg32) -> [Option<FaultKind>; 3] {
    [drawn_stop(random), drawn_stop(random), drawn_stop(random)]
}

impl Drawing {
    /// The schedule of this number among those of a seed.
    pub fn new(alloc: Global, seed: u64, number: u32) -> Result<Drawing, AllocError> {
        let mut random = Pcg32::new(seed, u64::from(number));
        let begins = below(&mut random, 8) == 0;
        let blocks = if begins {
            OLD_BLOCKS
        } else {
            drawn_blocks(&mut random)
        };
        let servers = drawn_servers(&mut random, begins);
        let ends = 2 + 2 * below(&mut random, 3);
        let settles = 6 + 3 * below(&mut random, 2);
        let clients = 1 + below(&mut random, 4);
        let misfortunes = below(&mut random, 5) * 5;
        let files = 1 + below(&mut random, 4);
        let stops = drawn_stops(&mut random);
        Ok(Drawing {
            random,
            servers,
            begins,
            blocks,
            ends,
            settles,
            clients,
            misfortunes,
            stops,
            guesses: vec![in alloc; NEW, NEW, NEW]?,
            files,
            stages: vec![in alloc; Stage::Idle, Stage::Idle, Stage::Idle, Stage::Idle]?,
            alloc,
        })
    }

    fn draw(&mut self, count: u32) -> u32
        requires { 0 < count }
        ensures { result < count }
    {
        below(&mut self.random, count)
    }

    /// A server, one in sixty of which isn't there.
    fn server(&mut self) -> ServerNo {
        let drawn = self.draw(60) as u8;
        if drawn == 59 {
            return ServerNo(self.servers.count % 8);
        }
        match self.servers.count {
            1 => ServerNo(0),
            2 => ServerNo(drawn % 2),
            _ => ServerNo(drawn % 3),
        }
    }

    fn client(&mut self) -> ClientNo {
        let drawn = self.draw(4) as u8;
        match self.clients {
            1 => ClientNo(1),
            2 => ClientNo(1 + drawn % 2),
            3 => ClientNo(1 + drawn % 3),
            _ => ClientNo(1 + drawn),
        }
    }

    fn stage(&self, client: ClientNo) -> Stage {
        match self.stages.get(usize::from(client.0).wrapping_sub(1)) {
            Some(stage) => *stage,
            None => Stage::Idle,
        }
    }

    fn set_stage(&mut self, client: ClientNo, stage: Stage) {
        if let Some(place) = self.stages.get_mut(usize::from(client.0).wrapping_sub(1)) {
            *place = stage;
        }
    }

    /// One of a server's physical pages, one in thirty of which isn't there.
    fn page(&mut self) -> u32 {
        let PageCounts {
            pool,
            heads,
            leaves,
        } = self.servers.pages;
        let pages = u32::from(pool)
            .wrapping_add(u32::from(heads))
            .wrapping_add(u32::from(leaves))
            .wrapping_add(1)
            .wrapping_mul(2);
        if self.draw(30) == 29 {
            return pages;
        }
        self.draw(256) % pages.max(1)
    }

    /// A file, mostly one of the first ones, so that these grow.
    fn file(&mut self) -> FileNo {
        let most = self.files.max(1);
        FileNo((self.draw(64) % most).min(self.draw(64) % most))
    }

    fn block(&mut self) -> BlockNo {
        let place = self.draw(self.blocks.max(1));
        match BLOCKS.get(place as usize) {
            Some(block) => BlockNo(*block),
            None => BlockNo(0),
        }
    }

    /// A block at which a file is cut: one of those, or one before it.
    fn cut(&mut self) -> BlockNo {
        let BlockNo(block) = self.block();
        BlockNo(block.saturating_sub((self.draw(3) / 2) as u16))
    }

    fn content(&mut self) -> Result<BlockContent, AllocError> {
        let mut block = [0; 448];
        block[0] = self.draw(256) as u8;
        BlockContent::from_block(self.alloc, &block)
    }

    fn op(&mut self) -> Result<Op, AllocError> {
        let file = self.file();
        let block = self.block();
        Ok(match self.draw(24) {
            0..=4 => Op::Create(file),
            5 => Op::Remove(file),
            6..=8 => Op::Cut(file, self.cut()),
            9..=12 => Op::Read(file, block),
            _ => Op::Write(file, block, self.content()?),
        })
    }

    fn guess(&self, server: ServerNo) -> Guess {
        match self.guesses.get(usize::from(server.0)) {
            Some(guess) => *guess,
            None => Guess {
                epoch: 1,
                ticket: 0,
                is_down: true,
            },
        }
    }

    fn set_guess(&mut self, server: ServerNo, guess: Guess) {
        if let Some(place) = self.guesses.get_mut(usize::from(server.0)) {
            *place = guess;
        }
    }

    /// The server draws a ticket.
    fn draw_ticket(&mut self, server: ServerNo) {
        let guess = self.guess(server);
        self.set_guess(
            server,
            Guess {
                ticket: guess.ticket.saturating_add(1),
                ..guess
            },
        );
    }

    /// The server is to go down, or up.
    fn turn(&mut self, server: ServerNo, is_down: bool) {
        let guess = self.guess(server);
        self.set_guess(
            server,
            if is_down {
                Guess { is_down, ..guess }
            } else {
                Guess {
                    epoch: guess.epoch.saturating_add(1),
                    ticket: 0,
                    is_down,
                }
            },
        );
    }

    /// The name that a server gives the next transaction, as far as the schedule can know.
    fn next_name(&self, server: ServerNo) -> Tid {
        let guess = self.guess(server);
        Tid {
            server,
            epoch: guess.epoch,
            ticket: guess.ticket,
        }
    }

    /// A server that begins a transaction or a work draws a ticket.
    fn follow(&mut self, command: &Command) {
        match command {
            Command::Begin(server) | Command::Open(server) => self.draw_ticket(*server),
            _ => {}
        }
    }

    /// A transaction that may be there: that of a client, or another one.
    fn transaction(&mut self) -> Tid {
        let client = self.client();
        match self.stage(client) {
            Stage::Begun(tid) | Stage::Opened(_, tid) => tid,
            Stage::Idle => Tid {
                server: ServerNo(self.draw(3) as u8),
                epoch: 1,
                ticket: self.draw(8),
            },
        }
    }

    /// A stop of a server's device.
    fn stop(&mut self, server: ServerNo) -> FaultKind {
        match self.stops.get(usize::from(server.0)) {
            Some(Some(kind)) => *kind,
            _ => match self.draw(3) {
                0 => FaultKind::StopBefore,
                1 => FaultKind::StopTorn,
                _ => FaultKind::StopAfter,
            },
        }
    }

    /// A fault of a server's device.
    fn fault(&mut self, server: ServerNo) -> FaultKind {
        let page = self.page();
        match self.draw(14) {
            0 | 1 => FaultKind::Soft,
            2 | 3 => FaultKind::Null,
            4 => FaultKind::Bad,
            5 => FaultKind::Decay(page),
            6 => FaultKind::Revive(page),
            _ => self.stop(server),
        }
    }

    /// Any command.
    fn command(&mut self) -> Result<Command, AllocError> {
        let server = self.server();
        Ok(match self.draw(6) {
            0 => Command::Begin(server),
            1 => Command::Open(server),
            2 => Command::End,
            3 => Command::Abort,
            _ => Command::Do(server, self.op()?),
        })
    }

    /// What a client of this stage would do, and the stage behind it.
    fn next_command(&mut self, stage: Stage) -> Result<(Command, Stage), AllocError> {
        let server = self.server();
        Ok(match (stage, self.draw(20)) {
            (Stage::Idle, _) => (Command::Begin(server), Stage::Begun(self.next_name(server))),
            (Stage::Begun(tid), _) => (Command::Open(server), Stage::Opened(server, tid)),
            (Stage::Opened(_, tid), 0 | 1) => (Command::Open(server), Stage::Opened(server, tid)),
            (Stage::Opened(..), 2) => (Command::Abort, Stage::Idle),
            (Stage::Opened(at, _), drawn) if drawn.saturating_add(self.ends) < 20 => {
                (Command::Do(at, self.op()?), stage)
            }
            (Stage::Opened(..), _) => (Command::End, Stage::Idle),
        })
    }

    /// Appends a client's next command, and often a settle.
    fn push_next(&mut self, events: &mut Vec<Event>) -> Result<(), AllocError> {
        let client = self.client();
        let stage = self.stage(client);
        let (command, after) = self.next_command(stage)?;
        self.set_stage(client, after);
        self.follow(&command);
        events.push(Event::Command(client, command))?;
        if self.draw(10) < self.settles {
            events.push(Event::Settle)?;
        }
        Ok(())
    }

    /// Appends that a client's transaction has taken too long, where it came to a server.
    fn push_timeout(&mut self, events: &mut Vec<Event>) -> Result<(), AllocError> {
        let client = self.client();
        if let Stage::Opened(server, tid) = self.stage(client) {
            events.push(Event::Timeout(server, tid))?;
        }
        Ok(())
    }

    /// How far off a fault strikes: mostly within a commit, and else within a restart.
    fn call(&mut self) -> u32 {
        if self.draw(4) == 0 {
            return 1 + self.draw(60);
        }
        1 + self.draw(20)
    }

    /// What befalls a server.
    fn misfortune(&mut self, server: ServerNo) -> Event {
        match self.draw(12) {
            0..=2 => {
                self.turn(server, true);
                Event::Crash(server)
            }
            3..=8 => {
                let call = self.call();
                let fault = self.fault(server);
                if let FaultKind::StopBefore | FaultKind::StopTorn | FaultKind::StopAfter = fault {
                    self.turn(server, true);
                }
                Event::Arm(server, call, fault)
            }
            9 | 10 => Event::Decay(server, self.page()),
            _ => Event::Revive(server, self.page()),
        }
    }

    /// Brings a server up that may be down.
    fn restart(&mut self, server: ServerNo) -> Event {
        if !self.guess(server).is_down && self.draw(6) != 0 {
            return Event::Show(server);
        }
        self.turn(server, false);
        Event::Restart(server)
    }

    /// What is handed over or done in the background, or brings a server up. There may be a few messages for each event so far.
    fn passing(&mut self, server: ServerNo, done: u32) -> Event {
        match self.draw(32) {
            0..=6 => Event::Settle,
            7..=13 => {
                let messages = done.saturating_mul(3);
                Event::Deliver(self.draw(4096) % messages.max(1))
            }
            14 | 15 => Event::Step(server),
            16 => Event::Nudge(server),
            17..=21 => Event::Timeout(server, self.transaction()),
            22 => Event::Scrub(server),
            _ => self.restart(server),
        }
    }

    /// Appends a command that a client may not be ready for, or what it sent once more.
    fn push_command(&mut self, events: &mut Vec<Event>) -> Result<(), AllocError> {
        let client = self.client();
        if self.draw(3) == 0 {
            return Ok(events.push(Event::Again(client))?);
        }
        let command = self.command()?;
        events.push(Event::Command(client, command))?;
        Ok(())
    }

    /// Appends an event or two.
    fn push_event(&mut self, events: &mut Vec<Event>, done: u32) -> Result<(), AllocError> {
        let server = self.server();
        if self.draw(100) < self.misfortunes {
            events.push(self.misfortune(server))?;
            return Ok(());
        }
        match self.draw(100) {
            0..=59 => self.push_next(events),
            60..=64 => self.push_command(events),
            65..=70 => self.push_timeout(events),
            _ => {
                events.push(self.passing(server, done))?;
                Ok(())
            }
        }
    }

    /// The second of two schedules is to be drawn. Each server was started for the end of the first one, and once more.
    pub fn go_on(&mut self) {
        self.begins = false;
        self.blocks = drawn_blocks(&mut self.random);
        for server in 0..self.servers.count {
            self.turn(ServerNo(server), false);
            self.turn(ServerNo(server), false);
        }
        for stage in &mut self.stages {
            *stage = Stage::Idle;
        }
    }

    /// Appends a command of client 1, and a settle.
    fn push_settled(
        &mut self,
        events: &mut Vec<Event>,
        command: Command,
    ) -> Result<(), AllocError> {
        self.follow(&command);
        events.push(Event::Command(ClientNo(1), command))?;
        events.push(Event::Settle)?;
        Ok(())
    }

    /// Appends a transaction that makes file 0 of a server, with a few blocks.
    fn push_file(&mut self, events: &mut Vec<Event>, server: ServerNo) -> Result<(), AllocError> {
        let file = FileNo(0);
        self.push_settled(events, Command::Begin(server))?;
        self.push_settled(events, Command::Open(server))?;
        self.push_settled(events, Command::Do(server, Op::Create(file)))?;
        for _block in 0..2 + self.draw(4) {
            let op = Op::Write(file, self.block(), self.content()?);
            self.push_settled(events, Command::Do(server, op))?;
        }
        self.push_settled(events, Command::End)
    }

    /// All events of the schedule. Three in four begin with a file at each server.
    pub fn events(&mut self) -> Result<Vec<Event>, AllocError> {
        let mut events = Vec::new(self.alloc);
        if self.draw(4) != 0 {
            for server in 0..self.servers.count {
                self.push_file(&mut events, ServerNo(server))?;
            }
        }
        let count = 40 + self.draw(120);
        for done in 0..count {
            self.push_event(&mut events, done)?;
        }
        Ok(events)
    }
}
