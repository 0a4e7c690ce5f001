//! A server as the tests drive it.
ghost use Rattle.std.specs.Prelude.{IfOk, IfErr};
ghost use Rattle.jn_msgs.specs.Ranges.{CanBeTaken};
ghost use Rattle.jn_server_tests.specs.Restarts.{MayBegin, IsOf};
ghost use Rattle.jn_server.specs.Seen.{view_with};
ghost use Rattle.jn_server_tests.specs.Trial.{IsOn, LeavesServer};

use super::store::new_array;
use jn_base::{Stopped, Tid};
use jn_intent::{DownCause, PageCounts};
use jn_msgs::{Message, Out};
use jn_server::{Server, ServerFault, restart};
use jn_server_scripts::{Move, SERVER, Words, message_of, scene_of};
use jn_store::{ArrayStore, StableStore};
use std::alloc::Global;
use std::process::Abort;
use std::test::Fail;

/// A store of so many pages, on which a server may start.
#[derive(Drop)]
pub(crate) struct Left<S> {
    pub(crate) store: S,
    pub(crate) counts: PageCounts,
}

/// A server of so many pages, which has drawn at most so many names in its epoch, and what it said last.
#[derive(Drop)]
pub(crate) struct Bench<S: StableStore> {
    pub(crate) server: Server<S>,
    pub(crate) counts: PageCounts,
    pub(crate) names: u32,
    pub(crate) said: Words,
    pub(crate) alloc: Global,
}

/// A new store in memory.
pub(crate) fn new_store(alloc: Global, counts: PageCounts) -> Result<Left<ArrayStore>, Fail>
    ensures { IfOk result (λ left. MayBegin SERVER left.counts (⟦<ArrayStore as StableStore>⟧.view left.store)) }
{
    Ok(Left {
        store: new_array(alloc, SERVER, counts)?,
        counts,
    })
}

/// A server that comes up on a store, or the store where it is stopped.
pub(crate) fn started<S: StableStore>(
    rt: &impl Abort,
    alloc: Global,
    left: Left<S>,
) -> Result<Bench<S>, Left<S>>
    requires { MayBegin SERVER left.counts (S.view left.store) }
    ensures on { IfOk result (λ b. IsOn b.counts b.names (view_with (λ s. S.view s) b.server)) }
    ensures begin { IfErr result (λ left. MayBegin SERVER left.counts (S.view left.store)) }
{
    let Left { store, counts } = left;
    match restart(alloc, store, counts) {
        Ok((server, _found)) => Ok(Bench {
            server,
            counts,
            names: 0,
            said: Words::new(alloc),
            alloc,
        }),
        Err(down) => {
            assert_eq!(rt; down.cause, DownCause::Stopped);
            Err(Left {
                store: down.store,
                counts,
            })
        }
    }
}

/// A server that comes up on a store, where nothing stops it.
pub(crate) fn begun<S: StableStore + Drop>(
    rt: &impl Abort,
    alloc: Global,
    left: Left<S>,
) -> Result<Bench<S>, Fail>
    requires { MayBegin SERVER left.counts (S.view left.store) }
    ensures { IfOk result (λ b. IsOn b.counts b.names (view_with (λ s. S.view s) b.server)) }
{
    match started(rt, alloc, left) {
        Ok(bench) => Ok(bench),
        Err(_) => Err("down".into()),
    }
}

/// A server comes up and does three scripts, one after the other. It is generic over the store, as all that drives a server here:
/// a proof over a given store takes a minute.
pub(crate) fn start_and_follow<S: StableStore + Drop>(
    rt: &impl Abort,
    alloc: Global,
    left: Left<S>,
    first: &str,
    then: &str,
    last: &str,
) -> Result<(), Fail>
    requires { MayBegin SERVER left.counts (S.view left.store) }
{
    begun(rt, alloc, left)?.follows_three(rt, first, then, last)?;
    Ok(())
}

/// The store of a server that comes up, does a script and goes down.
pub(crate) fn left_by<S: StableStore + Drop>(
    rt: &impl Abort,
    alloc: Global,
    left: Left<S>,
    script: &str,
) -> Result<Left<S>, Fail>
    requires { MayBegin SERVER left.counts (S.view left.store) }
    ensures { IfOk result (λ left. MayBegin SERVER left.counts (S.view left.store)) }
{
    let mut bench = begun(rt, alloc, left)?;
    bench.follows(rt, script)?;
    Ok(taken_down(bench))
}

/// The store of a server that goes down, whatever was stopped.
pub(crate) fn taken_down<S: StableStore>(bench: Bench<S>) -> Left<S>
    requires { IsOf SERVER bench.counts (view_with (λ s. S.view s) bench.server).storage }
    ensures { MayBegin SERVER result.counts (S.view result.store) }
{
    let counts = bench.counts;
    Left {
        store: bench.server.crash(),
        counts,
    }
}

impl<S: StableStore> Bench<S> {
    /// The server takes a message.
    fn tell(&mut self, message: &Message) -> Result<(), ServerFault>
        requires on { IsOn self.old.counts self.old.names (view_with (λ s. S.view s) self.old.server) }
        requires taken { CanBeTaken message.now }
        ensures leaves { LeavesServer self.new.counts self.new.names result (view_with (λ s. S.view s) self.new.server) }
    {
        if self.names > 1000 {
            return Err(ServerFault::Memory);
        }
        self.names += 1;
        let mut out = Out::new(self.alloc);
        let handled = self.server.handle(message, &mut out);
        self.said.out(&out)?;
        handled
    }

    /// Makes one background step, where there is one to make.
    fn step_once(&mut self) -> Result<bool, ServerFault>
        requires on { IsOn self.old.counts self.old.names (view_with (λ s. S.view s) self.old.server) }
        ensures leaves { LeavesServer self.new.counts self.new.names result (view_with (λ s. S.view s) self.new.server) }
    {
        if self.names > 1000 {
            return Err(ServerFault::Memory);
        }
        self.names += 1;
        let mut out = Out::new(self.alloc);
        let stepped = self.server.step(&mut out);
        self.said.out(&out)?;
        stepped
    }

    fn step(&mut self) -> Result<(), ServerFault>
        requires on { IsOn self.old.counts self.old.names (view_with (λ s. S.view s) self.old.server) }
        ensures leaves { LeavesServer self.new.counts self.new.names result (view_with (λ s. S.view s) self.new.server) }
    {
        if !self.step_once()? {
            self.rests()?;
        }
        Ok(())
    }

    /// Says that there is nothing to do, and whether a work or a flag is there all the same.
    fn rests(&mut self) -> Result<(), ServerFault>
        requires on { IsOn self.old.counts self.old.names (view_with (λ s. S.view s) self.old.server) }
        ensures leaves { LeavesServer self.new.counts self.new.names result (view_with (λ s. S.view s) self.new.server) }
    {
        self.said.word("idle")?;
        if self.server.unsettled() {
            self.said.word("unsettled")?;
        }
        Ok(())
    }

    fn again(&mut self) -> Result<(), ServerFault>
        requires on { IsOn self.old.counts self.old.names (view_with (λ s. S.view s) self.old.server) }
        ensures leaves { LeavesServer self.new.counts self.new.names result (view_with (λ s. S.view s) self.new.server) }
    {
        let mut out = Out::new(self.alloc);
        self.server.again(&mut out)?;
        self.said.out(&out)?;
        Ok(())
    }

    fn timeout(&mut self, tid: Tid) -> Result<(), ServerFault>
        requires on { IsOn self.old.counts self.old.names (view_with (λ s. S.view s) self.old.server) }
        ensures leaves { LeavesServer self.new.counts self.new.names result (view_with (λ s. S.view s) self.new.server) }
    {
        let is_live = self.server.timeout(tid);
        if !is_live {
            self.said.word("none")?;
        }
        Ok(())
    }

    fn scrub(&mut self) -> Result<(), ServerFault>
        requires on { IsOn self.old.counts self.old.names (view_with (λ s. S.view s) self.old.server) }
        ensures leaves { LeavesServer self.new.counts self.new.names result (view_with (λ s. S.view s) self.new.server) }
    {
        match self.server.scrub() {
            Ok(()) => Ok(()),
            Err(Stopped) => Err(ServerFault::Stopped),
        }
    }

    fn show(&mut self) -> Result<(), ServerFault>
        requires on { IsOn self.old.counts self.old.names (view_with (λ s. S.view s) self.old.server) }
        ensures leaves { LeavesServer self.new.counts self.new.names result (view_with (λ s. S.view s) self.new.server) }
    {
        match self.server.show(self.alloc) {
            Ok(list) => Ok(self.said.shown(list.as_slice())?),
            Err(fault) => Err(fault),
        }
    }

    fn close(&mut self) -> Result<(), ServerFault>
        requires on { IsOn self.old.counts self.old.names (view_with (λ s. S.view s) self.old.server) }
        ensures leaves { LeavesServer self.new.counts self.new.names result (view_with (λ s. S.view s) self.new.server) }
    {
        self.server.close_clients()
    }

    /// Does a move, and keeps what the server says of it.
    pub(crate) fn advance(&mut self, step: Move) -> Result<(), ServerFault>
        requires on { IsOn self.old.counts self.old.names (view_with (λ s. S.view s) self.old.server) }
        ensures leaves { LeavesServer self.new.counts self.new.names result (view_with (λ s. S.view s) self.new.server) }
    {
        self.said = Words::new(self.alloc);
        match message_of(self.alloc, step)? {
            Some(message) => self.tell(&message),
            None => self.does(step),
        }
    }

    /// Does what is no message.
    fn does(&mut self, step: Move) -> Result<(), ServerFault>
        requires on { IsOn self.old.counts self.old.names (view_with (λ s. S.view s) self.old.server) }
        ensures leaves { LeavesServer self.new.counts self.new.names result (view_with (λ s. S.view s) self.new.server) }
    {
        match step {
            Move::Step => self.step(),
            Move::Again => self.again(),
            Move::Timeout(t) => self.timeout(t),
            Move::Scrub => self.scrub(),
            Move::Show => self.show(),
            _ => self.close(),
        }
    }

    /// Does a move, and finds that the server says this of it.
    pub(crate) fn says(
        &mut self,
        rt: &impl Abort,
        step: Move,
        words: &str,
    ) -> Result<(), ServerFault>
        requires on { IsOn self.old.counts self.old.names (view_with (λ s. S.view s) self.old.server) }
        ensures leaves { LeavesServer self.new.counts self.new.names result (view_with (λ s. S.view s) self.new.server) }
    {
        self.advance(step)?;
        assert_eq!(rt; self.said.text.as_str(), words);
        Ok(())
    }

    /// Does the moves of these lines, and finds that the server says of each what the line says. A line that can't be read is
    /// answered as a want of memory.
    pub(crate) fn plays(&mut self, rt: &impl Abort, lines: &[&str]) -> Result<(), ServerFault>
        requires on { IsOn self.old.counts self.old.names (view_with (λ s. S.view s) self.old.server) }
        ensures leaves { LeavesServer self.new.counts self.new.names result (view_with (λ s. S.view s) self.new.server) }
    {
        for line in lines {
            let Some(scene) = scene_of(line) else {
                return Err(ServerFault::Memory);
            };
            self.says(rt, scene.step, scene.words)?;
        }
        Ok(())
    }

    /// Does the moves of a script, and finds that the server says of each what its line says.
    pub(crate) fn follows(&mut self, rt: &impl Abort, script: &str) -> Result<(), ServerFault>
        requires on { IsOn self.old.counts self.old.names (view_with (λ s. S.view s) self.old.server) }
        ensures leaves { LeavesServer self.new.counts self.new.names result (view_with (λ s. S.view s) self.new.server) }
    {
        let lines: Vec<&str> = script.lines().collect(self.alloc)?;
        self.plays(rt, &lines)
    }

    /// Does the moves of three scripts, one after the other, and finds the same.
    pub(crate) fn follows_three(
        &mut self,
        rt: &impl Abort,
        first: &str,
        then: &str,
        last: &str,
    ) -> Result<(), ServerFault>
        requires on { IsOn self.old.counts self.old.names (view_with (λ s. S.view s) self.old.server) }
        ensures leaves { LeavesServer self.new.counts self.new.names result (view_with (λ s. S.view s) self.new.server) }
    {
        self.follows(rt, first)?;
        self.follows(rt, then)?;
        self.follows(rt, last)
    }
}
