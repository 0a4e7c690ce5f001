//! A server that is up, or the store that it stands on while it is down.
ghost use Rattle.std.specs.Prelude.{◌≡◌, ◌<◌, ◌+◌, ◌++◌, ℕ, map, [], Bool, true, false, is_some, IfOk, OnOk};
ghost use Rattle.jn_base.specs.declared.names.ServerNo.{ServerNo};
ghost use Rattle.jn_device.specs.Events.{PowersUp, powered_off, Decays, Revives, Arms, is_within, disarmed, cleared};
ghost use Rattle.jn_page_state.specs.Recoverable.{IsRecoverable};
ghost use Rattle.jn_records.specs.StablePages.{Counts, page_count};
ghost use Rattle.jn_recovery.specs.Counts.{counts_by};
ghost use Rattle.jn_rows.specs.declared.coordinator.Transaction.{Transaction};
ghost use Rattle.jn_row_ranges.specs.Taking.{AllCanBeTaken};
ghost use Rattle.jn_msgs.specs.Ranges.{CanBeTaken};
ghost use Rattle.jn_place.specs.Calls.{Serves, Called, Answered, LeavesStore, CameUp, LeavesPlace, StandsOn};
ghost use Rattle.jn_place.specs.Exact.{texts_of_step, has_work_at, ReadsPages, items_of, Took, WorkedBy, ScrubbedBy, Showed, Closed, AsksAgain, TimedOut, Crashed, IsRestart, Befell, StaysCalm, ComesCalm, WhereUp, TakeLeaves, WorkLeaves, KeepsBeside, LeavesClean, LeavesImage};
ghost use Rattle.jn_report.specs.Lines.{lines_at};
ghost use Rattle.jn_place.specs.Inner.{Handles, Works, LeavesFewer, Scrubs, Shows, Closes, told_at, SaysSame, StaysAs, Follows, StandsUp, Rises, Lifts, WhereDone, LeavesOwnImage};
ghost use Rattle.jn_place.specs.Remaining.{steps_at};
ghost use Rattle.jn_place.specs.Places.{HoldsUp, Stands, IsDownAt, IsPlace, NoneTold, HasPages, is_up, is_there};

use crate::telling::{tell, tell_faults};
use jn_base::{FaultKind, ServerNo, Tid};
use jn_intent::{Down, DownCause, PageCounts};
use jn_msgs::{Message, Out};
use jn_report::{Line, Text, When};
use jn_rows::Transaction;
use jn_server::{Server, ServerFault, Shown, restart};
use jn_store::{Powered, StableStore};
use std::alloc::{AllocError, Global};
use std::mem;

/// What stands at a server's place.
#[derive(Drop)]
pub enum Slot<S: StableStore> {
    Up(Server<S>),
    Down(S),
    /// Only within a call that moves what stands there.
    Gone,
}

/// A server's place, and how many pages its store has.
#[derive(Drop)]
pub struct Place<S: StableStore> {
    pub counts: PageCounts,
    pub slot: Slot<S>,
}

/// How a restart ended.
#[derive(Drop)]
pub enum Restarted {
    /// In this epoch, with the transactions of the flags that it found, in rising order.
    Up(u32, Vec<Tid>),
    /// The server is down.
    Stopped,
    /// The server is down.
    UsedUp,
}

impl<S: Powered + Drop> Place<S> {
    pub fn is_up(&self) -> bool
        ensures { result ≡ is_up self.now.slot }
    {
        matches!(self.slot, Slot::Up(_))
    }

    /// How many physical pages there are.
    pub fn pages(&self) -> u32
        ensures { result ≡ page_count (counts_by self.now.counts) + page_count (counts_by self.now.counts) }
    {
        pages_of(self.counts)
    }

    // Steps of a server that is up. Where it is stopped it is down then.

    /// The server takes a message. What it sends and reports, or none where it was stopped.
    pub fn take(
        &mut self,
        out: Out,
        server: ServerNo,
        message: &Message,
        when: When,
        told: &mut Vec<Line>,
    ) -> Result<Option<Out>, AllocError>
        requires place { IsPlace (λ s. S.view s) server 1000000 self.old }
        requires empty { out ≡ record { messages = []; notes = [] } }
        requires up { is_up self.old.slot ≡ true }
        requires message { CanBeTaken message.now }
        ensures left { (most : ℕ) → IsPlace (λ s. S.view s) server most self.old → IfOk result (λ answer. LeavesPlace (λ s. S.view s) server most self.new answer) }
        ensures took { IfOk result (λ answer. Took (λ s. S.view s) (λ s. S.device s) server (counts_by self.old.counts) when message.now self.old.slot answer self.new.slot told.old.items told.new.items) }
        ensures calm { IfOk result (λ answer. StaysCalm (λ s. S.view s) self.old.slot (is_some answer) self.new.slot) }
        ensures beside { OnOk result (WhereUp (λ s. S.view s) (TakeLeaves message.now) self.old.slot self.new.slot) }
        ensures counts { self.new.counts ≡ self.old.counts }
        ensures room { ReadsPages (λ s. S.view s) self.old.slot }
    {
        let answer = self.handle(out, message)?;
        self.after_step(server, answer.is_some(), when, told)?;
        Ok(answer)
    }

    /// Whether a background step has something to do.
    pub fn has_work(&self) -> bool
        requires serves { Serves (λ s. S.view s) 1000000 self.now.slot }
        ensures work { result ≡ has_work_at (λ s. S.view s) self.now.slot }
        ensures room { ReadsPages (λ s. S.view s) self.now.slot }
    {
        let Slot::Up(server) = &self.slot else {
            unreachable!()
        };
        server.has_work()
    }

    /// One background step, of which there is one. What it sends and reports, or none where it was stopped.
    pub fn step(
        &mut self,
        out: Out,
        server: ServerNo,
        when: When,
        told: &mut Vec<Line>,
    ) -> Result<Option<Out>, AllocError>
        requires place { IsPlace (λ s. S.view s) server 1000000 self.old }
        requires empty { out ≡ record { messages = []; notes = [] } }
        requires up { is_up self.old.slot ≡ true }
        requires work { has_work_at (λ s. S.view s) self.old.slot ≡ true }
        ensures left { (most : ℕ) → IsPlace (λ s. S.view s) server most self.old → IfOk result (λ answer. LeavesPlace (λ s. S.view s) server most self.new answer) }
        ensures worked { IfOk result (λ answer. WorkedBy (λ s. S.view s) (λ s. S.device s) server (counts_by self.old.counts) when self.old.slot answer self.new.slot told.old.items told.new.items) }
        ensures calm { IfOk result (λ answer. StaysCalm (λ s. S.view s) self.old.slot (is_some answer) self.new.slot) }
        ensures beside { OnOk result (WhereUp (λ s. S.view s) WorkLeaves self.old.slot self.new.slot) }
        ensures less { OnOk result (steps_at (λ s. S.view s) self.new.slot < steps_at (λ s. S.view s) self.old.slot) }
        ensures counts { self.new.counts ≡ self.old.counts }
        ensures room { ReadsPages (λ s. S.view s) self.old.slot }
    {
        let answer = self.work(out)?;
        self.after_step(server, answer.is_some(), when, told)?;
        Ok(answer)
    }

    /// The server's files are reported, or none where it was stopped.
    pub fn show(
        &mut self,
        alloc: Global,
        server: ServerNo,
        when: When,
        told: &mut Vec<Line>,
    ) -> Result<Option<Vec<Shown>>, AllocError>
        requires place { IsPlace (λ s. S.view s) server 1000000 self.old }
        requires up { is_up self.old.slot ≡ true }
        ensures left { (most : ℕ) → IsPlace (λ s. S.view s) server most self.old → OnOk result (IsPlace (λ s. S.view s) server most self.new) }
        ensures showed { IfOk result (λ list. Showed (λ s. S.view s) (λ s. S.device s) server (counts_by self.old.counts) when self.old.slot (items_of list) self.new.slot told.old.items told.new.items) }
        ensures calm { IfOk result (λ list. StaysCalm (λ s. S.view s) self.old.slot (is_some list) self.new.slot) }
        ensures beside { OnOk result (WhereUp (λ s. S.view s) KeepsBeside self.old.slot self.new.slot) }
        ensures counts { self.new.counts ≡ self.old.counts }
    {
        let list = self.list_files(alloc)?;
        self.after_step(server, list.is_some(), when, told)?;
        Ok(list)
    }

    /// Takes the list of a show back, if there is one, so that the next show needs no memory for its own.
    pub fn keep_room(&mut self, list: Option<Vec<Shown>>)
        ensures { self.new ≡ self.old }
    {
        let Some(list) = list else {
            return;
        };
        if let Slot::Up(server) = &mut self.slot {
            server.keep_room(list);
        }
    }

    /// Each pair of pages is cleaned.
    pub fn scrub(
        &mut self,
        server: ServerNo,
        when: When,
        told: &mut Vec<Line>,
    ) -> Result<(), AllocError>
        requires place { IsPlace (λ s. S.view s) server 1000000 self.old }
        requires up { is_up self.old.slot ≡ true }
        ensures left { (most : ℕ) → IsPlace (λ s. S.view s) server most self.old → OnOk result (IsPlace (λ s. S.view s) server most self.new) }
        ensures scrubbed { OnOk result ((done : Bool) × ScrubbedBy (λ s. S.view s) (λ s. S.device s) server (counts_by self.old.counts) when self.old.slot done self.new.slot told.old.items told.new.items) }
        ensures calm { OnOk result (StaysCalm (λ s. S.view s) self.old.slot true self.new.slot) }
        ensures beside { OnOk result (WhereUp (λ s. S.view s) KeepsBeside self.old.slot self.new.slot) }
        ensures cleaned { OnOk result (WhereUp (λ s. S.view s) LeavesClean self.old.slot self.new.slot) }
        ensures image { OnOk result (WhereUp (λ s. S.view s) (LeavesImage server (counts_by self.old.counts)) self.old.slot self.new.slot) }
        ensures counts { self.new.counts ≡ self.old.counts }
    {
        let done = self.clean();
        self.after_step(server, done.is_some(), when, told)
    }

    /// Each outcome counts as thanked.
    pub fn close_clients(
        &mut self,
        server: ServerNo,
        when: When,
        told: &mut Vec<Line>,
    ) -> Result<(), AllocError>
        requires place { IsPlace (λ s. S.view s) server 1000000 self.old }
        requires up { is_up self.old.slot ≡ true }
        ensures left { (most : ℕ) → IsPlace (λ s. S.view s) server most self.old → OnOk result (IsPlace (λ s. S.view s) server most self.new) }
        ensures closed { OnOk result ((done : Bool) × Closed (λ s. S.view s) (λ s. S.device s) server (counts_by self.old.counts) when self.old.slot done self.new.slot told.old.items told.new.items) }
        ensures calm { OnOk result (StaysCalm (λ s. S.view s) self.old.slot true self.new.slot) }
        ensures beside { OnOk result (WhereUp (λ s. S.view s) KeepsBeside self.old.slot self.new.slot) }
        ensures counts { self.new.counts ≡ self.old.counts }
    {
        let done = self.thank()?;
        self.after_step(server, done.is_some(), when, told)
    }

    /// What waits for an answer is sent again.
    pub fn again(&self, out: Out) -> Result<Out, AllocError>
        requires serves { Serves (λ s. S.view s) 1000000 self.now.slot }
        requires empty { out ≡ record { messages = []; notes = [] } }
        ensures sent { IfOk result (λ out. AllCanBeTaken out.messages) }
        ensures asks { IfOk result (λ out. AsksAgain (λ s. S.view s) self.now.slot out) }
    {
        let mut out = out;
        let Slot::Up(server) = &self.slot else {
            unreachable!()
        };
        server.again(&mut out)?;
        Ok(out)
    }

    /// The transaction's work may be broken from now on. False exactly where there is no such work.
    pub fn timeout(&mut self, tid: Tid) -> bool
        requires serves { Serves (λ s. S.view s) 1000000 self.old.slot }
        ensures place { (server : ServerNo) (most : ℕ) → IsPlace (λ s. S.view s) server most self.old → IsPlace (λ s. S.view s) server most self.new }
        ensures timed_out { TimedOut (λ s. S.view s) tid self.old.slot result self.new.slot }
        ensures counts { self.new.counts ≡ self.old.counts }
    {
        let Slot::Up(server) = &mut self.slot else {
            unreachable!()
        };
        let live = server.timeout(tid);
        server.counts_pages();
        live
    }

    // Calls of a server that is up, which they leave where it is.

    fn handle(&mut self, out: Out, message: &Message) -> Result<Option<Out>, AllocError>
        requires serves { Serves (λ s. S.view s) 1000000 self.old.slot }
        requires empty { out ≡ record { messages = []; notes = [] } }
        requires message { CanBeTaken message.now }
        ensures answered { IfOk result (λ answer. Answered (λ s. S.view s) self.old.slot self.new.slot answer) }
        ensures handled { IfOk result (λ answer. Handles (λ s. S.view s) message.now self.old.slot answer self.new.slot) }
        ensures beside { IfOk result (λ answer. WhereDone (λ s. S.view s) (TakeLeaves message.now) self.old.slot (is_some answer) self.new.slot) }
        ensures counts { self.new.counts ≡ self.old.counts }
        ensures room { ReadsPages (λ s. S.view s) self.old.slot }
    {
        let mut out = out;
        let Slot::Up(server) = &mut self.slot else {
            unreachable!()
        };
        match server.handle(message, &mut out) {
            Ok(()) => Ok(Some(out)),
            Err(ServerFault::Stopped) => Ok(None),
            Err(ServerFault::Memory) => Err(AllocError),
        }
    }

    fn work(&mut self, out: Out) -> Result<Option<Out>, AllocError>
        requires serves { Serves (λ s. S.view s) 1000000 self.old.slot }
        requires empty { out ≡ record { messages = []; notes = [] } }
        requires work { has_work_at (λ s. S.view s) self.old.slot ≡ true }
        ensures answered { IfOk result (λ answer. Answered (λ s. S.view s) self.old.slot self.new.slot answer) }
        ensures worked { IfOk result (λ answer. Works (λ s. S.view s) self.old.slot answer self.new.slot) }
        ensures beside { IfOk result (λ answer. WhereDone (λ s. S.view s) WorkLeaves self.old.slot (is_some answer) self.new.slot) }
        ensures less { IfOk result (λ answer. LeavesFewer (λ s. S.view s) self.old.slot (is_some answer) self.new.slot) }
        ensures counts { self.new.counts ≡ self.old.counts }
        ensures room { ReadsPages (λ s. S.view s) self.old.slot }
    {
        let mut out = out;
        let Slot::Up(server) = &mut self.slot else {
            unreachable!()
        };
        match server.step(&mut out) {
            Ok(_done) => Ok(Some(out)),
            Err(ServerFault::Stopped) => Ok(None),
            Err(ServerFault::Memory) => Err(AllocError),
        }
    }

    fn list_files(&mut self, alloc: Global) -> Result<Option<Vec<Shown>>, AllocError>
        requires serves { Serves (λ s. S.view s) 1000000 self.old.slot }
        ensures called { IfOk result (λ list. Called (λ s. S.view s) 0 (is_some list) self.old.slot self.new.slot) }
        ensures shows { IfOk result (λ list. Shows (λ s. S.view s) self.old.slot (items_of list) self.new.slot) }
        ensures beside { IfOk result (λ list. WhereDone (λ s. S.view s) KeepsBeside self.old.slot (is_some list) self.new.slot) }
        ensures counts { self.new.counts ≡ self.old.counts }
    {
        let Slot::Up(server) = &mut self.slot else {
            unreachable!()
        };
        match server.show(alloc) {
            Ok(list) => Ok(Some(list)),
            Err(ServerFault::Stopped) => Ok(None),
            Err(ServerFault::Memory) => Err(AllocError),
        }
    }

    fn clean(&mut self) -> Option<()>
        requires serves { Serves (λ s. S.view s) 1000000 self.old.slot }
        ensures called { Called (λ s. S.view s) 0 (is_some result) self.old.slot self.new.slot }
        ensures scrubs { Scrubs (λ s. S.view s) self.old.slot (is_some result) self.new.slot }
        ensures cleaned { WhereDone (λ s. S.view s) LeavesClean self.old.slot (is_some result) self.new.slot }
        ensures beside { WhereDone (λ s. S.view s) KeepsBeside self.old.slot (is_some result) self.new.slot }
        ensures image { WhereDone (λ s. S.view s) LeavesOwnImage self.old.slot (is_some result) self.new.slot }
        ensures counts { self.new.counts ≡ self.old.counts }
    {
        let Slot::Up(server) = &mut self.slot else {
            unreachable!()
        };
        match server.scrub() {
            Ok(()) => Some(()),
            Err(_stopped) => None,
        }
    }

    fn thank(&mut self) -> Result<Option<()>, AllocError>
        requires serves { Serves (λ s. S.view s) 1000000 self.old.slot }
        ensures called { IfOk result (λ done. Called (λ s. S.view s) 0 (is_some done) self.old.slot self.new.slot) }
        ensures closes { IfOk result (λ done. Closes (λ s. S.view s) self.old.slot (is_some done) self.new.slot) }
        ensures beside { IfOk result (λ done. WhereDone (λ s. S.view s) KeepsBeside self.old.slot (is_some done) self.new.slot) }
        ensures counts { self.new.counts ≡ self.old.counts }
    {
        let Slot::Up(server) = &mut self.slot else {
            unreachable!()
        };
        match server.close_clients() {
            Ok(()) => Ok(Some(())),
            Err(ServerFault::Stopped) => Ok(None),
            Err(ServerFault::Memory) => Err(AllocError),
        }
    }

    /// What follows a call: a server that was stopped goes down, and the faults that its device refused are reported.
    fn after_step(
        &mut self,
        server: ServerNo,
        done: bool,
        when: When,
        told: &mut Vec<Line>,
    ) -> Result<(), AllocError>
        requires up { is_up self.old.slot ≡ true }
        ensures place { (most : ℕ) → HoldsUp (λ s. S.view s) server (counts_by self.old.counts) most done self.old.slot → OnOk result (IsPlace (λ s. S.view s) server most self.new) }
        ensures follows { OnOk result (Follows (λ s. S.view s) (λ s. S.device s) self.old.slot done self.new.slot) }
        ensures lines { OnOk result (told.new.items ≡ told.old.items ++ lines_at when (texts_of_step server (told_at (λ s. S.device s) self.old.slot) done)) }
        ensures counts { self.new.counts ≡ self.old.counts }
    {
        if done {
            return self.tell_outside(server, when, told);
        }
        self.go_down();
        self.tell_outside(server, when, told)?;
        tell(told, when, Text::Stopped(server))
    }

    /// Reports the faults that the device refused, and forgets them.
    fn tell_outside(
        &mut self,
        server: ServerNo,
        when: When,
        told: &mut Vec<Line>,
    ) -> Result<(), AllocError>
        requires there { is_there self.old.slot ≡ true }
        ensures place { (most : ℕ) → Stands (λ s. S.view s) server (counts_by self.old.counts) most self.old.slot → OnOk result (IsPlace (λ s. S.view s) server most self.new) }
        ensures clears { OnOk result (StaysAs (λ s. S.view s) (λ s. S.device s) cleared self.old.slot self.new.slot) }
        ensures lines { OnOk result (told.new.items ≡ told.old.items ++ lines_at when (texts_of_step server (told_at (λ s. S.device s) self.old.slot) true)) }
        ensures counts { self.new.counts ≡ self.old.counts }
    {
        match &mut self.slot {
            Slot::Up(up) => {
                tell_faults(told, when, server, up.outside())?;
                up.clear_outside();
                up.counts_pages();
            }
            Slot::Down(store) => {
                tell_faults(told, when, server, store.outside())?;
                store.clear_outside();
            }
            Slot::Gone => unreachable!(),
        }
        Ok(())
    }

    // Down and up.

    /// A server that is up goes down.
    fn go_down(&mut self)
        requires { is_up self.old.slot ≡ true }
        ensures store { LeavesStore self.old.slot self.new.slot }
        ensures down { (server : ServerNo) (most : ℕ) (done : Bool) → HoldsUp (λ s. S.view s) server (counts_by self.old.counts) most done self.old.slot → IsDownAt (λ s. S.view s) server (counts_by self.old.counts) self.new.slot }
        ensures counts { self.new.counts ≡ self.old.counts }
    {
        match mem::replace(&mut self.slot, Slot::Gone) {
            Slot::Up(server) => self.slot = Slot::Down(server.crash()),
            _ => unreachable!(),
        }
    }

    /// A server that is up goes down, and its power goes.
    pub fn crash(&mut self)
        requires up { is_up self.old.slot ≡ true }
        ensures place { (server : ServerNo) (most : ℕ) → IsPlace (λ s. S.view s) server most self.old → IsPlace (λ s. S.view s) server most self.new }
        ensures crashed { (server : ServerNo) (most : ℕ) → IsPlace (λ s. S.view s) server most self.old → Crashed (λ s. S.view s) (λ s. S.device s) (counts_by self.old.counts) self.old.slot self.new.slot }
        ensures counts { self.new.counts ≡ self.old.counts }
    {
        self.go_down();
        self.power_off();
    }

    /// The power of a server that is down goes.
    fn power_off(&mut self)
        requires there { is_there self.old.slot ≡ true }
        requires down { is_up self.old.slot ≡ false }
        ensures down { (server : ServerNo) → IsDownAt (λ s. S.view s) server (counts_by self.old.counts) self.old.slot → IsDownAt (λ s. S.view s) server (counts_by self.old.counts) self.new.slot }
        ensures told { NoneTold (λ s. S.view s) self.old.slot → NoneTold (λ s. S.view s) self.new.slot }
        ensures off { StaysAs (λ s. S.view s) (λ s. S.device s) powered_off self.old.slot self.new.slot }
        ensures counts { self.new.counts ≡ self.old.counts }
    {
        let Slot::Down(store) = &mut self.slot else {
            unreachable!()
        };
        store.power_off();
    }

    /// A server that is down gets power, and comes up unless it is stopped or has no epoch left.
    fn restart(&mut self, alloc: Global) -> Result<Restarted, AllocError>
        requires down { (server : ServerNo) × IsDownAt (λ s. S.view s) server (counts_by self.old.counts) self.old.slot }
        ensures came { (server : ServerNo) → IsDownAt (λ s. S.view s) server (counts_by self.old.counts) self.old.slot → IfOk result (λ r. CameUp (λ s. S.view s) server (counts_by self.old.counts) self.new.slot r) }
        ensures lifts { (server : ServerNo) → IsDownAt (λ s. S.view s) server (counts_by self.old.counts) self.old.slot → IfOk result (λ r. Lifts (λ s. S.view s) (λ s. S.device s) server (counts_by self.old.counts) self.old.slot r self.new.slot) }
        ensures counts { self.new.counts ≡ self.old.counts }
    {
        match mem::replace(&mut self.slot, Slot::Gone) {
            Slot::Down(store) => self.recover(alloc, powered(store)),
            _ => unreachable!(),
        }
    }

    /// A server that is down is to come up, and the faults that its device refused are reported. Where it has no epoch left its power
    /// goes again.
    pub fn come_up(
        &mut self,
        alloc: Global,
        server: ServerNo,
        when: When,
        told: &mut Vec<Line>,
    ) -> Result<Restarted, AllocError>
        requires place { IsPlace (λ s. S.view s) server 1000000 self.old }
        requires down { is_up self.old.slot ≡ false }
        ensures place { (most : ℕ) → IsPlace (λ s. S.view s) server most self.old → OnOk result (IsPlace (λ s. S.view s) server most self.new) }
        ensures restarts { IfOk result (λ r. IsRestart (λ s. S.view s) (λ s. S.device s) server (counts_by self.old.counts) when self.old.slot r self.new.slot told.old.items told.new.items) }
        ensures calm { IfOk result (λ r. ComesCalm (λ s. S.view s) self.old.slot r self.new.slot) }
        ensures counts { self.new.counts ≡ self.old.counts }
    {
        let restarted = self.restart(alloc)?;
        self.tell_outside(server, when, told)?;
        Ok(restarted)
    }

    /// A server comes up on its store, unless it is stopped or has no epoch left.
    fn recover(&mut self, alloc: Global, store: S) -> Result<Restarted, AllocError>
        requires recoverable { (server : ServerNo) × IsRecoverable server (counts_by self.old.counts) (S.view store) }
        ensures came { (server : ServerNo) → IsRecoverable server (counts_by self.old.counts) (S.view store) → IfOk result (λ r. CameUp (λ s. S.view s) server (counts_by self.old.counts) self.new.slot r) }
        ensures rises { (server : ServerNo) → IsRecoverable server (counts_by self.old.counts) (S.view store) → IfOk result (λ r. Rises (λ s. S.view s) (λ s. S.device s) server (counts_by self.old.counts) store r self.new.slot) }
        ensures counts { self.new.counts ≡ self.old.counts }
    {
        match restart(alloc, store, self.counts) {
            Ok((server, found)) => self.stand(alloc, server, found.epoch),
            Err(Down { store, cause }) => match cause {
                DownCause::Stopped => {
                    self.slot = Slot::Down(store);
                    Ok(Restarted::Stopped)
                }
                DownCause::EpochsUsedUp => {
                    self.slot = Slot::Down(unpowered(store));
                    Ok(Restarted::UsedUp)
                }
                DownCause::Memory => Err(AllocError),
            },
        }
    }

    /// A server that came up stands there, and the transactions of its flags are named.
    fn stand(
        &mut self,
        alloc: Global,
        server: Server<S>,
        epoch: u32,
    ) -> Result<Restarted, AllocError>
        ensures up { IfOk result (λ r. StandsUp server epoch r self.new.slot) }
        ensures counts { self.new.counts ≡ self.old.counts }
    {
        let tids = names_of(alloc, server.transactions())?;
        self.slot = Slot::Up(server);
        Ok(Restarted::Up(epoch, tids))
    }

    // What befalls the device.

    /// A page goes bad. False exactly where that is not allowed.
    pub fn decay(&mut self, p: u32) -> bool
        requires pages { HasPages (λ s. S.view s) (counts_by self.old.counts) self.old.slot }
        requires within { p < page_count (counts_by self.old.counts) + page_count (counts_by self.old.counts) }
        ensures place { (server : ServerNo) (most : ℕ) → IsPlace (λ s. S.view s) server most self.old → IsPlace (λ s. S.view s) server most self.new }
        ensures befell { Befell (λ s. S.view s) (λ s. S.device s) (counts_by self.old.counts) (λ d e. Decays d p result e) self.old.slot self.new.slot }
        ensures beside { WhereUp (λ s. S.view s) KeepsBeside self.old.slot self.new.slot }
        ensures counts { self.new.counts ≡ self.old.counts }
    {
        match &mut self.slot {
            Slot::Up(server) => {
                let allowed = server.decay(p);
                server.counts_pages();
                allowed
            }
            Slot::Down(store) => store.decay(p),
            Slot::Gone => unreachable!(),
        }
    }

    /// A page is good again.
    pub fn revive(&mut self, p: u32)
        requires pages { HasPages (λ s. S.view s) (counts_by self.old.counts) self.old.slot }
        requires within { p < page_count (counts_by self.old.counts) + page_count (counts_by self.old.counts) }
        ensures place { (server : ServerNo) (most : ℕ) → IsPlace (λ s. S.view s) server most self.old → IsPlace (λ s. S.view s) server most self.new }
        ensures befell { Befell (λ s. S.view s) (λ s. S.device s) (counts_by self.old.counts) (λ d e. Revives d p e) self.old.slot self.new.slot }
        ensures beside { WhereUp (λ s. S.view s) KeepsBeside self.old.slot self.new.slot }
        ensures counts { self.new.counts ≡ self.old.counts }
    {
        match &mut self.slot {
            Slot::Up(server) => {
                server.revive(p);
                server.counts_pages();
            }
            Slot::Down(store) => store.revive(p),
            Slot::Gone => unreachable!(),
        }
    }

    /// A fault waits for the n-th call from now. False exactly where no more faults may wait.
    pub fn arm(&mut self, n: u32, kind: FaultKind) -> bool
        requires pages { HasPages (λ s. S.view s) (counts_by self.old.counts) self.old.slot }
        requires from_one { 0 < n }
        requires within { is_within (page_count (counts_by self.old.counts) + page_count (counts_by self.old.counts)) kind ≡ true }
        requires none_told { NoneTold (λ s. S.view s) self.old.slot }
        ensures place { (server : ServerNo) (most : ℕ) → IsPlace (λ s. S.view s) server most self.old → IsPlace (λ s. S.view s) server most self.new }
        ensures befell { Befell (λ s. S.view s) (λ s. S.device s) (counts_by self.old.counts) (λ d e. Arms d n kind result e) self.old.slot self.new.slot }
        ensures beside { WhereUp (λ s. S.view s) KeepsBeside self.old.slot self.new.slot }
        ensures counts { self.new.counts ≡ self.old.counts }
    {
        match &mut self.slot {
            Slot::Up(server) => {
                let armed = server.arm(n, kind);
                server.counts_pages();
                armed
            }
            Slot::Down(store) => store.arm(n, kind),
            Slot::Gone => unreachable!(),
        }
    }

    /// No fault waits any more.
    pub fn disarm(&mut self)
        requires there { is_there self.old.slot ≡ true }
        ensures place { (server : ServerNo) (most : ℕ) → IsPlace (λ s. S.view s) server most self.old → IsPlace (λ s. S.view s) server most self.new }
        ensures befell { Befell (λ s. S.view s) (λ s. S.device s) (counts_by self.old.counts) (λ d e. e ≡ disarmed d) self.old.slot self.new.slot }
        ensures beside { WhereUp (λ s. S.view s) KeepsBeside self.old.slot self.new.slot }
        ensures counts { self.new.counts ≡ self.old.counts }
    {
        match &mut self.slot {
            Slot::Up(server) => {
                server.disarm();
                server.counts_pages();
            }
            Slot::Down(store) => store.disarm(),
            Slot::Gone => unreachable!(),
        }
    }

    /// The store. A server that is up goes down.
    pub fn into_store(self) -> S
        requires there { is_there self.slot ≡ true }
        ensures recoverable { (server : ServerNo) (most : ℕ) → IsPlace (λ s. S.view s) server most self → IsRecoverable server (counts_by self.counts) (S.view result) }
        ensures store { StandsOn self.slot result }
    {
        let Place { counts: _, slot } = self;
        match slot {
            Slot::Up(server) => server.crash(),
            Slot::Down(store) => store,
            Slot::Gone => unreachable!(),
        }
    }
}

/// The names of these transactions, in their order.
fn names_of(alloc: Global, transactions: &[Transaction]) -> Result<Vec<Tid>, AllocError>
    ensures { IfOk result (λ names. names.items ≡ map (λ (t : Transaction). t.tid) transactions.now) }
{
    let mut names = Vec::new(alloc);
    for transaction in transactions {
        names.push(transaction.tid)?;
    }
    Ok(names)
}

/// How many physical pages a server of these counts has.
fn pages_of(counts: PageCounts) -> u32
    ensures { result ≡ page_count (counts_by counts) + page_count (counts_by counts) }
{
    2 * (1 + u32::from(counts.pool) + u32::from(counts.heads) + u32::from(counts.leaves))
}

/// The store with power.
fn powered<S: Powered>(store: S) -> S
    ensures recoverable { (server : ServerNo) (g : Counts) → IsRecoverable server g (S.view store) → IsRecoverable server g (S.view result) }
    ensures up { PowersUp (S.device store) (S.device result) }
    ensures same { SaysSame (λ s. S.view s) store result }
{
    let mut store = store;
    store.power_up();
    store
}

/// The store without power.
fn unpowered<S: Powered>(store: S) -> S
    ensures recoverable { (server : ServerNo) (g : Counts) → IsRecoverable server g (S.view store) → IsRecoverable server g (S.view result) }
    ensures off { S.device result ≡ powered_off (S.device store) }
    ensures same { SaysSame (λ s. S.view s) store result }
{
    let mut store = store;
    store.power_off();
    store
}
