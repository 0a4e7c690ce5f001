//! What follows from a frame: until nothing is left to do.
ghost use Rattle.std.specs.Prelude.{◌≡◌, ◌≤◌, ◌<◌, ◌+◌, ◌^◌, ◌↔◌, [], true, false, is_some, IfOk, IsFalse, OnOk};
ghost use Rattle.jn_node.specs.Calls.{FindsNone, GoesOn, IsAtRest, IsSameNode, RestsUnlessOwn, SettlesAll, WorksBy};
ghost use Rattle.jn_node.specs.Nodes.{IsAtWork, IsNode, IsRunning, counts_at, left_to_take, running_at, view_at};
ghost use Rattle.jn_node.specs.Serving.{step_of};
ghost use Rattle.jn_server.specs.Remaining.{steps_left};

use crate::node::Node;
use jn_msgs::Out;
use jn_server::ServerFault;
use jn_store::StableStore;
use std::alloc::AllocError;

impl<S: StableStore + Drop> Node<S> {
    /// What it has sent to itself is taken, the oldest first and each before any step, and what goes is carried out, until nothing is
    /// left to do.
    pub(crate) fn settle(&mut self) -> Result<(), AllocError>
        requires runs { IsAtWork (λ s. S.view s) self.old }
        requires next { self.old.running.tickets.next + 1 < 2 ^ 32 }
        ensures node { OnOk result (IsNode (λ s. S.view s) self.new) }
        ensures settles { OnOk result (SettlesAll (λ s. S.view s) self.old self.new) }
        ensures tickets { OnOk result (self.new.running.tickets ≡ self.old.running.tickets) }
        ensures same { IsSameNode self.old self.new }
    {
        // Each turn leaves less to take and to carry out.
        while self.goes_on()? {}
        Ok(())
    }

    /// Steps are made until a message of its own waits; then the oldest one is taken. False exactly where none waits and nothing goes.
    fn goes_on(&mut self) -> Result<bool, AllocError>
        requires runs { IsAtWork (λ s. S.view s) self.old }
        requires next { self.old.running.tickets.next + 1 < 2 ^ 32 }
        ensures runs { OnOk result (IsAtWork (λ s. S.view s) self.new) }
        ensures goes { OnOk result (GoesOn (λ s. S.view s) self.old self.new) }
        ensures less { IfOk result (λ took. took ≡ true → left_to_take (λ s. S.view s) self.new < left_to_take (λ s. S.view s) self.old) }
        ensures rests { IfOk result (λ took. took ≡ false → IsAtRest (λ s. S.view s) self.new) }
        ensures tickets { OnOk result (self.new.running.tickets ≡ self.old.running.tickets) }
        ensures same { IsSameNode self.old self.new }
    {
        self.carry_out()?;
        self.take_own()
    }

    /// The oldest message of its own is taken, if one waits.
    fn take_own(&mut self) -> Result<bool, AllocError>
        requires runs { IsAtWork (λ s. S.view s) self.old }
        requires next { self.old.running.tickets.next + 1 < 2 ^ 32 }
        ensures runs { OnOk result (IsAtWork (λ s. S.view s) self.new) }
        ensures goes { OnOk result (GoesOn (λ s. S.view s) self.old self.new) }
        ensures less { IfOk result (λ took. took ≡ true → left_to_take (λ s. S.view s) self.new < left_to_take (λ s. S.view s) self.old) }
        ensures none { IfOk result (λ took. took ≡ false → FindsNone self.old self.new) }
        ensures tickets { OnOk result (self.new.running.tickets ≡ self.old.running.tickets) }
        ensures same { IsSameNode self.old self.new }
    {
        let Some(message) = self.own.pop_front() else {
            return Ok(false);
        };
        self.handle(&message)?;
        Ok(true)
    }

    /// Steps, until a message of its own waits or nothing is left to carry out.
    fn carry_out(&mut self) -> Result<(), AllocError>
        requires runs { IsAtWork (λ s. S.view s) self.old }
        ensures runs { OnOk result (IsAtWork (λ s. S.view s) self.new) }
        ensures goes { OnOk result (GoesOn (λ s. S.view s) self.old self.new) }
        ensures left { OnOk result (left_to_take (λ s. S.view s) self.new ≤ left_to_take (λ s. S.view s) self.old) }
        ensures rests { OnOk result (RestsUnlessOwn (λ s. S.view s) self.new) }
        ensures tickets { OnOk result (self.new.running.tickets ≡ self.old.running.tickets) }
        ensures same { IsSameNode self.old self.new }
    {
        // Each step leaves fewer to make.
        while self.carries_on()? {}
        Ok(())
    }

    /// One step, where no message of its own waits. Whether one was made.
    fn carries_on(&mut self) -> Result<bool, AllocError>
        requires runs { IsAtWork (λ s. S.view s) self.old }
        ensures runs { OnOk result (IsAtWork (λ s. S.view s) self.new) }
        ensures goes { OnOk result (GoesOn (λ s. S.view s) self.old self.new) }
        ensures left { OnOk result (left_to_take (λ s. S.view s) self.new ≤ left_to_take (λ s. S.view s) self.old) }
        ensures less { IfOk result (λ did. did ≡ true → steps_left (view_at (λ s. S.view s) self.new) < steps_left (view_at (λ s. S.view s) self.old)) }
        ensures rests { IfOk result (λ did. did ≡ false → RestsUnlessOwn (λ s. S.view s) self.new) }
        ensures tickets { OnOk result (self.new.running.tickets ≡ self.old.running.tickets) }
        ensures same { IsSameNode self.old self.new }
    {
        if self.waits() {
            return Ok(false);
        }
        if !self.running.has_work() {
            return Ok(false);
        }
        self.make_step()?;
        Ok(true)
    }

    /// Whether a message of its own waits.
    fn waits(&self) -> bool
        ensures { IsFalse result ↔ (self.now.own.items ≡ []) }
    {
        !self.own.is_empty()
    }

    /// One step, of which there is one.
    fn make_step(&mut self) -> Result<(), AllocError>
        requires runs { IsAtWork (λ s. S.view s) self.old }
        requires none { self.old.own.items ≡ [] }
        requires work { is_some (step_of (counts_at self.old) (running_at (λ s. S.view s) self.old)) ≡ true }
        ensures runs { OnOk result (IsAtWork (λ s. S.view s) self.new) }
        ensures goes { OnOk result (GoesOn (λ s. S.view s) self.old self.new) }
        ensures left { OnOk result (left_to_take (λ s. S.view s) self.new ≤ left_to_take (λ s. S.view s) self.old) }
        ensures less { OnOk result (steps_left (view_at (λ s. S.view s) self.new) < steps_left (view_at (λ s. S.view s) self.old)) }
        ensures tickets { OnOk result (self.new.running.tickets ≡ self.old.running.tickets) }
        ensures same { IsSameNode self.old self.new }
    {
        let out = self.do_step()?;
        self.post(out)
    }

    /// The server makes a step, of which there is one. What it sends.
    fn do_step(&mut self) -> Result<Out, AllocError>
        requires runs { IsRunning self.old.server (counts_at self.old) (view_at (λ s. S.view s) self.old) }
        requires work { is_some (step_of (counts_at self.old) (running_at (λ s. S.view s) self.old)) ≡ true }
        ensures runs { OnOk result (IsRunning self.old.server (counts_at self.old) (view_at (λ s. S.view s) self.new)) }
        ensures works { IfOk result (λ out. WorksBy self.old.server (counts_at self.old) (running_at (λ s. S.view s) self.old) out.messages (running_at (λ s. S.view s) self.new)) }
        ensures less { OnOk result (steps_left (view_at (λ s. S.view s) self.new) < steps_left (view_at (λ s. S.view s) self.old)) }
        ensures others { self.new ≡ record self.old { running = self.new.running } }
    {
        let mut out = Out::new(self.alloc);
        match self.running.step(&mut out) {
            Ok(_done) => {
                self.running.counts_pages();
                self.running.reads_pages();
                Ok(out)
            }
            Err(ServerFault::Stopped) => unreachable!(),
            Err(ServerFault::Memory) => Err(AllocError),
        }
    }
}
