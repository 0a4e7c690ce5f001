//! A call on a directory.
ghost use Rattle.std.specs.Prelude.{◌≡◌, true, option_map, IfOk, OnErr};
ghost use Rattle.jn_base.specs.declared.call.NameCommand.TheVariants as commands;
ghost use Rattle.jn_base.specs.Names.{is_name};
ghost use Rattle.jn_names.specs.Calls.{Named};
ghost use Rattle.jn_names.specs.Turns.{begun, first_turn, turn_of, given};

use crate::next::NameNext;
use crate::turn::{Stage, first_turn, follow, turn_at};
use jn_base::{Answer, ByteString, FileNo, NameCommand};
use std::alloc::{AllocError, Global};
use std::marker::Model;

/// A call on a directory, and which answer it waits for.
#[derive(Drop)]
pub struct NameCall {
    command: NameCommand,
    waits: Option<Stage>,
}

impl Model for NameCall {
    ghost use Rattle.jn_names.specs.Calls.{Named};
    ghost use Rattle.jn_names.specs.Turns.{Calling, WaitsFits};

    ghost Value = { Calling };

    ghost view = { λ c. record { command = c.command; waits = c.waits } };

    ghost invariant = { λ c. Named c.command × WaitsFits c.waits };
}

impl NameCall {
    /// Gives a name its file, whatever it had.
    pub fn bind(directory: FileNo, name: ByteString, file: FileNo) -> NameCall
        requires { is_name name ≡ true }
        ensures { result ≡ begun (commands.Bind directory name file) }
    {
        NameCall::of(NameCommand::Bind(directory, name, file))
    }

    /// Takes a name away.
    pub fn unbind(directory: FileNo, name: ByteString) -> NameCall
        requires { is_name name ≡ true }
        ensures { result ≡ begun (commands.Unbind directory name) }
    {
        NameCall::of(NameCommand::Unbind(directory, name))
    }

    /// Asks for the file of a name.
    pub fn find(directory: FileNo, name: ByteString) -> NameCall
        requires { is_name name ≡ true }
        ensures { result ≡ begun (commands.Find directory name) }
    {
        NameCall::of(NameCommand::Find(directory, name))
    }

    /// Asks for all names with their files.
    pub fn names(directory: FileNo) -> NameCall
        ensures { result ≡ begun (commands.Names directory) }
    {
        NameCall::of(NameCommand::Names(directory))
    }

    fn of(command: NameCommand) -> NameCall
        requires { Named command }
        ensures { result ≡ begun command }
    {
        NameCall {
            command,
            waits: None,
        }
    }

    /// What comes next: the first operation where there is no answer, or where none is waited for, and else what the
    /// answer to the last operation leads to. Without memory the call is as before, so the same answer may be given again.
    pub fn next(&mut self, alloc: Global, answer: Option<&Answer>) -> Result<NameNext, AllocError>
        ensures ok { IfOk result (λ next. (next, self.new.waits) ≡ given (turn_of self.old.command self.old.waits (option_map (λ a. a.now) answer.entry))) }
        ensures command { self.new.command ≡ self.old.command }
        ensures err { OnErr result (self.new ≡ self.old) }
    {
        let Some(answer) = answer else {
            return Ok(self.begin(alloc));
        };
        let Some(stage) = &mut self.waits else {
            return Ok(self.begin(alloc));
        };
        let turn = turn_at(alloc, &self.command, stage, answer)?;
        Ok(follow(&mut self.waits, turn))
    }

    /// The first turn.
    fn begin(&mut self, alloc: Global) -> NameNext
        ensures given { (result, self.new.waits) ≡ given (first_turn self.old.command) }
        ensures command { self.new.command ≡ self.old.command }
    {
        let turn = first_turn(alloc, &self.command);
        follow(&mut self.waits, turn)
    }
}
