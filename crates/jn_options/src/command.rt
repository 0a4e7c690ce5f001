//! The command line, as `clap` is told of it.
ghost use Rattle.std.specs.Prelude.{◌≡◌, ◌≢◌, [], IfOk, MatchOption, false, map, string_bytes};
ghost use Rattle.clap.specs.Words.{app_of, fault_of, rule_of, subcommand_of, subcommand_rows_of};
ghost use Rattle.clap.specs.declared.builder.command.Command.TheViews.{out-Command};
ghost use Rattle.jn_options.specs.Command.{needed, node_app, placed, program_app, run_app, switch, trial_app, valued};

use clap::error::ErrorKind;
use clap::{Arg, ArgAction, ArgMatches, Command};
use std::alloc::{AllocError, Global};

/// What `clap` finds in the words; `None` where it refuses them.
pub fn matches_in<'a>(
    alloc: Global,
    words: &'a [String],
) -> Result<Option<ArgMatches<'a>>, AllocError>
    ensures { IfOk result (λ found. MatchOption found
        (fault_of program_app (map string_bytes words.now) ≢ [])
        (λ matches. (fault_of program_app (map string_bytes words.now) ≡ [])
        × (subcommand_rows_of matches ≡ subcommand_of program_app (map string_bytes words.now)))) }
{
    let command = program(alloc)?;
    match command.try_get_matches_from(words) {
        Ok(matches) => Ok(Some(matches)),
        Err(error) => match error.kind() {
            ErrorKind::OutOfMemory => Err(AllocError),
            _ => Ok(None),
        },
    }
}

/// The program, whose first word is a command. It offers no help: a report is all that it writes.
fn program<'a>(alloc: Global) -> Result<Command<'a>, AllocError>
    ensures { IfOk result (λ command. app_of command ≡ program_app) }
{
    let run = run_command(alloc)?;
    let trial = trial_command(alloc)?;
    let node = node_command(alloc)?;
    Command::new(alloc, "juniper")
        .disable_help_flag(true)
        .disable_help_subcommand(true)
        .subcommand(run)?
        .subcommand(trial)?
        .subcommand(node)
}

/// The command `run`.
fn run_command<'a>(alloc: Global) -> Result<Command<'a>, AllocError>
    ensures app { IfOk result (λ command. app_of command ≡ run_app) }
    ensures local { IfOk result (λ command. (out-Command command).has_globals ≡ false) }
{
    Command::new(alloc, "run")
        .arg(valued_option(alloc, "servers"))?
        .arg(valued_option(alloc, "pool"))?
        .arg(valued_option(alloc, "heads"))?
        .arg(valued_option(alloc, "data"))?
        .arg(valued_option(alloc, "in"))?
        .arg(valued_option(alloc, "out"))?
        .arg(switch_option(alloc, "trace"))
}

/// The command `trial`.
fn trial_command<'a>(alloc: Global) -> Result<Command<'a>, AllocError>
    ensures app { IfOk result (λ command. app_of command ≡ trial_app) }
    ensures local { IfOk result (λ command. (out-Command command).has_globals ≡ false) }
{
    Command::new(alloc, "trial")
        .arg(placed_value(alloc, "seed"))?
        .arg(placed_value(alloc, "events"))
}

/// The command `node`.
fn node_command<'a>(alloc: Global) -> Result<Command<'a>, AllocError>
    ensures app { IfOk result (λ command. app_of command ≡ node_app) }
    ensures local { IfOk result (λ command. (out-Command command).has_globals ≡ false) }
{
    Command::new(alloc, "node")
        .arg(placed_value(alloc, "server"))?
        .arg(needed_option(alloc, "in"))?
        .arg(needed_option(alloc, "out"))
}

/// An option with one value.
fn valued_option<'a>(alloc: Global, name: &'a str) -> Arg<'a>
    ensures rule { rule_of result ≡ valued name.entry.now }
    ensures local { result.global ≡ false }
{
    Arg::new(alloc, name).long(name)
}

/// An option with one value, which has to be there.
fn needed_option<'a>(alloc: Global, name: &'a str) -> Arg<'a>
    ensures rule { rule_of result ≡ needed name.entry.now }
    ensures local { result.global ≡ false }
{
    Arg::new(alloc, name).long(name).required(true)
}

/// An option without a value.
fn switch_option<'a>(alloc: Global, name: &'a str) -> Arg<'a>
    ensures rule { rule_of result ≡ switch name.entry.now }
    ensures local { result.global ≡ false }
{
    Arg::new(alloc, name).long(name).action(ArgAction::SetTrue)
}

/// A value that is known by its place, and has to be there.
fn placed_value<'a>(alloc: Global, name: &'a str) -> Arg<'a>
    ensures rule { rule_of result ≡ placed name.entry.now }
    ensures local { result.global ≡ false }
{
    Arg::new(alloc, name).required(true)
}
