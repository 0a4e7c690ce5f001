//! Reads the command from what `clap` finds.
ghost use Rattle.std.specs.Prelude.{◌≡◌, ◌≤◌, IfOk, IfSome, option_map};
ghost use Rattle.clap.specs.Words.{found_of, rows_of};
ghost use Rattle.jn_options.specs.Words.{IsCommandInRange, command_given, command_of, count_given, geometry_given, has_geometry, has_value, images_given, is_given, kept_as, kept_if_given, name_given, node_from, node_given, number_given, number_in, opening_given, options_given, run_from, trial_given};
ghost use Rattle.jn_options.specs.declared.asked.Opening.TheVariants.{New};

use crate::asked::{Command, Geometry, Node, Opening, Options, Trial};
use crate::command::matches_in;
use crate::name::Name;
use clap::ArgMatches;
use jn_base::ServerNo;
use jn_text::read_number;
use std::alloc::{AllocError, Global};

const MOST_SERVERS: u16 = 8;

const MOST_RECORDS: u16 = 1000;

const MOST_HEADS: u16 = 1000;

const MOST_DATA_PAGES: u16 = 8000;

const MOST_EVENTS: u64 = 100_000;

const LAST_SERVER: u64 = 7;

/// The command that the words ask for, where the first word is the program's name; `None` exactly
/// where they ask for none: they aren't the command `run`, `trial` or `node` with what it takes, each option
/// given at most once, with numbers and names that it takes.
pub fn read_command(alloc: Global, words: &[String]) -> Result<Option<Command>, AllocError>
    ensures exact { IfOk result (λ command. command ≡ command_of words.now) }
    ensures limits { IfOk result (λ command. IfSome command IsCommandInRange) }
{
    match matches_in(alloc, words)? {
        Some(matches) => match matches.subcommand() {
            Some((name, given)) => command_among(alloc, name, given),
            None => Ok(None),
        },
        None => Ok(None),
    }
}

/// The command of this name, with what it was given.
fn command_among(
    alloc: Global,
    name: &str,
    given: &ArgMatches,
) -> Result<Option<Command>, AllocError>
    ensures { IfOk result (λ command. command ≡ command_given (name.now, rows_of (found_of given.now))) }
{
    if name == "run" {
        Ok(options_among(alloc, given)?.map(Command::Run))
    } else if name == "trial" {
        Ok(trial_among(given).map(Command::Trial))
    } else if name == "node" {
        Ok(node_among(alloc, given)?.map(Command::Node))
    } else {
        Ok(None)
    }
}

/// The options among what `run` was given.
fn options_among(alloc: Global, given: &ArgMatches) -> Result<Option<Options>, AllocError>
    ensures { IfOk result (λ options. options ≡ options_given (rows_of (found_of given.now))) }
{
    let opening = opening_among(alloc, given)?;
    match run_among(given, opening) {
        Some(options) => kept_among(alloc, given, options),
        None => Ok(None),
    }
}

/// What the disks hold at first.
fn opening_among(alloc: Global, given: &ArgMatches) -> Result<Option<Opening>, AllocError>
    ensures { IfOk result (λ opening. opening ≡ opening_given (rows_of (found_of given.now))) }
{
    match given.get_str("in") {
        Some(name) => images_among(alloc, given, name),
        None => Ok(new_among(given)),
    }
}

/// New disks, with the counts of pages that are given.
fn new_among(given: &ArgMatches) -> Option<Opening>
    ensures { result ≡ option_map New (geometry_given (rows_of (found_of given.now))) }
{
    geometry_among(given).map(Opening::New)
}

/// The images of this name, beside which no count of pages is given.
fn images_among(
    alloc: Global,
    given: &ArgMatches,
    name: &str,
) -> Result<Option<Opening>, AllocError>
    ensures { IfOk result (λ opening. opening ≡ images_given (rows_of (found_of given.now)) name.now) }
{
    if geometry_is_among(given) {
        return Ok(None);
    }
    Ok(Name::new(alloc, name)?.map(Opening::Images))
}

/// Whether a count of pages is given.
fn geometry_is_among(given: &ArgMatches) -> bool
    ensures { result ≡ has_geometry (rows_of (found_of given.now)) }
{
    value_is_among(given, "pool") || value_is_among(given, "heads") || value_is_among(given, "data")
}

/// The counts of a new disk's pages.
fn geometry_among(given: &ArgMatches) -> Option<Geometry>
    ensures { result ≡ geometry_given (rows_of (found_of given.now)) }
{
    let pool = count_among(given, "pool", MOST_RECORDS, 32)?;
    let heads = count_among(given, "heads", MOST_HEADS, 16)?;
    let leaves = count_among(given, "data", MOST_DATA_PAGES, 128)?;
    Some(Geometry {
        pool,
        heads,
        leaves,
    })
}

/// The run that begins so, of which no images are kept.
fn run_among(given: &ArgMatches, opening: Option<Opening>) -> Option<Options>
    ensures { result ≡ run_from (rows_of (found_of given.now)) opening }
{
    let servers = count_among(given, "servers", MOST_SERVERS, 1)?;
    let opening = opening?;
    Some(Options {
        servers: servers as u8,
        opening,
        closing: None,
        trace: is_among(given, "trace"),
    })
}

/// The run, of which images are kept if a name is given for them.
fn kept_among(
    alloc: Global,
    given: &ArgMatches,
    options: Options,
) -> Result<Option<Options>, AllocError>
    ensures { IfOk result (λ kept. kept ≡ kept_if_given (rows_of (found_of given.now)) options) }
{
    match given.get_str("out") {
        Some(name) => kept_under(alloc, options, name),
        None => Ok(Some(options)),
    }
}

/// The run of which images of this name are kept.
fn kept_under(alloc: Global, options: Options, name: &str) -> Result<Option<Options>, AllocError>
    ensures { IfOk result (λ kept. kept ≡ kept_as options name.now) }
{
    if options.opening.is_of(name) {
        return Ok(None);
    }
    match Name::new(alloc, name)? {
        Some(name) => Ok(Some(Options {
            closing: Some(name),
            ..options
        })),
        None => Ok(None),
    }
}

/// The numbers among what `trial` was given.
fn trial_among(given: &ArgMatches) -> Option<Trial>
    ensures { result ≡ trial_given (rows_of (found_of given.now)) }
{
    let seed = number_among(given, "seed", 0, u64::MAX)?;
    let events = number_among(given, "events", 1, MOST_EVENTS)?;
    Some(Trial {
        seed,
        events: events as u32,
    })
}

/// The server and the names among what `node` was given.
fn node_among(alloc: Global, given: &ArgMatches) -> Result<Option<Node>, AllocError>
    ensures { IfOk result (λ node. node ≡ node_given (rows_of (found_of given.now))) }
{
    let opening = name_among(alloc, given, "in")?;
    let closing = name_among(alloc, given, "out")?;
    let server = number_among(given, "server", 0, LAST_SERVER);
    Ok(node_of(server, opening, closing))
}

/// The node of this server and these names, which differ.
fn node_of(server: Option<u64>, opening: Option<Name>, closing: Option<Name>) -> Option<Node>
    requires { IfSome server (λ number. number ≤ 7) }
    ensures { result ≡ node_from server opening closing }
{
    let server = server?;
    let opening = opening?;
    let closing = closing?;
    if opening.as_str() == closing.as_str() {
        return None;
    }
    Some(Node {
        server: ServerNo(server as u8),
        opening,
        closing,
    })
}

/// The name that is given to an option.
fn name_among(alloc: Global, given: &ArgMatches, name: &str) -> Result<Option<Name>, AllocError>
    ensures { IfOk result (λ found. found ≡ name_given name.now (rows_of (found_of given.now))) }
{
    match given.get_str(name) {
        Some(text) => Name::new(alloc, text),
        None => Ok(None),
    }
}

/// Whether an option without a value is given.
fn is_among(given: &ArgMatches, name: &str) -> bool
    ensures { result ≡ is_given name.now (rows_of (found_of given.now)) }
{
    match given.get_str(name) {
        Some(text) => text == "true",
        None => false,
    }
}

/// Whether an option with a value is given.
fn value_is_among(given: &ArgMatches, name: &str) -> bool
    ensures { result ≡ has_value name.now (rows_of (found_of given.now)) }
{
    given.get_str(name).is_some()
}

/// The number that is given to an option, from 1 to `most`, or `without` where none is.
fn count_among(given: &ArgMatches, name: &str, most: u16, without: u16) -> Option<u16>
    requires { without ≤ most }
    ensures value { result ≡ count_given name.now most without (rows_of (found_of given.now)) }
    ensures limit { IfSome result (λ count. count ≤ most) }
{
    match given.get_str(name) {
        Some(text) => read_count(text, most),
        None => Some(without),
    }
}

/// The number from `least` to `most` that is given.
fn number_among(given: &ArgMatches, name: &str, least: u64, most: u64) -> Option<u64>
    ensures value { result ≡ number_given name.now least most (rows_of (found_of given.now)) }
    ensures limit { IfSome result (λ number. number ≤ most) }
{
    match given.get_str(name) {
        Some(text) => read_whole(text, least, most),
        None => None,
    }
}

/// The number from 1 to `most` that the text spells.
fn read_count(text: &str, most: u16) -> Option<u16>
    ensures value { result ≡ number_in 1 most text.now }
    ensures limit { IfSome result (λ count. count ≤ most) }
{
    let count = read_whole(text, 1, u64::from(most))?;
    Some(count as u16)
}

/// The number from `least` to `most` that the text spells.
fn read_whole(text: &str, least: u64, most: u64) -> Option<u64>
    ensures value { result ≡ number_in least most text.now }
    ensures limit { IfSome result (λ number. number ≤ most) }
{
    let (number, end) = read_number(text.as_bytes(), 0, most)?;
    if end == text.len() && number >= least {
        Some(number)
    } else {
        None
    }
}
