//! The top call: reads the words and a schedule, runs it, writes the report and keeps the disks.
#![tactic(auto)]

ghost use Rattle.std.specs.Prelude.{◌≡◌, ◌≤◌, ℕ, Option, List, length, IfOk};
ghost use Rattle.std.specs.List.{AllByRecursion};
ghost use Rattle.jn_host.specs.Outside.{Contents};
ghost use Rattle.jn_image_files.specs.Texts.{refusal_text};
ghost use Rattle.jn_options.specs.Words.{AreWithinLimits, IsTrialInRange, command_of};
ghost use Rattle.jn_schedule.specs.Grammar.{IsSchedule};
ghost use Rattle.jn_schedule.specs.Ranges.{EventInRange};
ghost use Rattle.jn_events.specs.Stores.{AreStores};
ghost use Rattle.jn_run.specs.Opening.{AreOpened};
ghost use Rattle.jn_run.specs.Outcome.{OutcomeOf, RunEnds, TrialEnds, WordsEnd, refused_line};
ghost use Rattle.jn_writing.specs.Outside.{outside, sink_state, keeper_state};
ghost use Rattle.jn_run.specs.Parts.{EndsOn};
ghost use Rattle.jn_status.specs.Refusing.{Refuses};
ghost use Rattle.jn_status.specs.declared.status.Status.TheVariants as statuses;

use jn_host::{Failed, Keeper, Sink, Source};
use std::alloc::Global;

mod keeping;
mod laws;
mod opening;
mod reading;
mod running;
mod trial;

use jn_intent::PageCounts;
use jn_memdisk::MemDisk;
use jn_node_run::serve;
use jn_options::{Command, Options, Trial, read_command};
use jn_schedule::{Event, ParseFault, parse_up_to};
use jn_stable::Pairs;
pub use jn_status::Status;
use jn_status::refuse_image;
use jn_store::{Powered, StableStore};
use jn_text::push_number;
use jn_writing::{Writer, write_all};
use keeping::keep;
pub use laws::{
    a_run_that_can_be_done_is_done, a_run_without_images_leaves_the_keeper_alone, a_trial_is_done,
    counts_tell_the_status,
};
use opening::{OpenFault, counts_of, open_stores};
use reading::{ReadFault, read_all};
use running::{Disks, RunFault, run_from};
use std::alloc::AllocError;
use trial::sum_up;

/// The most events of a schedule.
const MOST_EVENTS: usize = 100_000;

/// Does all that the program does: reads the words and the schedule, runs it, writes the report and keeps the disks.
///
/// The words are the program's name, and `run` with options or `trial` with a seed and how many events there are. A run begins with
/// new disks, or with those of the images that the keeper has under a name. The report says what each event of the schedule led to
/// and, at the end, prints the files from the servers' pages. Each event's lines are written as the event ends. Once the whole
/// report was taken, the disks are saved as images where a name for them is given.
///
/// Other words are refused in one line of text, and then nothing is run. Bytes that aren't a schedule are refused so, by the line
/// and the number of the first fault. Images are refused so, by the first that is missing, is none or is unsound. A limit has a
/// status of its own: that of a schedule of more than 4,194,304 bytes or 100,000 events, and of a run that would send a message
/// too many or has no epoch left. So have a source, a sink and a keeper that fail, and want of memory.
///
/// A trial makes its schedule of the seed, runs it on two servers with new disks, and gives its whole report in one line, which is
/// written once the run is done. It reads no source and keeps no disks, and writes nothing where a limit is reached or memory runs
/// out.
///
/// With `node` and a server's number, one server comes up on its image and serves the frames of the source: what it sends to others by
/// each frame is written before the next one is served. At the end its disk is saved under another name, unless others wait for it.
/// A frame that is none, and a server that others wait for, have a status of their own.
pub fn run<S: Source, K: Sink, I: Keeper>(
    alloc: Global,
    words: &[String],
    source: &mut S,
    sink: &mut K,
    images: &mut I,
) -> Status
    ensures outcome { OutcomeOf (command_of words.now)
        (outside S.left S.faults K.taken K.faults I.kept I.faults source.old sink.old images.old)
        (outside S.left S.faults K.taken K.faults I.kept I.faults source.new sink.new images.new) result }
{
    let asked = match read_command(alloc, words) {
        Ok(asked) => asked,
        Err(_refused) => return Status::Memory,
    };
    match asked {
        Some(Command::Run(options)) => run_source(alloc, &options, source, sink, images),
        Some(Command::Trial(trial)) => run_trial(alloc, &trial, sink),
        Some(Command::Node(node)) => serve(alloc, &node, source, sink, images),
        None => refuse_words(sink),
    }
}

/// Runs a trial, and writes the line that sums it up once it is done.
fn run_trial<K: Sink>(alloc: Global, trial: &Trial, sink: &mut K) -> Status
    requires range { IsTrialInRange trial.now }
    ensures outcome { (kept : Option Contents) → TrialEnds trial.now kept (sink_state K.taken K.faults sink.old) (sink_state K.taken K.faults sink.new) result }
{
    match sum_up(alloc, trial) {
        Ok(line) => match write_all(sink, &line) {
            Ok(()) => Status::Done,
            Err(Failed) => Status::Write,
        },
        Err(RunFault::Limit) => Status::Limit,
        // A summary never fails.
        Err(RunFault::Write) => unreachable!(),
        Err(RunFault::Memory) => Status::Memory,
    }
}

/// Says that the words are no command.
fn refuse_words<K: Sink>(sink: &mut K) -> Status
    ensures refused { WordsEnd (sink_state K.taken K.faults sink.old) (sink_state K.taken K.faults sink.new) result }
{
    match write_all(sink, b"refused: words\n") {
        Ok(()) => Status::Words,
        Err(Failed) => Status::Write,
    }
}

/// Reads a schedule from the source and runs it.
fn run_source<S: Source, K: Sink, I: Keeper>(
    alloc: Global,
    options: &Options,
    source: &mut S,
    sink: &mut K,
    keeper: &mut I,
) -> Status
    requires limits { AreWithinLimits options.now }
    ensures outcome { RunEnds options.now
        (outside S.left S.faults K.taken K.faults I.kept I.faults source.old sink.old keeper.old)
        (outside S.left S.faults K.taken K.faults I.kept I.faults source.new sink.new keeper.new) result }
{
    let text = match read_all(alloc, source) {
        Ok(text) => text,
        Err(ReadFault::Failed) => return Status::Read,
        Err(ReadFault::TooLong) => return Status::Limit,
        Err(ReadFault::Memory) => return Status::Memory,
    };
    run_text(alloc, options, &text, sink, keeper)
}

/// Reads a schedule and runs it.
fn run_text<K: Sink, I: Keeper>(
    alloc: Global,
    options: &Options,
    text: &[u8],
    sink: &mut K,
    keeper: &mut I,
) -> Status
    requires limits { AreWithinLimits options.now }
    ensures ran { EndsOn options.now text.now
        (sink_state K.taken K.faults sink.old) (keeper_state I.kept I.faults keeper.old) result
        (sink_state K.taken K.faults sink.new) (keeper_state I.kept I.faults keeper.new) }
{
    match parse_up_to(alloc, text, MOST_EVENTS) {
        Ok(Some(events)) => run_schedule(alloc, options, &events, sink, keeper),
        Ok(None) => Status::Limit,
        Err(ParseFault::Syntax { line, number }) => refuse_line(alloc, line, number, sink),
        Err(ParseFault::Memory) => Status::Memory,
    }
}

/// Runs a schedule, once there are disks to begin with.
fn run_schedule<K: Sink, I: Keeper>(
    alloc: Global,
    options: &Options,
    events: &[Event],
    sink: &mut K,
    keeper: &mut I,
) -> Status
    requires limits { AreWithinLimits options.now }
    requires few { length events.now ≤ 100000 }
    requires range { AllByRecursion EventInRange events.now }
    ensures ran { (text : List ℕ) → IsSchedule text events.now → EndsOn options.now text
        (sink_state K.taken K.faults sink.old) (keeper_state I.kept I.faults keeper.old) result
        (sink_state K.taken K.faults sink.new) (keeper_state I.kept I.faults keeper.new) }
{
    match open_stores(alloc, options, keeper) {
        Ok(stores) => run_stores(alloc, options, stores, events, sink, keeper),
        Err(OpenFault::Refused(refusal)) => refuse_image(alloc, refusal, sink),
        Err(OpenFault::Keep) => Status::Keep,
        Err(OpenFault::Memory) => Status::Memory,
    }
}

/// Runs a schedule in a world of servers with these disks, and keeps the disks that are left.
fn run_stores<K: Sink, I: Keeper>(
    alloc: Global,
    options: &Options,
    stores: Vec<(Disks, PageCounts)>,
    events: &[Event],
    sink: &mut K,
    keeper: &mut I,
) -> Status
    requires limits { AreWithinLimits options.now }
    requires stores { AreStores (⟦<Pairs<MemDisk> as StableStore>⟧.view) 0 stores.items }
    requires servers { length stores.items ≡ options.now.servers }
    requires opened { AreOpened (⟦<Pairs<MemDisk> as StableStore>⟧.view) (⟦<Pairs<MemDisk> as Powered>⟧.device) options.now.opening (I.kept keeper.old) stores.items }
    requires few { length events.now ≤ 100000 }
    requires range { AllByRecursion EventInRange events.now }
    ensures ran { (text : List ℕ) → IsSchedule text events.now → EndsOn options.now text
        (sink_state K.taken K.faults sink.old) (keeper_state I.kept I.faults keeper.old) result
        (sink_state K.taken K.faults sink.new) (keeper_state I.kept I.faults keeper.new) }
{
    let Ok(counts) = counts_of(alloc, &stores) else {
        return Status::Memory;
    };
    let mut writer = Writer::new(alloc);
    match run_from(alloc, options.trace, stores, events, &mut writer, sink) {
        Ok(left) => keep(alloc, options, left, &counts, keeper),
        Err(RunFault::Write) => Status::Write,
        Err(RunFault::Limit) => Status::Limit,
        Err(RunFault::Memory) => Status::Memory,
    }
}

/// Says which line is refused, and by which fault.
fn refuse_line<K: Sink>(alloc: Global, line: usize, number: u8, sink: &mut K) -> Status
    ensures refused { Refuses (refused_line line number) statuses.Schedule (sink_state K.taken K.faults sink.old) result (sink_state K.taken K.faults sink.new) }
{
    match line_text(alloc, line, number) {
        Ok(text) => match write_all(sink, &text) {
            Ok(()) => Status::Schedule,
            Err(Failed) => Status::Write,
        },
        Err(_refused) => Status::Memory,
    }
}

fn line_text(alloc: Global, line: usize, number: u8) -> Result<Vec<u8>, AllocError>
    ensures { IfOk result (λ v. v.items ≡ refused_line line number) }
{
    let mut text = Vec::from_slice(alloc, b"refused: schedule line ")?;
    push_number(&mut text, line as u64)?;
    text.extend_from_slice(b" number ")?;
    push_number(&mut text, u64::from(number))?;
    text.push(b'\n')?;
    Ok(text)
}
