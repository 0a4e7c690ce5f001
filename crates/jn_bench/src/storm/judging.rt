//! A schedule's run, held against the definitions of a report.
ghost use Rattle.std.specs.Prelude.{◌≡◌};
ghost use Rattle.jn_bench.specs.declared.storm.judging.Wrong.TheVariants as wrongs;

use crate::storm::beginning::{Start, set_back};
use crate::storm::counting::{Counter, Counts};
use crate::storm::running::lines_of;
use jn_causing::caused;
use jn_drawing::Drawing;
use jn_following::follows;
use jn_gen::text_of;
use jn_image_files::Refusal;
use jn_intent::PageCounts;
use jn_replay::Files;
use jn_report::Line;
use jn_run::Status;
use jn_run_tests::{Call, Definition, Failing, Images, Servers, ending_of, first_images, parsed};
use jn_schedule::{Event, ParseFault};
use jn_serial::{agrees, history, replay, told};
use jn_showing::shown;
use jn_world::Ended;
use std::alloc::{AllocError, AllocFailed, Global};

/// What is wrong with a run.
#[derive(Clone, Copy, Debug, PartialEq, Eq, Drop)]
pub(crate) enum Wrong {
    /// The text of the events isn't their schedule.
    Schedule,
    /// An image is refused.
    Refused(Refusal),
    /// The run ended early.
    Ended(Ended),
    Broken(Definition),
    /// The top call ended otherwise than well.
    Status(Status),
    /// It wrote another text.
    Text,
    /// Memory ran out.
    Memory,
}

impl From<AllocError> for Wrong {
    ghost from_gives = { λ _ e. e ≡ wrongs.Memory };

    fn from(_refused: AllocError) -> Wrong {
        Wrong::Memory
    }
}

impl<T: Drop> From<AllocFailed<T>> for Wrong {
    ghost from_gives = { λ _ e. e ≡ wrongs.Memory };

    fn from(_refused: AllocFailed<T>) -> Wrong {
        Wrong::Memory
    }
}

impl From<Ended> for Wrong {
    ghost from_gives = { λ ended e. e ≡ wrongs.Ended ended };

    fn from(ended: Ended) -> Wrong {
        Wrong::Ended(ended)
    }
}

/// A schedule that failed, and the one that made the images that it began from.
#[derive(Drop)]
pub(crate) struct Failure {
    pub(crate) number: u32,
    pub(crate) servers: Servers,
    pub(crate) wrong: Wrong,
    pub(crate) first: Option<Vec<u8>>,
    pub(crate) schedule: Vec<u8>,
}

/// A schedule's events and the lines of its report.
#[derive(Drop)]
struct Ran {
    events: Vec<Event>,
    lines: Vec<Line>,
}

/// The words of a call of the program.
fn line_of(
    alloc: Global,
    servers: Servers,
    is_kept: bool,
    begins: bool,
) -> Result<String, AllocError> {
    let PageCounts {
        pool,
        heads,
        leaves,
    } = servers.pages;
    let count = servers.count;
    if begins {
        return format!(in alloc; "juniper run --servers {count} --in a");
    }
    let kept = if is_kept { " --out a" } else { "" };
    format!(in alloc;
        "juniper run --servers {count} --pool {pool} --heads {heads} --data {leaves}{kept}"
    )
}

/// The words of a line.
fn words_of<'a>(alloc: Global, line: &'a str) -> Result<Vec<&'a str>, AllocError> {
    let mut words = Vec::new(alloc);
    for word in line.split_whitespace() {
        words.push(word)?;
    }
    Ok(words)
}

/// The images of version 1 that the top call leaves behind a schedule.
fn images_behind(alloc: Global, servers: Servers, schedule: &[u8]) -> Result<Images, AllocError> {
    let line = line_of(alloc, servers, true, false)?;
    let words = words_of(alloc, line.as_str())?;
    let asked = Call {
        words: &words,
        schedule,
        failing: Failing::Nothing,
    };
    let mut images = first_images(alloc, &asked)?;
    set_back(&mut images.first)?;
    set_back(&mut images.second)?;
    Ok(images)
}

/// The top call writes these lines.
fn check_call(
    alloc: Global,
    servers: Servers,
    begins: &Start,
    schedule: &[u8],
    lines: &[Line],
) -> Result<(), Wrong> {
    let line = line_of(alloc, servers, false, begins.images.is_some())?;
    let words = words_of(alloc, line.as_str())?;
    let asked = Call {
        words: &words,
        schedule,
        failing: Failing::Nothing,
    };
    let (status, taken) = ending_of(alloc, &asked, begins.images.as_ref())?;
    if status != Status::Done {
        return Err(Wrong::Status(status));
    }
    if taken != jn_run_tests::text_of(alloc, lines)? {
        return Err(Wrong::Text);
    }
    Ok(())
}

/// The first definition that lines don't meet, where these files are there at the start.
fn first_broken(
    alloc: Global,
    files: &Files,
    events: &[Event],
    lines: &[Line],
) -> Result<Option<Definition>, AllocError> {
    if !agrees(alloc, files, events, lines)? {
        return Ok(Some(Definition::Agrees));
    }
    if !told(alloc, lines)? {
        return Ok(Some(Definition::Told));
    }
    if !shown(alloc, files, events, lines)? {
        return Ok(Some(Definition::Shown));
    }
    if !caused(events, lines) {
        return Ok(Some(Definition::Caused));
    }
    if !follows(alloc, events, lines)? {
        return Ok(Some(Definition::Follows));
    }
    Ok(None)
}

/// Runs a schedule, whose report must meet each definition.
fn judged(
    alloc: Global,
    servers: Servers,
    begins: &Start,
    schedule: &[u8],
    counter: &mut Counter,
) -> Result<Ran, Wrong> {
    let events = match parsed(alloc, schedule) {
        Ok(events) => events,
        Err(ParseFault::Syntax { .. }) => return Err(Wrong::Schedule),
        Err(ParseFault::Memory) => return Err(Wrong::Memory),
    };
    let disks = begins.disks(alloc, servers)?;
    let lines = lines_of(alloc, disks, &events, &mut counter.counts.maps)?;
    counter.add_run(&events, &lines);
    match first_broken(alloc, &begins.files, &events, &lines)? {
        Some(broken) => Err(Wrong::Broken(broken)),
        None => Ok(Ran { events, lines }),
    }
}

/// What the schedule leaves, from new disks, as images of version 1.
fn left_behind(
    alloc: Global,
    servers: Servers,
    schedule: &[u8],
    counter: &mut Counter,
) -> Result<Start, Wrong> {
    let none = Start::new(alloc);
    let Ran { events, lines } = judged(alloc, servers, &none, schedule, counter)?;
    let commits = history(alloc, &lines)?;
    let files = replay(alloc, &none.files, &events, &lines, &commits)?;
    counter.add_beginning(!files.stored.is_empty());
    Ok(Start {
        files,
        images: Some(images_behind(alloc, servers, schedule)?),
    })
}

/// Runs a schedule, behind a first one where there is one. Each tenth is run by the top call too.
fn judge_both(
    alloc: Global,
    servers: Servers,
    number: u32,
    first: Option<&[u8]>,
    schedule: &[u8],
    counter: &mut Counter,
) -> Result<(), Wrong> {
    let begins = match first {
        Some(first) => left_behind(alloc, servers, first, counter)?,
        None => Start::new(alloc),
    };
    let ran = judged(alloc, servers, &begins, schedule, counter)?;
    if number % 10 == 0 {
        check_call(alloc, servers, &begins, schedule, &ran.lines)?;
    }
    Ok(())
}

/// Judges the schedule of this number, and counts what it exercised.
pub(crate) fn judge(
    alloc: Global,
    seed: u64,
    number: u32,
    counts: &mut Counts,
) -> Result<Option<Failure>, AllocError> {
    let mut drawing = Drawing::new(alloc, seed, number)?;
    let servers = drawing.servers;
    let mut first = None;
    if drawing.begins {
        first = Some(text_of(alloc, &drawing.events()?)?);
        drawing.go_on();
    }
    let schedule = text_of(alloc, &drawing.events()?)?;
    let mut counter = Counter::new(*counts);
    let wrong = judge_both(
        alloc,
        servers,
        number,
        first.as_deref(),
        &schedule,
        &mut counter,
    );
    *counts = counter.counts;
    Ok(match wrong {
        Ok(()) => None,
        Err(wrong) => Some(Failure {
            number,
            servers,
            wrong,
            first,
            schedule,
        }),
    })
}
