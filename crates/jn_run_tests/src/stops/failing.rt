//! Calls of the program whose reads, writes, loads and saves fail, one after another, until one ends well.

use crate::{Call, Failing, Images, ending_of, first_images};
use jn_run::Status;
use std::alloc::{AllocError, Global};
use std::test::Fail;

/// What of the outside fails.
#[derive(Clone, Copy)]
pub(crate) enum Part {
    Reads,
    Writes,
    Loads,
    Saves,
}

/// The coordinator stops in the write of its flag, and its restart finds the flag.
const SCHEDULE: &[u8] =
    b"c1 begin 1\nsettle\nc1 open 0\nsettle\nc1 create 0 7\nsettle\narm 1 3 stop-before\nc1 end\nsettle\nrestart 1\nsettle\n";

/// A run of the images that one of no events left.
const FIRST: &[&str] = &[
    "juniper",
    "run",
    "--servers",
    "2",
    "--pool",
    "4",
    "--heads",
    "2",
    "--data",
    "4",
    "--out",
    "a",
];

const WORDS: &[&str] = &[
    "juniper",
    "run",
    "--servers",
    "2",
    "--in",
    "a",
    "--out",
    "b",
];

impl Part {
    /// Its call of this number fails. The saves behind the two that laid the images down are counted.
    fn failing(self, number: u64) -> Failing {
        match self {
            Part::Reads => Failing::Read(number),
            Part::Writes => Failing::Write(number),
            Part::Loads => Failing::Load(number),
            Part::Saves => Failing::Save(number.saturating_add(2)),
        }
    }

    fn status(self) -> Status {
        match self {
            Part::Reads => Status::Read,
            Part::Writes => Status::Write,
            Part::Loads | Part::Saves => Status::Keep,
        }
    }

    /// Whether the sink may take so much of the whole: nothing before the schedule is read and the images are loaded, and all before an image
    /// is saved.
    fn may_take(self, taken: &[u8], whole: &[u8]) -> bool {
        match self {
            Part::Reads | Part::Loads => taken.is_empty(),
            Part::Writes => taken.len() < whole.len() && whole.starts_with(taken),
            Part::Saves => taken == whole,
        }
    }
}

/// Runs whose outside fails, and what one reports that ends well.
#[derive(Drop)]
pub(crate) struct Honest {
    images: Images,
    report: Vec<u8>,
}

fn called(
    alloc: Global,
    failing: Failing,
    images: &Images,
) -> Result<(Status, Vec<u8>), AllocError> {
    let asked = Call {
        words: WORDS,
        schedule: SCHEDULE,
        failing,
    };
    ending_of(alloc, &asked, Some(images))
}

impl Honest {
    /// The images, and the report of the run.
    pub(crate) fn new(alloc: Global) -> Result<Honest, Fail> {
        let first = Call {
            words: FIRST,
            schedule: b"",
            failing: Failing::Nothing,
        };
        let images = first_images(alloc, &first)?;
        let (status, report) = called(alloc, Failing::Nothing, &images)?;
        if status != Status::Done {
            return Err("it isn't done".into());
        }
        Ok(Honest { images, report })
    }

    /// How many calls fail in turn until a run ends well, and `None` where one of them ends otherwise than it should.
    pub(crate) fn failures(&self, alloc: Global, part: Part) -> Result<Option<u64>, AllocError> {
        for number in 1..1000_u64 {
            let (status, taken) = called(alloc, part.failing(number), &self.images)?;
            if status == Status::Done {
                return Ok(if taken == self.report {
                    Some(number.wrapping_sub(1))
                } else {
                    None
                });
            }
            if status != part.status() || !part.may_take(&taken, &self.report) {
                return Ok(None);
            }
        }
        Ok(None)
    }
}
