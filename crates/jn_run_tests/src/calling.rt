//! Calls of the top call, with source, sink and keeper in memory.

use jn_host::{Keeper, MemoryKeeper, MemorySink, MemorySource};
use jn_run::{Status, run};
use std::alloc::{AllocError, Global};

/// How many bytes a source gives at a time, and a sink takes.
const PIECE: usize = 64;

/// The images of two servers, server 0 first.
#[derive(Drop)]
pub struct Images {
    pub first: Vec<u8>,
    pub second: Vec<u8>,
}

/// Which call of source, sink and keeper fails, counted from 1.
#[derive(Clone, Copy)]
pub enum Failing {
    Nothing,
    Read(u64),
    Write(u64),
    Load(u64),
    Save(u64),
}

/// A call of the program.
#[derive(Clone, Copy)]
pub struct Call<'a> {
    pub words: &'a [&'a str],
    pub schedule: &'a [u8],
    pub failing: Failing,
}

/// The list of one number, or of none.
fn listed(alloc: Global, number: Option<u64>) -> Result<Vec<u64>, AllocError> {
    let mut list = Vec::new(alloc);
    if let Some(number) = number {
        list.push(number)?;
    }
    Ok(list)
}

fn source_of(alloc: Global, call: &Call<'_>) -> Result<MemorySource, AllocError> {
    let failing = match call.failing {
        Failing::Read(number) => listed(alloc, Some(number))?,
        _ => listed(alloc, None)?,
    };
    let schedule = Vec::from_slice(alloc, call.schedule)?;
    Ok(MemorySource::new(schedule, failing, PIECE))
}

fn sink_of(alloc: Global, failing: Failing) -> Result<MemorySink, AllocError> {
    let failing = match failing {
        Failing::Write(number) => listed(alloc, Some(number))?,
        _ => listed(alloc, None)?,
    };
    Ok(MemorySink::new(alloc, failing, PIECE))
}

fn keeper_of(alloc: Global, failing: Failing) -> Result<MemoryKeeper, AllocError> {
    let loads = match failing {
        Failing::Load(number) => listed(alloc, Some(number))?,
        _ => listed(alloc, None)?,
    };
    let saves = match failing {
        Failing::Save(number) => listed(alloc, Some(number))?,
        _ => listed(alloc, None)?,
    };
    Ok(MemoryKeeper::new(alloc, loads, saves))
}

fn words_of(alloc: Global, call: &Call<'_>) -> Result<Vec<String>, AllocError> {
    let mut words = Vec::new(alloc);
    for word in call.words {
        words.push(String::from_str(alloc, word)?)?;
    }
    Ok(words)
}

/// How a call ends, and what its sink took.
fn called(
    alloc: Global,
    call: &Call<'_>,
    keeper: &mut MemoryKeeper,
) -> Result<(Status, Vec<u8>), AllocError> {
    let words = words_of(alloc, call)?;
    let mut source = source_of(alloc, call)?;
    let mut sink = sink_of(alloc, call.failing)?;
    let status = run(alloc, &words, &mut source, &mut sink, keeper);
    let taken = Vec::from_slice(alloc, sink.taken())?;
    Ok((status, taken))
}

/// How a call ends, and what its sink took. The keeper has these images under the name `a`: to save them counts as calls 1 and 2.
pub fn ending_of(
    alloc: Global,
    call: &Call<'_>,
    images: Option<&Images>,
) -> Result<(Status, Vec<u8>), AllocError> {
    let mut keeper = keeper_of(alloc, call.failing)?;
    if let Some(images) = images {
        let _ = keeper.save("a.0", &images.first);
        let _ = keeper.save("a.1", &images.second);
    }
    called(alloc, call, &mut keeper)
}

/// What a keeper has under a name, or nothing.
fn copied(alloc: Global, keeper: &MemoryKeeper, name: &str) -> Result<Vec<u8>, AllocError> {
    match keeper.get(name) {
        Some(bytes) => Vec::from_slice(alloc, bytes),
        None => Ok(Vec::new(alloc)),
    }
}

/// The images that a call leaves under the name `a`.
pub fn first_images(alloc: Global, call: &Call<'_>) -> Result<Images, AllocError> {
    let mut keeper = keeper_of(alloc, call.failing)?;
    let _ = called(alloc, call, &mut keeper)?;
    Ok(Images {
        first: copied(alloc, &keeper, "a.0")?,
        second: copied(alloc, &keeper, "a.1")?,
    })
}
