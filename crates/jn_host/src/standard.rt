//! Standard input and output as a source and a sink. They tell nothing of their bytes.

ghost use Rattle.std.specs.Prelude.{◌≡◌, ◌<◌, ℕ, None, IfOk, OnErr, length, take};
ghost use Rattle.std.specs.Io.KnownBytes.{ReadConsumes, Appends};
ghost use Rattle.jn_host.specs.Outside.{SourceRead, SinkWrote};

use crate::fault_plan::failed;
use crate::{Failed, Sink, Source};
use std::io::{Read, Write};

/// A reader as a source: `StandardInput::new(rt.reader())`.
#[derive(Drop)]
pub struct StandardInput<R> {
    reader: R,
    faults: u64,
}

impl<R> StandardInput<R> {
    /// A source of what `reader` gives.
    pub fn new(reader: R) -> StandardInput<R>
        ensures reader { result.reader ≡ reader }
        ensures faults { result.faults ≡ 0 }
    {
        StandardInput { reader, faults: 0 }
    }
}

impl<R: Read> Source for StandardInput<R> {
    ghost left = { λ _. None };

    ghost faults = { λ s. s.faults };

    fn read(&mut self, into: &mut [u8]) -> Result<usize, Failed>
        ensures read { SourceRead None self.old.faults into.old result None self.new.faults into.new }
        // It passes on what the reader gave.
        ensures passed { ReadConsumes (R.remaining self.old.reader) (R.remaining self.new.reader) result into.new }
    {
        match self.reader.read(into) {
            Ok(count) => Ok(count),
            Err(_error) => Err(failed(&mut self.faults)),
        }
    }
}

/// A writer as a sink, flushed at each write so that nothing is lost at the end:
/// `StandardOutput::new(io::writer(&rt))`.
#[derive(Drop)]
pub struct StandardOutput<W> {
    writer: W,
    faults: u64,
}

impl<W> StandardOutput<W> {
    /// A sink that passes what it takes to `writer`.
    pub fn new(writer: W) -> StandardOutput<W>
        ensures writer { result.writer ≡ writer }
        ensures faults { result.faults ≡ 0 }
    {
        StandardOutput { writer, faults: 0 }
    }
}

impl<W: Write> Sink for StandardOutput<W> {
    ghost taken = { λ _. None };

    ghost faults = { λ s. s.faults };

    /// A writer that takes nothing of bytes that are there, or can't be flushed, has failed.
    fn write(&mut self, from: &[u8]) -> Result<usize, Failed>
        ensures wrote { SinkWrote None self.old.faults from.now result None self.new.faults }
        // The writer has what was taken.
        ensures passed { IfOk result (λ n. Appends (W.contents self.old.writer) (W.contents self.new.writer) (take n from.now)) }
    {
        match self.writer.write(from) {
            Ok(count) if 0 < count || from.is_empty() => match self.writer.flush() {
                Ok(()) => Ok(count),
                Err(_error) => Err(failed(&mut self.faults)),
            },
            _ => Err(failed(&mut self.faults)),
        }
    }
}
