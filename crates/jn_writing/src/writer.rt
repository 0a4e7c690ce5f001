//! Bytes and lines written to a sink.
ghost use Rattle.std.specs.Prelude.{◌≡◌, ◌≤◌, ◌<◌, is_ok};
ghost use Rattle.jn_writing.specs.Calls.{WritesAll, writes_to};
ghost use Rattle.jn_writing.specs.Joined.{writes_join};

use crate::fault::ReportFault;
use crate::reporter::Reporter;
use jn_host::{Failed, Sink};
use jn_report::{Line, push_line};
use std::alloc::Global;

/// Writes all the bytes, in as many pieces as the sink takes. Where the sink fails it has taken a front of them.
pub fn write_all<K: Sink>(sink: &mut K, bytes: &[u8]) -> Result<(), Failed>
    ensures wrote { WritesAll (K.taken sink.old) (K.faults sink.old) bytes.now (is_ok result) (K.taken sink.new) (K.faults sink.new) }
{
    let mut done = 0;
    while done < bytes.len() {
        done += sink.write(&bytes[done..])?;
    }
    Ok(())
}

/// Writes the text of lines to a sink, in one piece for each call.
#[derive(Drop)]
pub struct Writer {
    /// The text of the last call's lines. Its room is used again.
    text: Vec<u8>,
}

impl Writer {
    pub fn new(alloc: Global) -> Writer {
        Writer {
            text: Vec::new(alloc),
        }
    }
}

impl<K: Sink> Reporter<K> for Writer {
    ghost reporting = { writes_to K.taken K.faults };

    fn report(&mut self, output: &mut K, lines: &[Line]) -> Result<(), ReportFault> {
        self.text.clear();
        for line in lines {
            push_line(&mut self.text, line)?;
        }
        match write_all(output, &self.text) {
            Ok(()) => Ok(()),
            Err(Failed) => Err(ReportFault::Write),
        }
    }

    ghost joins = { writes_join K.taken K.faults };
}
