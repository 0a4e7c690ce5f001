//! Takes the frames of standard input apart and writes each again: `bench/frames` counts what that takes, and `tools/test_frames` compares what it says.
//!
//! The word is how many bytes of the stream are read at a time, 1,448 without one. With 0 the input is read and nothing else is done. The status is 11
//! where bytes are no frame to server 0, 9 where memory runs out, and 5 where the input can't be read.
#![tactic(auto)]

mod again;
mod input;

use again::frames_again;
use input::read_all;
use jn_host::StandardInput;
use jn_wire::WireError;
use std::process::ExitCode;
use std::{env, io};

fn main(rt: HostRuntime) -> io::Result<ExitCode> {
    let mut words = env::args(&rt)?;
    let _program = words.next();
    let size: u32 = match words.next() {
        Some(word) => word.as_str().parse().unwrap_or(0),
        None => 1448,
    };
    let mut source = StandardInput::new(rt.reader());
    let Ok(data) = read_all(rt.alloc(), &mut source) else {
        return Ok(ExitCode::from(5));
    };
    if size == 0 {
        return Ok(ExitCode::from(0));
    }
    match frames_again(rt.alloc(), &data, size as usize) {
        Ok((frames, bytes)) => {
            println!(rt; "{frames} frames, {bytes} bytes")?;
            Ok(ExitCode::from(0))
        }
        Err(WireError::Fault(fault)) => {
            println!(rt; "fault at {} number {}", fault.at, fault.number)?;
            Ok(ExitCode::from(11))
        }
        Err(WireError::Memory) => Ok(ExitCode::from(9)),
    }
}
