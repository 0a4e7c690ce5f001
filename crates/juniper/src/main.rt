//! The program: gives the real words, input, output and files to the top call.
#![tactic(auto)]

use jn_host::{FileKeeper, StandardInput, StandardOutput};
use jn_run::Status;
use std::alloc::Global;
use std::process::ExitCode;
use std::rt::Env;
use std::{env, io};

/// The words that the program was called with, its name first; none where one of them isn't text, so that they are
/// refused as words.
fn words_of(rt: &(impl Env + Alloc<A = Global>)) -> io::Result<Vec<String>> {
    let mut words = Vec::new(rt.alloc());
    let given = match env::args(rt) {
        Ok(given) => given,
        Err(e) if e.kind() == io::ErrorKind::InvalidData => return Ok(words),
        Err(e) => return Err(e),
    };
    for word in given {
        words.push(word)?;
    }
    Ok(words)
}

fn main(rt: HostRuntime) -> ExitCode {
    let Ok(words) = words_of(&rt) else {
        return ExitCode::from(Status::Memory.code());
    };
    let mut source = StandardInput::new(rt.reader());
    let mut sink = StandardOutput::new(io::writer(&rt));
    let mut images = FileKeeper::new(&rt);
    let status = jn_run::run(rt.alloc(), &words, &mut source, &mut sink, &mut images);
    ExitCode::from(status.code())
}
