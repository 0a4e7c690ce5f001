//! The event that drawn numbers give.
ghost use Rattle.std.specs.Prelude.{◌≡◌, IfOk};
ghost use Rattle.jn_gen.specs.Trial.{event_of, fault_of};

use crate::draws::Draws;
use jn_base::{BlockContent, Command, FaultKind, FileNo, Op, Tid};
use jn_schedule::Event;
use std::alloc::{AllocError, Global};

/// The event that the first draw chooses, with the other numbers.
pub(crate) fn event_of(alloc: Global, draws: Draws) -> Result<Event, AllocError>
    ensures { IfOk result (λ event. event ≡ event_of draws) }
{
    let Draws {
        choice,
        client,
        server,
        file,
        block,
        byte,
    } = draws;
    Ok(match choice {
        0 => Event::Command(client, Command::Begin(server)),
        1 => Event::Command(client, Command::Open(server)),
        2 => Event::Command(client, Command::Do(server, Op::Create(file))),
        3 | 4 => {
            let content = BlockContent::new(alloc, &[byte])?;
            Event::Command(client, Command::Do(server, Op::Write(file, block, content)))
        }
        5 => Event::Command(client, Command::Do(server, Op::Read(file, block))),
        6 => Event::Command(client, Command::End),
        7 if byte < 64 => Event::Command(client, Command::Abort),
        7 => Event::Again(client),
        8 if byte < 85 => Event::Command(client, Command::Do(server, Op::Cut(file, block))),
        8 if byte < 170 => Event::Command(client, Command::Do(server, Op::Remove(file))),
        8 => {
            let tid = Tid {
                server,
                epoch: 1,
                ticket: u32::from(byte) - 170,
            };
            Event::Timeout(server, tid)
        }
        9..=12 => Event::Settle,
        13 => Event::Arm(server, u32::from(byte) + 1, fault_of(file)),
        14 if byte < 128 => Event::Crash(server),
        14 => Event::Decay(server, u32::from(byte)),
        _ => Event::Restart(server),
    })
}

/// The fault that is armed, by the number of the file.
fn fault_of(file: FileNo) -> FaultKind
    ensures { result ≡ fault_of file.0 }
{
    match file.0 {
        0 => FaultKind::Soft,
        1 => FaultKind::Null,
        2 => FaultKind::Bad,
        _ => FaultKind::StopTorn,
    }
}
