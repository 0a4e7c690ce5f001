//! Operations and calls at servers, and what they were replied.

ghost use Rattle.std.specs.Prelude.{◌≡◌};
ghost use Rattle.jn_replay.specs.Replies.{bytes_fit, name_fits, call_fits, wish_fits};

use jn_base::{BLOCK_SIZE, ByteCommand, Call, MOST_FILE_BYTES, NameCommand, ServerNo, is_name};
use jn_calls::{Reply, Wish};

/// What was wished of the files of a server, and what it was replied.
#[derive(Drop)]
pub struct Replied {
    pub server: ServerNo,
    pub wish: Wish,
    pub reply: Reply,
}

fn bytes_fit(command: &ByteCommand) -> bool
    ensures { result ≡ bytes_fit command.now }
{
    match command {
        ByteCommand::ReadBytes(_, _, _) => true,
        ByteCommand::WriteBytes(_, offset, bytes) => {
            let count = bytes.as_slice().len();
            count <= BLOCK_SIZE && *offset as usize + count <= MOST_FILE_BYTES as usize
        }
    }
}

fn name_fits(command: &NameCommand) -> bool
    ensures { result ≡ name_fits command.now }
{
    match command {
        NameCommand::Bind(_, name, _) => is_name(name.as_slice()),
        NameCommand::Unbind(_, name) => is_name(name.as_slice()),
        NameCommand::Find(_, name) => is_name(name.as_slice()),
        NameCommand::Names(_) => true,
    }
}

/// Whether it is a call that a client makes: a write is of a block's bytes at most, which end where a file can end, and a
/// name is one.
pub fn call_fits(call: &Call) -> bool
    ensures { result ≡ call_fits call.now }
{
    match call {
        Call::OfBytes(command) => bytes_fit(command),
        Call::OfNames(command) => name_fits(command),
    }
}
