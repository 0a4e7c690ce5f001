//! What clients may call: one call takes several operations, one after another, and is answered once.
ghost use Rattle.std.specs.Prelude.{◌≡◌, IfOk};

use crate::byte_string::ByteString;
use crate::names::FileNo;
use std::alloc::AllocError;

/// What is asked of a file of bytes.
#[derive(Drop)]
pub enum ByteCommand {
    /// The bytes from this place on, as many as this at most.
    ReadBytes(FileNo, u32, u16),
    /// That these bytes stand from this place on.
    WriteBytes(FileNo, u32, ByteString),
}

impl ByteCommand {
    /// The same once more.
    pub fn copy(&self) -> Result<ByteCommand, AllocError>
        ensures { IfOk result (λ command. command ≡ self.now) }
    {
        Ok(match self {
            ByteCommand::ReadBytes(f, offset, count) => {
                ByteCommand::ReadBytes(*f, *offset, *count)
            }
            ByteCommand::WriteBytes(f, offset, bytes) => {
                ByteCommand::WriteBytes(*f, *offset, bytes.copy()?)
            }
        })
    }
}

/// What is asked of a directory, which comes first in each.
#[derive(Drop)]
pub enum NameCommand {
    /// That the name has the file, whatever it had.
    Bind(FileNo, ByteString, FileNo),
    /// That the name has none.
    Unbind(FileNo, ByteString),
    /// The file of the name.
    Find(FileNo, ByteString),
    /// All names with their files.
    Names(FileNo),
}

impl NameCommand {
    /// The same once more.
    pub fn copy(&self) -> Result<NameCommand, AllocError>
        ensures { IfOk result (λ command. command ≡ self.now) }
    {
        Ok(match self {
            NameCommand::Bind(d, name, f) => NameCommand::Bind(*d, name.copy()?, *f),
            NameCommand::Unbind(d, name) => NameCommand::Unbind(*d, name.copy()?),
            NameCommand::Find(d, name) => NameCommand::Find(*d, name.copy()?),
            NameCommand::Names(d) => NameCommand::Names(*d),
        })
    }
}

/// A call on the files of one server.
#[derive(Drop)]
pub enum Call {
    OfBytes(ByteCommand),
    OfNames(NameCommand),
}

impl Call {
    /// The same call once more.
    pub fn copy(&self) -> Result<Call, AllocError>
        ensures { IfOk result (λ call. call ≡ self.now) }
    {
        Ok(match self {
            Call::OfBytes(command) => Call::OfBytes(command.copy()?),
            Call::OfNames(command) => Call::OfNames(command.copy()?),
        })
    }
}
