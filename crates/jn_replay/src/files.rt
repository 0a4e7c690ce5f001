//! The files of all servers, kept plainly.

use jn_base::{Answer, Block, BlockNo, FileNo, Op, ServerNo};

/// A stored block of a file.
#[derive(Clone, Copy)]
pub struct StoredBlock {
    pub block: BlockNo,
    pub bytes: Block,
}

/// A file with its stored blocks. The first entry of a block counts.
#[derive(Drop)]
pub struct StoredFile {
    pub server: ServerNo,
    pub file: FileNo,
    pub blocks: Vec<StoredBlock>,
}

/// The files of all servers. The first entry of a file counts.
#[derive(Drop)]
pub struct Files {
    pub stored: Vec<StoredFile>,
}

/// An operation at a server, and what it was answered.
#[derive(Drop)]
pub struct Performed {
    pub server: ServerNo,
    pub op: Op,
    pub answer: Answer,
}
