//! One operation on the plain files.

ghost use Rattle.std.specs.Prelude.{◌≡◌, ◌≢◌, ℕ, ◌+◌, ◌≤◌, ◌<◌, nat_lt, Bool, not, if◌then◌else◌, ◌++◌, ◌∷◌, [], filter, length, position, MatchResult, MatchOption, IfOk, OnOk, OnErr, unwrap_or};
ghost use Rattle.jn_base.specs.declared.op.Op.TheVariants as ops;
ghost use Rattle.jn_base.specs.Names.{block_eq};
ghost use Rattle.jn_order.specs.Files.{answer_to, all_files_after, no_files, or_else, zeros};
ghost use Rattle.jn_replay.specs.Stored.{registers, files_of, AreSame, block_count, stored_file, stored_block};
ghost use Rattle.jn_replay.specs.Edits.{is_file, is_block, Does, Keeps};

use crate::files::{Files, StoredBlock, StoredFile};
use jn_base::{Answer, Block, BlockContent, BlockNo, FileNo, Op, ServerNo};
use std::alloc::{AllocError, Global};

/// The place of the first file of this name.
pub fn place_of_file(stored: &Vec<StoredFile>, server: ServerNo, file: FileNo) -> Option<usize>
    ensures { result ≡ position (is_file server file) stored.now.items }
{
    stored
        .iter()
        .position(|x| x.server == server && x.file == file)
}

/// The place of the first block of this number.
pub fn place_of_block(blocks: &Vec<StoredBlock>, block: BlockNo) -> Option<usize>
    ensures { result ≡ position (is_block block) blocks.now.items }
{
    blocks.iter().position(|x| x.block == block)
}

fn create(
    alloc: Global,
    stored: &mut Vec<StoredFile>,
    server: ServerNo,
    file: FileNo,
) -> Result<Answer, AllocError>
    ensures { MatchResult result
        (λ a. Does server (ops.Create file) stored.old.items stored.new.items a)
        (λ _. Keeps stored.old.items stored.new.items) }
{
    if place_of_file(stored, server, file).is_some() {
        return Ok(Answer::Exists);
    }
    stored.push(StoredFile {
        server,
        file,
        blocks: Vec::new(alloc),
    })?;
    Ok(Answer::Did)
}

fn remove(stored: &mut Vec<StoredFile>, server: ServerNo, file: FileNo) -> Answer
    ensures { Does server (ops.Remove file) stored.old.items stored.new.items result }
{
    if place_of_file(stored, server, file).is_none() {
        return Answer::NoFile;
    }
    stored.retain(|x| !(x.server == server && x.file == file));
    Answer::Did
}

fn keep_below(blocks: &mut Vec<StoredBlock>, block: BlockNo)
    ensures { blocks.new.items
        ≡ filter (λ (x : StoredBlock). nat_lt x.block.0 block.0) blocks.old.items }
{
    blocks.retain(|x| x.block.0 < block.0);
}

fn cut(stored: &mut Vec<StoredFile>, server: ServerNo, file: FileNo, block: BlockNo) -> Answer
    ensures { Does server (ops.Cut file block) stored.old.items stored.new.items result }
{
    let Some(i) = place_of_file(stored, server, file) else {
        return Answer::NoFile;
    };
    keep_below(&mut stored[i].blocks, block);
    Answer::Did
}

fn block_of(blocks: &Vec<StoredBlock>, block: BlockNo) -> Block
    ensures { result ≡ or_else (stored_block block blocks.now.items) zeros }
{
    match place_of_block(blocks, block) {
        Some(i) => blocks[i].bytes,
        None => [0; 448],
    }
}

fn read(
    alloc: Global,
    stored: &Vec<StoredFile>,
    server: ServerNo,
    file: FileNo,
    block: BlockNo,
) -> Result<Answer, AllocError>
    ensures { IfOk result (λ a. Does server (ops.Read file block) stored.now.items stored.now.items a) }
{
    let Some(i) = place_of_file(stored, server, file) else {
        return Ok(Answer::NoFile);
    };
    let bytes = block_of(&stored[i].blocks, block);
    let content = BlockContent::from_block(alloc, &bytes)?;
    Ok(Answer::Read(content))
}

fn put_block(blocks: &mut Vec<StoredBlock>, block: BlockNo, bytes: &Block) -> Result<(), AllocError>
    ensures stored { OnOk result ((p : BlockNo) → stored_block p blocks.new.items
        ≡ (if block_eq block p then Some bytes.now else stored_block p blocks.old.items)) }
    ensures unchanged { OnErr result (blocks.new.items ≡ blocks.old.items) }
    ensures room { length blocks.new.items ≤ length blocks.old.items + 1 }
{
    match place_of_block(blocks, block) {
        Some(i) => blocks[i].bytes = *bytes,
        None => blocks.push(StoredBlock {
            block,
            bytes: *bytes,
        })?,
    }
    Ok(())
}

fn write(
    stored: &mut Vec<StoredFile>,
    server: ServerNo,
    file: FileNo,
    block: BlockNo,
    bytes: &Block,
) -> Result<Answer, AllocError>
    ensures { MatchResult result
        (λ a. Does server (ops.Write file block bytes.now) stored.old.items stored.new.items a)
        (λ _. Keeps stored.old.items stored.new.items) }
{
    let Some(i) = place_of_file(stored, server, file) else {
        return Ok(Answer::NoFile);
    };
    put_block(&mut stored[i].blocks, block, bytes)?;
    Ok(Answer::Did)
}

/// Does an operation at a server, and answers it from the files. Memory is wanted for at most one
/// new file, one new block or the bytes of an answer; without it the files stay as they were.
pub fn do_op(
    alloc: Global,
    files: &mut Files,
    server: ServerNo,
    op: &Op,
) -> Result<Answer, AllocError>
    ensures answer { IfOk result (λ a. a ≡ answer_to op.now (files_of files.old server)) }
    ensures after { OnOk result
        (AreSame (files_of files.new) (all_files_after server op.now (files_of files.old))) }
    ensures unchanged { OnErr result (AreSame (files_of files.new) (files_of files.old)) }
    ensures room { length files.new.stored.items ≤ length files.old.stored.items + 1 }
    ensures blocks { block_count files.new.stored.items ≤ block_count files.old.stored.items + 1 }
{
    let stored = &mut files.stored;
    match op {
        Op::Create(file) => create(alloc, stored, server, *file),
        Op::Remove(file) => Ok(remove(stored, server, *file)),
        Op::Cut(file, block) => Ok(cut(stored, server, *file, *block)),
        Op::Read(file, block) => read(alloc, stored, server, *file, *block),
        Op::Write(file, block, content) => {
            write(stored, server, *file, *block, &content.to_block())
        }
    }
}

impl Files {
    /// No files.
    pub fn new(alloc: Global) -> Files
        ensures none { AreSame (files_of result) no_files }
        ensures empty { result.stored.items ≡ [] }
    {
        Files {
            stored: Vec::new(alloc),
        }
    }
}
