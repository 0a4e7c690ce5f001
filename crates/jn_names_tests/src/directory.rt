//! A directory in memory, and calls on it.

ghost use Rattle.std.specs.Prelude.{◌≡◌, IfOk};

use jn_base::{Answer, Block, BlockContent, ByteString, FileNo, Op, is_name};
use jn_names::{Entries, NameCall, NameNext, NameRefusal};
use std::alloc::{AllocError, Global};

/// The file that is the directory.
pub const DIRECTORY: FileNo = FileNo(9);

/// The most operations that a call takes.
const MOST: usize = 32;

/// How a call ended.
#[derive(PartialEq, Eq, Drop)]
pub enum Ended {
    Did,
    Found(u32),
    /// Each name behind one space, with `=` and its file.
    Names(Vec<u8>),
    /// The number of the refusal.
    Refused(u8),
    /// It asked for more operations than a call takes, or for none of its own.
    Wrong,
}

/// The blocks of a directory.
#[derive(Drop)]
pub struct Directory {
    blocks: Vec<Block>,
}

impl Directory {
    /// 32 blocks of zeros.
    pub fn new(alloc: Global) -> Result<Directory, AllocError> {
        let mut blocks = Vec::with_capacity(alloc, 32)?;
        for _ in 0..32 {
            blocks.push([0; 448])?;
        }
        Ok(Directory { blocks })
    }

    /// The bytes of a block.
    pub fn block(&self, block: usize) -> Block {
        if block < self.blocks.len() {
            self.blocks[block]
        } else {
            [0; 448]
        }
    }

    pub fn set(&mut self, block: usize, bytes: &Block) {
        if block < self.blocks.len() {
            self.blocks[block] = *bytes;
        }
    }

    /// Answers a read or a write of a block of the directory, and no other operation.
    fn answer(&mut self, alloc: Global, op: &Op) -> Result<Option<Answer>, AllocError> {
        match op {
            Op::Read(file, block) => {
                if *file != DIRECTORY || block.0 as usize >= self.blocks.len() {
                    return Ok(None);
                }
                let bytes = self.block(block.0 as usize);
                Ok(Some(Answer::Read(BlockContent::from_block(alloc, &bytes)?)))
            }
            Op::Write(file, block, content) => {
                if *file != DIRECTORY || block.0 as usize >= self.blocks.len() {
                    return Ok(None);
                }
                self.set(block.0 as usize, &content.to_block());
                Ok(Some(Answer::Did))
            }
            _ => Ok(None),
        }
    }

    fn run(&mut self, alloc: Global, call: NameCall) -> Result<Ended, AllocError> {
        let mut call = call;
        let mut next = call.next(alloc, None)?;
        for _ in 0..MOST {
            match next {
                NameNext::Send(op) => {
                    let Some(answer) = self.answer(alloc, &op)? else {
                        return Ok(Ended::Wrong);
                    };
                    next = call.next(alloc, Some(&answer))?;
                }
                last => return finish(alloc, last),
            }
        }
        finish(alloc, next)
    }

    pub fn bind(&mut self, alloc: Global, name: &[u8], file: u32) -> Result<Ended, AllocError> {
        if !is_name(name) {
            return Ok(Ended::Wrong);
        }
        let string = string_of(alloc, name)?;
        self.run(alloc, NameCall::bind(DIRECTORY, string, FileNo(file)))
    }

    pub fn unbind(&mut self, alloc: Global, name: &[u8]) -> Result<Ended, AllocError> {
        if !is_name(name) {
            return Ok(Ended::Wrong);
        }
        let string = string_of(alloc, name)?;
        self.run(alloc, NameCall::unbind(DIRECTORY, string))
    }

    pub fn find(&mut self, alloc: Global, name: &[u8]) -> Result<Ended, AllocError> {
        if !is_name(name) {
            return Ok(Ended::Wrong);
        }
        let string = string_of(alloc, name)?;
        self.run(alloc, NameCall::find(DIRECTORY, string))
    }

    pub fn names(&mut self, alloc: Global) -> Result<Ended, AllocError> {
        self.run(alloc, NameCall::names(DIRECTORY))
    }
}

fn string_of(alloc: Global, name: &[u8]) -> Result<ByteString, AllocError>
    ensures { IfOk result (λ string. string ≡ name.now) }
{
    ByteString::new(alloc, name.to_vec(alloc)?)
}

fn finish(alloc: Global, next: NameNext) -> Result<Ended, AllocError> {
    match next {
        NameNext::Send(_op) => Ok(Ended::Wrong),
        NameNext::Did => Ok(Ended::Did),
        NameNext::Found(file) => Ok(Ended::Found(file)),
        NameNext::Names(entries) => Ok(Ended::Names(text_of(alloc, &entries)?)),
        NameNext::Refused(refusal) => Ok(Ended::Refused(number_of(&refusal))),
    }
}

fn text_of(alloc: Global, entries: &Entries) -> Result<Vec<u8>, AllocError> {
    let mut text = Vec::new(alloc);
    for entry in entries.as_slice() {
        push_entry(&mut text, entry.name.as_bytes(), entry.file.0)?;
    }
    Ok(text)
}

fn number_of(refusal: &NameRefusal) -> u8 {
    match refusal {
        NameRefusal::Operation(_) => 0,
        NameRefusal::BucketFull => 54,
        NameRefusal::NoName => 55,
        NameRefusal::NotDirectory => 56,
    }
}

/// A space, the name, `=` and the file's last digit.
pub fn push_entry(text: &mut Vec<u8>, name: &[u8], file: u32) -> Result<(), AllocError> {
    text.push(b' ')?;
    text.extend_from_slice(name)?;
    text.push(b'=')?;
    text.push(b'0' + (file % 10) as u8)?;
    Ok(())
}
