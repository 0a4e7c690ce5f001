//! The heads in memory, each found by its file's number.
ghost use Rattle.std.specs.Prelude.{◌≡◌, ◌<◌, ◌≤◌, ℕ, true, length, List, slice_set, is_some, IfOk, IfSome};
ghost use Rattle.jn_files.specs.Table as table;
ghost use Rattle.jn_records.specs.Heads.{head_in, is_of};
ghost use Rattle.jn_files.specs.Calls as calls;
ghost use Rattle.jn_files.specs.Inside as inside;

use crate::slot::Slot;
use jn_base::FileNo;
use jn_index::Index;
use std::alloc::{AllocError, Global};
use std::marker::Model;
use std::mem;

/// The heads by slot. Contracts see them as a list.
#[derive(Drop)]
pub struct Heads {
    slots: Vec<Slot>,
    /// Of each slot the number of its file.
    files: Index,
}

impl Model for Heads {
    ghost use Rattle.std.specs.Prelude.{List};
    ghost use Rattle.jn_records.specs.declared.head.Head.{Head};
    ghost use Rattle.jn_files.specs.Inside.{AreIndexed};

    ghost Value = { List Head };

    ghost view = { λ h. h.slots.items };

    ghost invariant = { λ h. AreIndexed h.files h.slots.items };
}

impl Heads {
    pub fn new(alloc: Global, slots: Vec<Slot>) -> Result<Self, AllocError>
        requires { length slots.items ≤ 65535 }
        ensures { IfOk result (λ heads. heads ≡ slots.items) }
    {
        let files = index_of(alloc, &slots)?;
        Ok(Heads { slots, files })
    }

    pub fn count(&self) -> u32
        ensures { result ≡ length self.now }
    {
        self.slots.len() as u32
    }

    pub fn slot(&self, slot: u16) -> &Slot
        requires { slot < length self.now }
        ensures { result.now ≡ head_in self.now slot }
    {
        &self.slots[slot as usize]
    }

    /// The slot of a file's head, the lowest where it has several.
    pub fn slot_of(&self, f: FileNo) -> Option<u16>
        ensures found { IfSome result (λ slot. (slot < length self.now) × (is_of f (head_in self.now slot) ≡ true)) }
        ensures lowest { IfSome result (λ slot. (k : ℕ) → is_of f (head_in self.now k) ≡ true → slot ≤ k) }
        ensures there { is_some result ≡ table.exists self.now f }
    {
        self.files.slot_from(f.0, 0)
    }

    /// The least file above another, or the least of all.
    pub fn next(&self, after: Option<FileNo>) -> Option<FileNo>
        ensures { calls.NextFile self.now after result }
    {
        Some(FileNo(self.files.number_above(number_of(after))?))
    }

    /// Puts another head in place of the slot's, which it gives back.
    pub fn replace(&mut self, slot: u16, head: Slot) -> Slot
        requires { slot < length self.old }
        ensures old { result ≡ head_in self.old slot }
        ensures new { self.new ≡ slice_set self.old slot head }
    {
        self.files.set(slot, head.number());
        mem::replace(&mut self.slots[slot as usize], head)
    }
}

/// The index of the files that heads have.
fn index_of(alloc: Global, slots: &[Slot]) -> Result<Index, AllocError>
    requires { length slots.now ≤ 65535 }
    ensures { IfOk result (λ files. inside.AreIndexed files slots.now) }
{
    let mut files = Vec::with_capacity(alloc, slots.len())?;
    for head in slots {
        files.push(head.number())?;
    }
    let by_file = Index::of(alloc, &files)?;
    Ok(by_file)
}

fn number_of(file: Option<FileNo>) -> Option<u32>
    ensures { result ≡ inside.file_number file }
{
    match file {
        Some(file) => Some(file.0),
        None => None,
    }
}
