//! Net lists: what a work's operations come to, as few intentions.
ghost use Rattle.std.specs.Prelude.{◌≡◌, ◌≤◌, ◌&&◌, nat_eq, filter, IsOk, vec_len, vec_capacity, ◌<◌, ◌^◌, ◌+◌, ℕ, List, [], true, length, count_by, Option, is_some, IfOk, OnOk, OnErr};
ghost use Rattle.jn_base.specs.declared.names.BlockNo.{BlockNo};
ghost use Rattle.jn_base.specs.declared.names.FileNo.{FileNo};
ghost use Rattle.jn_base.specs.declared.names.LockUnit.TheVariants.{File, Block};
ghost use Rattle.jn_base.specs.declared.op.Answer.TheVariants.{Read as Found};
ghost use Rattle.jn_base.specs.declared.op.Op.TheVariants.{Read};
ghost use Rattle.jn_base.specs.Names.{file_eq};
ghost use Rattle.jn_order.specs.Files.{Files, change, effect, answer_to, file_of, or_else, zeros};
ghost use Rattle.jn_order.specs.Changes.{and_then};
ghost use Rattle.jn_fields.specs.Reading.{Gives};
ghost use Rattle.jn_records.specs.NetLists.{InOrder, blocks_below, list_change, net_of, added, intention_place, stands_before, as_first, as_put, entry, stays, length_with, seen_block, answered, is_put_intention, needs_a_head};
ghost use Rattle.jn_base.specs.Ops.{block_of};
ghost use Rattle.jn_records.specs.NetEdits.{there_by, unput_by, seen_by, plain, cut_again, intention_for, list_after, front, in_its_place};

use crate::intention::{Intention, What};
use jn_base::{Answer, Block, BlockContent, BlockNo, FileNo, Op};
use std::alloc::{AllocError, Global};
use std::marker::Model;

/// The intentions of a work that isn't prepared yet: by file, of each file a first one (fresh, gone or
/// cut) before its puts, these by block, one of each block.
#[derive(Drop)]
pub struct NetList {
    items: Vec<Intention>,
}

impl Model for NetList {
    ghost use Rattle.std.specs.Prelude.{List};
    ghost use Rattle.jn_records.specs.declared.intention.Intention.{Intention};
    ghost use Rattle.jn_records.specs.NetLists.{InOrder};

    ghost Value = { List Intention };

    ghost view = { λ l. l.items.items };

    ghost invariant = { λ l. InOrder l.items.items };
}

/// Where a block's bytes are found.
#[derive(Clone, Copy)]
pub enum Seen {
    /// They were put.
    Put(Block),
    /// The block isn't there: its file is fresh or gone, or is cut at or before it.
    Zeros,
    /// The list says nothing of it: as it is stored.
    Stored,
}

/// What a list needs where it is prepared.
#[derive(Clone, Copy, Debug, PartialEq, Eq)]
pub struct Need {
    /// Slots of the pool: one for each intention, and one for the ready record.
    pub records: u32,
    /// Heads: one for each fresh file that isn't there.
    pub heads: u32,
    /// Data pages: one for each put, and one for each map page that is lacking.
    pub pages: u32,
}

impl NetList {
    /// The list of no operations.
    pub fn new(alloc: Global) -> NetList
        ensures { result ≡ [] }
    {
        NetList {
            items: Vec::new(alloc),
        }
    }

    /// Adds an operation that was done, as seen through this list. A read changes nothing, and without
    /// memory nothing changes.
    pub fn add(&mut self, op: &Op) -> Result<(), AllocError>
        ensures net { OnOk result (net_of self.new ≡ added (net_of self.old) op.now) }
        ensures change { OnOk result (list_change self.new ≡ and_then (list_change self.old) (effect op.now)) }
        ensures length { OnOk result (length self.new ≡ length_with self.old op.now) }
        ensures edited { OnOk result (self.new ≡ list_after (intention_for self.old op.now) op.now self.old) }
        ensures blocks { (n : ℕ) → (block_of op.now).0 < n → blocks_below n self.old ≡ true → OnOk result (blocks_below n self.new ≡ true) }
        ensures err { OnErr result (self.new ≡ self.old) }
    {
        let Some(new) = intention_for(&self.items, op) else {
            return Ok(());
        };
        self.items.reserve(1)?;
        drop_replaced(&mut self.items, op);
        put_in_its_place(&mut self.items, new)
    }

    /// The intentions, in the order in which they are carried out.
    pub fn list(&self) -> &[Intention]
        ensures all { result.now ≡ self.now }
        ensures in_order { InOrder result.now }
    {
        &self.items
    }

    /// How many intentions there would be with one more operation.
    pub fn length_with(&self, op: &Op) -> usize
        ensures { result ≡ length_with self.now op.now }
    {
        let new = match op {
            Op::Read(..) => 0,
            _ => 1,
        };
        count_staying(&self.items, op) + new
    }

    /// Whether a file is there, as seen through this list, where `stored` says whether the files stored have it.
    pub fn there(&self, f: FileNo, stored: bool) -> bool
        ensures { (files : Files) → is_some (files (File f)) ≡ stored → is_some (change (list_change self.now) files (File f)) ≡ result }
    {
        is_there(&self.items, f, stored)
    }

    /// Where the bytes of a block are found, as seen through this list.
    pub fn block(&self, f: FileNo, p: BlockNo) -> Seen
        ensures { (files : Files) → change (list_change self.now) files (Block f p) ≡ seen_block result (files (Block f p)) }
    {
        where_seen(&self.items, f, p)
    }

    /// The answer of the files seen through this list, where `stored` says whether the files stored have
    /// the operation's file; `None` where it is the stored block, or zeros where none is stored. Only the bytes
    /// of a block that was read take memory.
    pub fn answer(&self, alloc: Global, op: &Op, stored: bool) -> Result<Option<Answer>, AllocError>
        ensures { IfOk result (λ answer. (files : Files) → is_some (files (File (file_of op.now))) ≡ stored
            → answer_to op.now (change (list_change self.now) files) ≡ answered answer op.now files) }
    {
        let f = file_of(op);
        let there = self.there(f, stored);
        Ok(match op {
            Op::Create(_) if there => Some(Answer::Exists),
            Op::Create(_) => Some(Answer::Did),
            _ if !there => Some(Answer::NoFile),
            Op::Read(f, p) => answer_of(alloc, self.block(*f, *p))?,
            _ => Some(Answer::Did),
        })
    }

    /// How many puts there are.
    pub fn puts(&self) -> u32
        requires { length self.now < 2 ^ 32 }
        ensures { result ≡ count_by is_put_intention self.now }
    {
        puts_in(&self.items)
    }
}

/// The answer to a read, where the bytes are known.
fn answer_of(alloc: Global, seen: Seen) -> Result<Option<Answer>, AllocError>
    ensures { IfOk result (λ answer. (f : FileNo) → (p : BlockNo) → (files : Files) → Found (or_else (seen_block seen (files (Block f p))) zeros) ≡ answered answer (Read f p) files) }
{
    let bytes = match seen {
        Seen::Put(bytes) => bytes,
        Seen::Zeros => zeros(),
        Seen::Stored => return Ok(None),
    };
    Ok(Some(Answer::Read(BlockContent::from_block(alloc, &bytes)?)))
}

/// How many puts a list has.
pub fn puts_in(list: &[Intention]) -> u32
    requires { length list.now < 2 ^ 32 }
    ensures { result ≡ count_by is_put_intention list.now }
{
    let mut puts = 0;
    for intention in list {
        if intention.what == What::Put {
            puts += 1;
        }
    }
    puts
}

/// Whether an intention needs a head, where `there` says whether its file has one.
pub fn needs_head(intention: &Intention, there: bool) -> bool
    ensures { result ≡ needs_a_head there intention.now }
{
    intention.what == What::Fresh && !there
}

fn file_of(op: &Op) -> FileNo
    ensures { result ≡ file_of op.now }
{
    match op {
        Op::Create(f) | Op::Remove(f) | Op::Cut(f, _) | Op::Read(f, _) | Op::Write(f, _, _) => *f,
    }
}

/// The place of an intention among those of its file: the first one, then the puts by block.
fn intention_place(intention: &Intention) -> u32
    ensures { result ≡ intention_place intention.now }
{
    match intention.what {
        What::Put => u32::from(intention.block.0) + 1,
        _ => 0,
    }
}

fn stands_before(a: &Intention, b: &Intention) -> bool
    ensures { result ≡ stands_before a.now b.now }
{
    a.file.0 < b.file.0 || a.file.0 == b.file.0 && intention_place(a) < intention_place(b)
}

fn is_at(intention: &Intention, f: FileNo, place: u32) -> bool
    ensures { result ≡ (file_eq intention.now.file f && nat_eq (intention_place intention.now) place) }
{
    intention.file == f && intention_place(intention) == place
}

/// The intention of a file at a place.
fn entry(list: &[Intention], f: FileNo, place: u32) -> Option<&Intention>
    ensures { Gives (λ i. i.now) result (entry list.now f place) }
{
    for intention in list {
        if is_at(intention, f, place) {
            return Some(intention);
        }
    }
    None
}

/// Whether a file is there, where `stored` says whether the files stored have it.
fn is_there(list: &[Intention], f: FileNo, stored: bool) -> bool
    ensures { result ≡ there_by (as_first (entry list.now f 0)) stored }
{
    let Some(first) = entry(list, f, 0) else {
        return stored;
    };
    match first.what {
        What::Fresh => true,
        What::Gone => false,
        _ => stored,
    }
}

/// Where the bytes of a block that isn't put are found.
fn unput(list: &[Intention], f: FileNo, p: BlockNo) -> Seen
    ensures { result ≡ unput_by (as_first (entry list.now f 0)) p }
{
    let Some(first) = entry(list, f, 0) else {
        return Seen::Stored;
    };
    match first.what {
        What::Fresh | What::Gone => Seen::Zeros,
        What::Cut if first.block.0 <= p.0 => Seen::Zeros,
        _ => Seen::Stored,
    }
}

fn where_seen(list: &[Intention], f: FileNo, p: BlockNo) -> Seen
    ensures { result ≡ seen_by (as_put (entry list.now f (p.0 + 1))) (as_first (entry list.now f 0)) p }
{
    match entry(list, f, u32::from(p.0) + 1) {
        Some(put) => Seen::Put(put.bytes),
        None => unput(list, f, p),
    }
}

/// Whether an operation neither drops nor replaces an intention.
fn stays(op: &Op, intention: &Intention) -> bool
    ensures { result ≡ stays op.now intention.now }
{
    let place = intention_place(intention);
    match op {
        Op::Create(f) | Op::Remove(f) => intention.file != *f,
        Op::Cut(f, n) => intention.file != *f || place != 0 && place <= u32::from(n.0),
        Op::Read(..) => true,
        Op::Write(f, p, _) => intention.file != *f || place != u32::from(p.0) + 1,
    }
}

fn count_staying(list: &[Intention], op: &Op) -> usize
    ensures { result ≡ count_by (λ i. stays op.now i) list.now }
{
    list.iter().filter(|i| stays(op, i)).count()
}

fn drop_replaced(items: &mut Vec<Intention>, op: &Op)
    ensures items { items.new.items ≡ filter (λ i. stays op.now i) items.old.items }
    ensures fewer { vec_len items.new ≤ vec_len items.old }
    ensures capacity { vec_capacity items.new ≡ vec_capacity items.old }
{
    items.retain(|i| stays(op, i));
}

fn zeros() -> Block
    ensures { result ≡ zeros }
{
    [0; 448]
}

/// An intention that names no bytes.
fn plain(what: What, file: FileNo, block: BlockNo) -> Intention
    ensures { result ≡ plain what file block.0 }
{
    Intention {
        what,
        file,
        block,
        bytes: zeros(),
    }
}

/// The first intention of a file that is cut: a fresh or removed file stays so, and of two cuts the one
/// at the lesser block tells.
fn cut_again(list: &[Intention], f: FileNo, n: BlockNo) -> Intention
    ensures { result ≡ cut_again (as_first (entry list.now f 0)) f n }
{
    let Some(first) = entry(list, f, 0) else {
        return plain(What::Cut, f, n);
    };
    match first.what {
        What::Fresh | What::Gone => plain(first.what, f, BlockNo(0)),
        What::Cut if first.block.0 <= n.0 => plain(What::Cut, f, first.block),
        _ => plain(What::Cut, f, n),
    }
}

/// What an operation adds to a list; a read adds nothing.
fn intention_for(list: &[Intention], op: &Op) -> Option<Intention>
    ensures { result ≡ intention_for list.now op.now }
{
    match op {
        Op::Create(f) => Some(plain(What::Fresh, *f, BlockNo(0))),
        Op::Remove(f) => Some(plain(What::Gone, *f, BlockNo(0))),
        Op::Cut(f, n) => Some(cut_again(list, *f, *n)),
        Op::Read(..) => None,
        Op::Write(file, block, content) => Some(Intention {
            what: What::Put,
            file: *file,
            block: *block,
            bytes: content.to_block(),
        }),
    }
}

/// How many intentions stand before another.
fn front(list: &[Intention], new: &Intention) -> usize
    ensures counted { result ≡ front new.now list.now }
    ensures within { result ≤ length list.now }
{
    for (at, intention) in list.iter().enumerate() {
        if !stands_before(intention, new) {
            return at;
        }
    }
    list.len()
}

/// Puts an intention behind those that stand before it.
fn put_in_its_place(items: &mut Vec<Intention>, new: Intention) -> Result<(), AllocError>
    ensures ok { OnOk result (items.new.items ≡ in_its_place new items.old.items) }
    ensures err { OnErr result (items.new.items ≡ items.old.items) }
    ensures room { vec_len items.old < vec_capacity items.old → IsOk result }
{
    let at = front(items, &new);
    items.insert(at, new)?;
    Ok(())
}
