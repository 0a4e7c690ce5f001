//! Slots by number: which slots have a number, and which number comes next, without a look at every slot.
//!
//! A server finds a file's head, or a work's record, by a number. The numbers are kept in order beside the list of them by slot,
//! so that a search halves them. Nothing but `new` and `of` takes memory.
//!
//! `specs/Least.antt` says what the least of numbered things from a number on is. Files and blocks are listed by it.
#![tactic(auto)]

ghost use Rattle.std.specs.Prelude.{◌≡◌, ◌<◌, ◌≤◌, ◌+◌, ◌^◌, ℕ, true, false, length, List, slice_set, slice_index_or, vec_capacity, count_by, Option, Some, None, is_some, IfOk, IfSome, IfNone, insert, remove};
ghost use Rattle.jn_index.specs.Numbers.{number_at, is_above, IsSlotFrom, IsNumberAbove};
ghost use Rattle.jn_index.specs.declared.Entry.{Entry};
ghost use Rattle.jn_index.specs.Entries.{is_none, is_before, entry, entry_at, AreRising, AreOf};

use std::alloc::{AllocError, Global};
use std::marker::Model;

/// A slot's number.
#[derive(Clone, Copy)]
struct Entry {
    number: u32,
    slot: u16,
}

/// The numbers of slots. Contracts see them as a list, by slot.
#[derive(Drop)]
pub struct Index {
    numbers: Vec<Option<u32>>,
    /// By number and then by slot, with room for one of each slot.
    entries: Vec<Entry>,
}

impl Model for Index {
    ghost use Rattle.std.specs.Prelude.{ℕ, List, Option, vec_capacity};
    ghost use Rattle.jn_index.specs.Entries.{IsIndex};

    ghost Value = { List (Option ℕ) };

    ghost view = { λ x. x.numbers.items };

    ghost invariant = { λ x. IsIndex x.numbers.items x.entries.items (vec_capacity x.entries) };
}

impl Index {
    /// No slot has a number.
    pub fn new(alloc: Global, slots: u16) -> Result<Self, AllocError>
        ensures slots { IfOk result (λ index. length index ≡ slots) }
        ensures none { IfOk result (λ index. (slot : ℕ) → number_at index slot ≡ None) }
    {
        let entries = Vec::with_capacity(alloc, slots as usize)?;
        let numbers = no_numbers(alloc, slots)?;
        Ok(Index { numbers, entries })
    }

    /// The index of these numbers, by slot. They are taken from the least on, so that none moves for another.
    pub fn of(alloc: Global, numbers: &[Option<u32>]) -> Result<Self, AllocError>
        requires { length numbers.now < 2 ^ 16 }
        ensures { IfOk result (λ index. index ≡ numbers.now) }
    {
        let mut index = Index::new(alloc, numbers.len() as u16)?;
        let order = in_order(alloc, numbers)?;
        for i in 0..order.len() {
            let (number, slot) = order[i];
            index.set(slot, Some(number));
        }
        Ok(index)
    }

    /// How many slots there are.
    pub fn slots(&self) -> usize
        ensures { result ≡ length self.now }
    {
        self.numbers.len()
    }

    /// Gives a slot another number, or none.
    pub fn set(&mut self, slot: u16, number: Option<u32>)
        requires { slot < length self.old }
        ensures { self.new ≡ slice_set self.old slot number }
    {
        let old = self.numbers[slot as usize];
        if old == number {
            return;
        }
        let Some(number) = number else {
            self.unset(slot);
            return;
        };
        let new = Entry { number, slot };
        match old {
            Some(old) => self.renumber(Entry { number: old, slot }, new),
            None => self.fill(new),
        }
    }

    /// The lowest slot with a number, from a slot on.
    pub fn slot_from(&self, number: u32, from: u16) -> Option<u16>
        ensures found { IfSome result (λ slot. IsSlotFrom self.now number from slot) }
        ensures none { IfNone result ((slot : ℕ) → from ≤ slot → number_at self.now slot ≡ Some number → ⊥) }
    {
        let place = place_of(&self.entries, Entry { number, slot: from });
        if place < self.entries.len() && self.entries[place].number == number {
            return Some(self.entries[place].slot);
        }
        None
    }

    /// The least number above another that a slot has, or the least of all.
    pub fn number_above(&self, after: Option<u32>) -> Option<u32>
        ensures found { IfSome result (λ number. IsNumberAbove self.now after number) }
        ensures none { IfNone result ((slot n : ℕ) → number_at self.now slot ≡ Some n → is_above after n ≡ false) }
    {
        let place = place_above(&self.entries, after);
        if place < self.entries.len() {
            return Some(self.entries[place].number);
        }
        None
    }

    /// Takes a slot's number away.
    fn clear(&mut self, old: Entry)
        requires { number_at self.old old.slot ≡ Some old.number }
        ensures { self.new ≡ slice_set self.old old.slot None }
    {
        let place = place_of(&self.entries, old);
        self.entries.remove(place);
        self.numbers[old.slot as usize] = None;
    }

    /// Takes a slot's number away, if it has one.
    fn unset(&mut self, slot: u16)
        requires { slot < length self.old }
        ensures { self.new ≡ slice_set self.old slot None }
    {
        if let Some(old) = self.numbers[slot as usize] {
            self.clear(Entry { number: old, slot });
        }
    }

    /// Gives a slot without a number one.
    fn fill(&mut self, new: Entry)
        requires below { new.slot < length self.old }
        requires none { number_at self.old new.slot ≡ None }
        ensures { self.new ≡ slice_set self.old new.slot (Some new.number) }
    {
        let place = place_of(&self.entries, new);
        let Ok(()) = self.entries.insert(place, new) else {
            unreachable!()
        };
        self.numbers[new.slot as usize] = Some(new.number);
    }

    /// Gives a slot that has a number another. Only the entries between both places move.
    fn renumber(&mut self, old: Entry, new: Entry)
        requires has { number_at self.old old.slot ≡ Some old.number }
        requires slot { new.slot ≡ old.slot }
        ensures { self.new ≡ slice_set self.old old.slot (Some new.number) }
    {
        let from = place_of(&self.entries, old);
        let to = place_without(&self.entries, from, new);
        turn(&mut self.entries, from, to, new);
        self.numbers[old.slot as usize] = Some(new.number);
    }
}

/// Takes the entry of a place out, and inserts one at a place among the others.
fn turn(entries: &mut Vec<Entry>, from: usize, to: usize, new: Entry)
    requires from { from < length entries.old.items }
    requires to { to < length entries.old.items }
    ensures turned { entries.new.items ≡ insert (remove entries.old.items from) to new }
    ensures capacity { vec_capacity entries.new ≡ vec_capacity entries.old }
{
    if from < to {
        move_down(entries, from, to);
    } else {
        move_up(entries, from, to);
    }
    entries[to] = new;
}

/// Moves the entries from behind a place up to a later one, each one place down.
fn move_down(entries: &mut Vec<Entry>, from: usize, to: usize)
    requires from { from ≤ to }
    requires to { to < length entries.old.items }
    ensures moved { (new : Entry) → slice_set entries.new.items to new ≡ insert (remove entries.old.items from) to new }
    ensures len { length entries.new.items ≡ length entries.old.items }
    ensures capacity { vec_capacity entries.new ≡ vec_capacity entries.old }
{
    for place in from..to {
        entries[place] = entries[place + 1];
    }
}

/// Moves the entries from a place up to before a later one, each one place up.
fn move_up(entries: &mut Vec<Entry>, from: usize, to: usize)
    requires to { to ≤ from }
    requires from { from < length entries.old.items }
    ensures moved { (new : Entry) → slice_set entries.new.items to new ≡ insert (remove entries.old.items from) to new }
    ensures len { length entries.new.items ≡ length entries.old.items }
    ensures capacity { vec_capacity entries.new ≡ vec_capacity entries.old }
{
    let mut place = from;
    while to < place {
        entries[place] = entries[place - 1];
        place -= 1;
    }
}

/// Each slot that has a number, by its number.
fn in_order(alloc: Global, numbers: &[Option<u32>]) -> Result<Vec<(u32, u16)>, AllocError>
    requires { length numbers.now < 2 ^ 16 }
    ensures { IfOk result (λ pairs. AreOf numbers.now pairs.items) }
{
    let mut pairs = pairs_of(alloc, numbers)?;
    pairs.sort()?;
    Ok(pairs)
}

fn pairs_of(alloc: Global, numbers: &[Option<u32>]) -> Result<Vec<(u32, u16)>, AllocError>
    requires { length numbers.now < 2 ^ 16 }
    ensures { IfOk result (λ pairs. AreOf numbers.now pairs.items) }
{
    let mut pairs = Vec::with_capacity(alloc, numbers.len())?;
    for slot in 0..numbers.len() as u16 {
        if let Some(number) = numbers[slot as usize] {
            pairs.push((number, slot))?;
        }
    }
    Ok(pairs)
}

fn no_numbers(alloc: Global, slots: u16) -> Result<Vec<Option<u32>>, AllocError>
    ensures slots { IfOk result (λ numbers. length numbers.items ≡ slots) }
    ensures few { slots < 2 ^ 16 }
    ensures none { IfOk result (λ numbers. (slot : ℕ) → number_at numbers.items slot ≡ None) }
    ensures count { IfOk result (λ numbers. count_by is_none numbers.items ≡ slots) }
{
    let mut numbers = Vec::with_capacity(alloc, slots as usize)?;
    for _ in 0..slots {
        numbers.push(None)?;
    }
    Ok(numbers)
}

/// How many entries aren't above a number.
fn place_above(entries: &[Entry], after: Option<u32>) -> usize
    requires rising { AreRising entries.now }
    requires slots { (i : ℕ) → i < length entries.now → (entry_at entries.now i).slot < 65535 }
    ensures bound { result ≤ length entries.now }
    ensures before { (i : ℕ) → i < result → is_above after (entry_at entries.now i).number ≡ false }
    ensures after { (i : ℕ) → result ≤ i → i < length entries.now → is_above after (entry_at entries.now i).number ≡ true }
{
    match after {
        None => 0,
        Some(number) => place_of(
            entries,
            Entry {
                number,
                slot: u16::MAX,
            },
        ),
    }
}

/// How many entries come before one. Where slots have the numbers from 0 on, that is its number, which is tried first.
fn place_of(entries: &[Entry], sought: Entry) -> usize
    requires { AreRising entries.now }
    ensures bound { result ≤ length entries.now }
    ensures before { (i : ℕ) → i < result → is_before (entry_at entries.now i) sought ≡ true }
    ensures after { (i : ℕ) → result ≤ i → i < length entries.now → is_before (entry_at entries.now i) sought ≡ false }
{
    let place = sought.number as usize;
    if place < entries.len()
        && are_before(entries, sought, place)
        && none_is_before(entries, sought, place)
    {
        return place;
    }
    place_by_halving(entries, sought)
}

/// How many of the entries but one come before another, which may take the place of that one.
fn place_without(entries: &[Entry], out: usize, sought: Entry) -> usize
    requires rising { AreRising entries.now }
    requires bound { out < length entries.now }
    ensures bound { result < length entries.now }
    ensures before { (i : ℕ) → i < result → is_before (entry_at (remove entries.now out) i) sought ≡ true }
    ensures after { (i : ℕ) → result ≤ i → i < length (remove entries.now out) → is_before (entry_at (remove entries.now out) i) sought ≡ false }
{
    if fits_at(entries, out, sought) {
        return out;
    }
    let place = place_of(entries, sought);
    if out < place { place - 1 } else { place }
}

/// Whether an entry may take the place of another.
fn fits_at(entries: &[Entry], place: usize, new: Entry) -> bool
    requires rising { AreRising entries.now }
    requires bound { place < length entries.now }
    ensures before { result ≡ true → (i : ℕ) → i < place → is_before (entry_at entries.now i) new ≡ true }
    ensures after { result ≡ true → (i : ℕ) → place < i → i < length entries.now → is_before (entry_at entries.now i) new ≡ false }
{
    are_before(entries, new, place)
        && (place + 1 == entries.len() || none_is_before(entries, new, place + 1))
}

/// Whether so many entries come before one.
fn are_before(entries: &[Entry], sought: Entry, place: usize) -> bool
    requires rising { AreRising entries.now }
    requires bound { place < length entries.now }
    ensures { result ≡ true → (i : ℕ) → i < place → is_before (entry_at entries.now i) sought ≡ true }
{
    if place == 0 {
        return true;
    }
    comes_before(entries[place - 1], sought)
}

/// Whether from a place on no entry comes before one.
fn none_is_before(entries: &[Entry], sought: Entry, place: usize) -> bool
    requires rising { AreRising entries.now }
    requires bound { place < length entries.now }
    ensures { result ≡ true → (i : ℕ) → place ≤ i → i < length entries.now → is_before (entry_at entries.now i) sought ≡ false }
{
    !comes_before(entries[place], sought)
}

fn place_by_halving(entries: &[Entry], sought: Entry) -> usize
    requires { AreRising entries.now }
    ensures bound { result ≤ length entries.now }
    ensures before { (i : ℕ) → i < result → is_before (entry_at entries.now i) sought ≡ true }
    ensures after { (i : ℕ) → result ≤ i → i < length entries.now → is_before (entry_at entries.now i) sought ≡ false }
{
    let mut low = 0;
    let mut high = entries.len();
    while low < high {
        let middle = low + (high - low) / 2;
        if comes_before(entries[middle], sought) {
            low = middle + 1;
        } else {
            high = middle;
        }
    }
    low
}

fn comes_before(a: Entry, b: Entry) -> bool
    ensures { result ≡ is_before a b }
{
    a.number < b.number || (a.number == b.number && a.slot < b.slot)
}
