//! A list of the numbers below a count that are free, some of which are promised.
//!
//! A server keeps one of its data pages and one of its heads. A promise keeps back as many numbers
//! as a prepared work will take, without saying which; so no work that is prepared finds too few.
#![tactic(auto)]

ghost use Rattle.std.specs.Prelude.{◌≡◌, ◌⊎◌, ◌<◌, ◌≤◌, ◌+◌, ◌-◌, ◌^◌, ◌↔◌, ℕ, Bool, true, false, not, length, List, count_by, slice_index_or, slice_set, IsSome, IsOk, IfOk, IfSome, IfNone, OnOk, OnErr, IfErr};
ghost use Rattle.jn_alloc.specs.Free.{IsBelowAll, count_of, is_free, free_count, IsLeastFree, with_free, with_promised, is_used};

use jn_base::Short;
use std::alloc::{AllocError, Global};
use std::marker::Model;

/// The numbers below a count: which of them are free, and how many of these are promised.
#[derive(Drop)]
pub struct FreeList {
    is_free: Vec<bool>,
    free: u32,
    promised: u32,
    /// No number below it is free.
    lowest: u16,
}

impl Model for FreeList {
    ghost use Rattle.std.specs.Prelude.{◌≡◌, ◌≤◌, length, count_by};
    ghost use Rattle.jn_alloc.specs.Free.{FreeNumbers, IsBelowAll};

    ghost Value = { FreeNumbers };

    ghost view = { λ f. record { flags = f.is_free.items; promised = f.promised } };

    ghost invariant = { λ f. (length f.is_free.items ≤ 65535) × (f.free ≡ count_by (λ free. free) f.is_free.items) × (f.promised ≤ f.free) × IsBelowAll f.is_free.items f.lowest };
}

impl FreeList {
    /// All numbers below the count but the used ones are free, and none is promised. A used number
    /// may stand twice, and one that isn't below the count means nothing.
    pub fn new(alloc: Global, count: u16, used: &[u16]) -> Result<Self, AllocError>
        ensures count { IfOk result (λ list. count_of list ≡ count) }
        ensures free { IfOk result (λ list. (a : ℕ) → a < count → is_free list a ≡ not (is_used used.now a)) }
        ensures promised { IfOk result (λ list. list.promised ≡ 0) }
    {
        let mut is_free = all_free(alloc, count)?;
        for a in used {
            clear(&mut is_free, *a);
        }
        let free = count_set(&is_free);
        Ok(FreeList {
            is_free,
            free,
            promised: 0,
            lowest: 0,
        })
    }

    /// Takes the least number that is free. Who has a promise releases it first.
    pub fn take(&mut self) -> Option<u16>
        requires { (free_count self.old ≡ 0) ⊎ (self.old.promised < free_count self.old) }
        ensures found { IsSome result ↔ (0 < free_count self.old) }
        ensures least { IfSome result (λ a. IsLeastFree self.old a) }
        ensures taken { IfSome result (λ a. self.new ≡ with_free self.old a false) }
        ensures fewer { IfSome result (λ _. free_count self.new + 1 ≡ free_count self.old) }
        ensures none { IfNone result (self.new ≡ self.old) }
    {
        let a = self.first()?;
        self.take_this(a);
        Some(a)
    }

    /// The least number that is free.
    pub fn first(&self) -> Option<u16>
        ensures found { IsSome result ↔ (0 < free_count self.now) }
        ensures least { IfSome result (λ a. IsLeastFree self.now a) }
    {
        let a = next_set(&self.is_free, self.lowest);
        if (a as usize) < self.is_free.len() {
            return Some(a);
        }
        None
    }

    /// Whether a number is free. One that isn't below the count is not.
    pub fn is_free(&self, a: u16) -> bool
        ensures { result ≡ is_free self.now a }
    {
        let a = a as usize;
        a < self.is_free.len() && self.is_free[a]
    }

    /// Takes this number, which is free. None of those promised is taken.
    pub fn take_this(&mut self, a: u16)
        requires free { is_free self.old a ≡ true }
        requires unpromised { (self.old.promised ≡ 0) ⊎ (self.old.promised < free_count self.old) }
        ensures taken { self.new ≡ with_free self.old a false }
        ensures fewer { free_count self.new + 1 ≡ free_count self.old }
    {
        self.is_free[a as usize] = false;
        self.free -= 1;
        self.lowest = next_set(&self.is_free, self.lowest);
    }

    /// Gives a number back.
    pub fn give(&mut self, a: u16)
        requires below { a < count_of self.old }
        requires used { is_free self.old a ≡ false }
        ensures given { self.new ≡ with_free self.old a true }
        ensures more { free_count self.new ≡ free_count self.old + 1 }
    {
        self.is_free[a as usize] = true;
        self.free += 1;
        self.lowest = self.lowest.min(a);
    }

    /// Promises so many of the free numbers, where so many are free and not promised.
    pub fn promise(&mut self, n: u32) -> Result<(), Short>
        ensures enough { IsOk result ↔ (n ≤ free_count self.old - self.old.promised) }
        ensures ok { OnOk result (self.new ≡ with_promised self.old (self.old.promised + n)) }
        ensures short { IfErr result (λ short. (short.free ≡ free_count self.old - self.old.promised) × (short.need ≡ n)) }
        ensures err { OnErr result (self.new ≡ self.old) }
    {
        let free = self.free - self.promised;
        if free < n {
            return Err(Short { free, need: n });
        }
        self.promised += n;
        Ok(())
    }

    /// Takes back the promise of so many.
    pub fn release(&mut self, n: u32)
        requires { n ≤ self.old.promised }
        ensures { self.new ≡ with_promised self.old (self.old.promised - n) }
    {
        self.promised -= n;
    }

    /// How many numbers are free, the promised ones among them.
    pub fn free(&self) -> u32
        ensures { result ≡ free_count self.now }
    {
        self.free
    }

    /// How many are promised, which are never more than are free.
    pub fn promised(&self) -> u32
        ensures promised { result ≡ self.now.promised }
        ensures kept { result ≤ free_count self.now }
    {
        self.promised
    }
}

fn all_free(alloc: Global, count: u16) -> Result<Vec<bool>, AllocError>
    ensures length { IfOk result (λ flags. length flags.items ≡ count) }
    ensures free { IfOk result (λ flags. (a : ℕ) → a < count → slice_index_or flags.items a false ≡ true) }
{
    let mut flags = Vec::with_capacity(alloc, count as usize)?;
    for _ in 0..count {
        flags.push(true)?;
    }
    Ok(flags)
}

/// Clears the flag at an index, where there is one.
fn clear(flags: &mut Vec<bool>, a: u16)
    ensures { flags.new.items ≡ slice_set flags.old.items a false }
{
    let a = a as usize;
    if a < flags.len() {
        flags[a] = false;
    }
}

fn count_set(flags: &[bool]) -> u32
    requires { length flags.now ≤ 65535 }
    ensures { result ≡ count_by (λ free. free) flags.now }
{
    let mut count = 0;
    for free in flags {
        if *free {
            count += 1;
        }
    }
    count
}

/// The least index from one on whose flag is set, or the length.
fn next_set(flags: &[bool], from: u16) -> u16
    requires few { length flags.now ≤ 65535 }
    requires below { IsBelowAll flags.now from }
    ensures below { IsBelowAll flags.now result }
    ensures set { result < length flags.now → slice_index_or flags.now result false ≡ true }
{
    for a in from..flags.len() as u16 {
        if flags[a as usize] {
            return a;
        }
    }
    flags.len() as u16
}
