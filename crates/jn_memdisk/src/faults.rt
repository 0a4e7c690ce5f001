// The faults that wait, and those that were outside the allowed ones.
ghost use Rattle.std.specs.Prelude.{◌≡◌, ◌≤◌, ◌<◌, ◌+◌, ◌++◌, ◌^◌, ℕ, [], ◌∷◌, length, vec_len, vec_capacity, IfOk, if◌then◌else◌, true};
ghost use Rattle.jn_device.specs.Calls.{due, waiting_on};
ghost use Rattle.jn_device.specs.Events.{is_taken, may_arm, is_within};
ghost use Rattle.jn_memdisk.specs.Faults.{list_of, all_within, Within};

use jn_base::{FaultKind, Outside};
use jn_device::Armed;
use std::alloc::{AllocError, Global};

/// How many faults may wait, and how many of them may be reported.
const ROOM: usize = 16;

/// Each fault that was reported is one that waited, so the room that `arm` asks for is never exceeded.
#[derive(Drop)]
pub(crate) struct Faults {
    pub(crate) waiting: Vec<Armed>,
    pub(crate) told: Vec<Outside>,
    ghost room: { vec_len told + vec_len waiting ≤ 16 },
    ghost waiting_room: { 16 ≤ vec_capacity waiting },
    ghost told_room: { 16 ≤ vec_capacity told },
}

impl Faults {
    pub(crate) fn new(alloc: Global) -> Result<Self, AllocError>
        ensures waiting { IfOk result (λ f. f.waiting.items ≡ []) }
        ensures told { IfOk result (λ f. f.told.items ≡ []) }
    {
        Ok(Faults {
            waiting: Vec::with_capacity(alloc, ROOM)?,
            told: Vec::with_capacity(alloc, ROOM)?,
        })
    }

    /// Takes the fault that strikes at this call, and brings the others nearer.
    pub(crate) fn strike(&mut self) -> Option<FaultKind>
        ensures struck { result ≡ due self.old.waiting.items }
        ensures waiting { self.new.waiting.items ≡ waiting_on self.old.waiting.items }
        ensures told { self.new.told.items ≡ self.old.told.items }
        ensures room { vec_len self.new.told + vec_len self.new.waiting + length (list_of result) ≤ 16 }
        ensures strikes_within { (count : ℕ) → all_within count self.old.waiting.items ≡ true → Within count result }
        ensures waits_within { (count : ℕ) → all_within count self.old.waiting.items ≡ true → all_within count self.new.waiting.items ≡ true }
    {
        strike(&mut self.waiting)
    }

    /// Keeps what was outside.
    pub(crate) fn tell(&mut self, outside: Option<Outside>)
        requires { vec_len self.old.told + vec_len self.old.waiting + length (list_of outside) ≤ 16 }
        ensures told { self.new.told.items ≡ self.old.told.items ++ list_of outside }
        ensures waiting { self.new.waiting.items ≡ self.old.waiting.items }
    {
        if let Some(fault) = outside {
            self.told.push_reserved(fault);
        }
    }

    /// Whether a fault waits for the n-th call.
    fn takes(&self, n: u32) -> bool
        ensures { result ≡ is_taken n self.now.waiting.items }
    {
        for w in &self.waiting {
            if w.after == n {
                return true;
            }
        }
        false
    }

    /// Lets a fault wait for the n-th call, if there is room and none waits for that call.
    pub(crate) fn arm(&mut self, n: u32, kind: FaultKind) -> bool
        requires { self.old.told.items ≡ [] }
        ensures answer { result ≡ may_arm n self.old.waiting.items }
        ensures waiting { self.new.waiting.items ≡ (if result then self.old.waiting.items ++ (record { after = n; kind = kind }) ∷ [] else self.old.waiting.items) }
        ensures told { self.new.told.items ≡ [] }
        ensures waits_within { (count : ℕ) → all_within count self.old.waiting.items ≡ true → is_within count kind ≡ true → all_within count self.new.waiting.items ≡ true }
    {
        if self.waiting.len() >= ROOM || self.takes(n) {
            return false;
        }
        self.waiting.push_reserved(Armed { after: n, kind });
        true
    }

    /// No fault waits any more.
    pub(crate) fn disarm(&mut self)
        ensures waiting { self.new.waiting.items ≡ [] }
        ensures told { self.new.told.items ≡ self.old.told.items }
    {
        self.waiting.clear();
    }

    /// Forgets what was reported.
    pub(crate) fn clear_told(&mut self)
        ensures told { self.new.told.items ≡ [] }
        ensures waiting { self.new.waiting.items ≡ self.old.waiting.items }
    {
        self.told.clear();
    }
}

/// Takes the fault that strikes now, and brings the others nearer.
pub(crate) fn strike(waiting: &mut Vec<Armed>) -> Option<FaultKind>
    ensures struck { result ≡ due waiting.old.items }
    ensures rest { waiting.new.items ≡ waiting_on waiting.old.items }
    ensures capacity { vec_capacity waiting.new ≡ vec_capacity waiting.old }
    ensures spent { vec_len waiting.new + length (list_of result) ≤ vec_len waiting.old }
{
    let mut struck = None;
    let mut i = 0;
    while i < waiting.len() {
        if waiting[i].after < 2 {
            let now = waiting.remove(i);
            if struck.is_none() {
                struck = Some(now.kind);
            }
        } else {
            let armed = &mut waiting[i];
            armed.after -= 1;
            i += 1;
        }
    }
    struck
}
