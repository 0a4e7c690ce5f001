//! The transactions that have a commit line.
ghost use Rattle.std.specs.Prelude.{◌≡◌, ◌<◌, ◌^◌, ◌++◌, ◌∷◌, [], length, vec_len, OnOk};
ghost use Rattle.jn_base.specs.Names.{tid_eq};
ghost use Rattle.jn_serial.specs.Lines.{has_tid};

use jn_base::Tid;
use std::alloc::{AllocError, Global};

/// The transactions that have a commit line, in the order of these lines.
#[derive(Drop)]
pub struct Named {
    pub(crate) names: Vec<Tid>,
    ghost few: { vec_len names < 2 ^ 32 },
}

fn is_same(a: Tid, b: Tid) -> bool
    ensures { result ≡ tid_eq a b }
{
    a.server.0 == b.server.0 && (a.epoch == b.epoch && a.ticket == b.ticket)
}

/// Whether the transaction is among these, looked for from the last one on.
fn is_in(names: &[Tid], tid: Tid) -> bool
    ensures { result ≡ has_tid names.now tid }
{
    let mut left = names.len();
    while left > 0 {
        left -= 1;
        if is_same(names[left], tid) {
            return true;
        }
    }
    false
}

impl Named {
    pub fn new(alloc: Global) -> Named
        ensures { result.names.items ≡ [] }
    {
        Named {
            names: Vec::new(alloc),
        }
    }

    /// Whether the transaction has a line.
    pub fn has(&self, tid: Tid) -> bool
        ensures { result ≡ has_tid self.now.names.items tid }
    {
        is_in(&self.names, tid)
    }

    /// The transaction has one more line. More lines than a number of 32 bits counts are taken as want of memory.
    pub fn add(&mut self, tid: Tid) -> Result<(), AllocError>
        ensures { OnOk result (self.new.names.items ≡ self.old.names.items ++ tid ∷ []) }
    {
        if self.names.len() >= u32::MAX as usize {
            return Err(AllocError);
        }
        self.names.push(tid)?;
        Ok(())
    }

    /// How many commit lines there are.
    pub fn count(&self) -> u32
        ensures { result ≡ length self.now.names.items }
    {
        self.names.len() as u32
    }
}
