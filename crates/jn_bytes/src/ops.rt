//! Operations in a row.

ghost use Rattle.std.specs.Prelude.{◌≡◌, [], ◌∷◌, ◌++◌, is_ok, if◌then◌else◌, option_to_list, IfNone};

use jn_base::Op;
use std::alloc::{AllocError, Global};
use std::marker::Model;

/// Operations that are asked one after another: contracts see the list.
#[derive(Drop)]
pub struct Ops {
    items: Vec<Op>,
}

impl Model for Ops {
    ghost use Rattle.std.specs.Prelude.{List};
    ghost use Rattle.jn_base.specs.declared.op.Op.{Op};

    ghost Value = { List Op };

    ghost view = { λ o. o.items.items };
}

impl Ops {
    /// None of them.
    pub fn new(alloc: Global) -> Ops
        ensures { result ≡ [] }
    {
        Ops {
            items: Vec::new(alloc),
        }
    }

    /// Adds one at the end. Without memory nothing changes.
    pub fn push(&mut self, op: Op) -> Result<(), AllocError>
        ensures { self.new ≡ (if is_ok result then self.old ++ op ∷ [] else self.old) }
    {
        self.items.push(op)?;
        Ok(())
    }

    /// The first one, which is no longer there then.
    pub fn take_first(&mut self) -> Option<Op>
        ensures first { self.old ≡ option_to_list result ++ self.new }
        ensures none { IfNone result (self.old ≡ []) }
    {
        if self.items.is_empty() {
            return None;
        }
        Some(self.items.remove(0))
    }
}
