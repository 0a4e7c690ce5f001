//! The works that a message names.

ghost use Rattle.std.specs.Prelude.{◌≡◌, [], ◌∷◌, ◌++◌, is_ok, if◌then◌else◌};

use jn_base::WorkId;
use std::alloc::AllocError;
use std::marker::Model;

/// The works of a transaction, in the order in which its client opened them: contracts see the list.
#[derive(Drop)]
pub struct Works {
    items: Vec<WorkId>,
}

impl Model for Works {
    ghost use Rattle.std.specs.Prelude.{List};
    ghost use Rattle.jn_base.specs.declared.names.WorkId.{WorkId};

    ghost Value = { List WorkId };

    ghost view = { λ w. w.items.items };
}

impl Works {
    pub fn from_vec(items: Vec<WorkId>) -> Works
        ensures { result ≡ items.items }
    {
        Works { items }
    }

    pub fn into_vec(self) -> Vec<WorkId>
        ensures { result.items ≡ self }
    {
        let Works { items } = self;
        items
    }

    /// Adds a work. Without memory nothing changes.
    pub fn push(&mut self, work: WorkId) -> Result<(), AllocError>
        ensures { self.new ≡ (if is_ok result then self.old ++ work ∷ [] else self.old) }
    {
        self.items.push(work)?;
        Ok(())
    }

    pub fn as_slice(&self) -> &[WorkId]
        ensures { result.now ≡ self.now }
    {
        self.items.as_slice()
    }
}
