//! The commit flags of a storage.
ghost use Rattle.std.specs.Prelude.{◌≡◌, ◌≤◌, [], not, filter, length, vec_len, vec_capacity};
ghost use Rattle.jn_base.specs.declared.names.Tid.{Tid};
ghost use Rattle.jn_base.specs.Names as names;
ghost use Rattle.jn_records.specs.declared.flag.Flag.{Flag};
ghost use Rattle.jn_storage.specs.Calls.{tid_of};

use crate::Intents;
use crate::intents::Room;
use jn_base::{Short, Stopped, Tid, WorkId};
use jn_records::{Flag, ListOf, Record};
use jn_sets::record_fits;
use jn_storage::{FlagStore, PromiseFault};
use jn_store::StableStore;
use std::alloc::Global;

impl<S: StableStore> FlagStore for Intents<S> {
    fn promise(&mut self, alloc: Global) -> Result<(), PromiseFault> {
        let free = self.sets.free() - self.rooms.len() as u32;
        if free < 1 {
            return Err(PromiseFault::Short(Short { free, need: 1 }));
        }
        self.flags.reserve(self.rooms.len() + 1)?;
        self.rooms.reserve(1)?;
        let stored = Vec::with_capacity(alloc, 8)?;
        let listed = Vec::with_capacity(alloc, 8)?;
        self.rooms.push_reserved(Room { stored, listed });
        Ok(())
    }

    fn release_promise(&mut self) {
        self.rooms.pop();
    }

    fn put_flag(&mut self, flag: &Flag) -> Result<(), Stopped> {
        let Some(room) = self.rooms.pop() else {
            unreachable!()
        };
        let record = Record::Flag(copied(flag, room.stored));
        record_fits(&record);
        let Ok(_slot) = self.sets.insert(&mut self.store, record) else {
            return Err(Stopped);
        };
        self.flags.push_reserved(copied(flag, room.listed));
        Ok(())
    }

    fn drop_flag(&mut self, t: Tid) -> Result<(), Stopped> {
        let Some(slot) = self.sets.flag_slot(t) else {
            unreachable!()
        };
        self.sets.remove(&mut self.store, slot)?;
        take_flag(&mut self.flags, t);
        Ok(())
    }

    fn flags(&self) -> &[Flag] {
        &self.flags
    }
}

/// The flag, in room that was made for its works.
fn copied(flag: &Flag, mut room: Vec<WorkId>) -> Flag
    requires empty { room.items ≡ [] }
    requires enough { length flag.now.works ≤ vec_capacity room }
    ensures { result ≡ flag.now }
{
    for work in flag.works.as_slice() {
        room.push_reserved(*work);
    }
    Flag {
        tid: flag.tid,
        client: flag.client,
        request: flag.request,
        works: ListOf::from_vec(room),
    }
}

/// Takes away the flag of a transaction.
fn take_flag(flags: &mut Vec<Flag>, t: Tid)
    ensures items { flags.new.items ≡ filter (λ (flag : Flag). not (names.tid_eq t (tid_of flag))) flags.old.items }
    ensures fewer { vec_len flags.new ≤ vec_len flags.old }
    ensures capacity { vec_capacity flags.new ≡ vec_capacity flags.old }
{
    flags.retain(|flag| t != flag.tid);
}
