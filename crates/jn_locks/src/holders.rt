//! The works that hold one unit.

ghost use Rattle.std.specs.Prelude.{◌≡◌, ◌||◌, ◌+◌, ◌≤◌, ◌<◌, true, vec_len, vec_capacity};
ghost use Rattle.jn_locks.specs.declared.words.Mode.{Mode};
ghost use Rattle.jn_locks.specs.declared.words.Mode.TheVariants.{IntentionWrite};
ghost use Rattle.jn_locks.specs.Holders as holders;

use crate::modes::{NO_MODES, union};
use crate::order::work_eq;
use crate::words::{Holder, Modes};
use jn_base::WorkId;

pub(crate) fn is_among(all: &[Holder], work: WorkId) -> bool
    ensures { result ≡ holders.is_among all.now work }
{
    for h in all {
        if work_eq(h.work, work) {
            return true;
        }
    }
    false
}

/// Whether the work holds the unit for intention-write.
pub(crate) fn is_intended(all: &[Holder], work: WorkId) -> bool
    ensures { result ≡ holders.holds_in all.now work IntentionWrite }
{
    for h in all {
        if h.modes.intention_write && work_eq(h.work, work) {
            return true;
        }
    }
    false
}

/// The modes in which the work holds the unit.
pub(crate) fn modes_of(all: &[Holder], work: WorkId) -> Modes
    ensures { (m : Mode) → holders.has result m ≡ holders.holds_in all.now work m }
{
    let mut modes = NO_MODES;
    for h in all {
        if work_eq(h.work, work) {
            modes = union(modes, h.modes);
        }
    }
    modes
}

/// The work holds the unit no more.
pub(crate) fn drop_work(all: &mut Vec<Holder>, work: WorkId)
    ensures items { all.new.items ≡ holders.without work all.old.items }
    ensures len { vec_len all.new ≤ vec_len all.old }
    ensures room { (holders.is_among all.old.items work || holders.has_room all.old) ≡ true → holders.has_room all.new ≡ true }
{
    all.retain(|h| !work_eq(work, h.work));
}

/// The work holds the unit in these modes alone. It held it, or there is room for one more.
pub(crate) fn put_modes(all: &mut Vec<Holder>, work: WorkId, modes: Modes)
    requires { (holders.is_among all.old.items work || holders.has_room all.old) ≡ true }
    ensures { all.new.items ≡ holders.with_holder work modes all.old.items }
{
    drop_work(all, work);
    all.push_reserved(Holder { work, modes });
}
