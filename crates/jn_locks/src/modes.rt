//! The modes in which one work holds one unit.

ghost use Rattle.std.specs.Prelude.{◌≡◌, ◌||◌, true, false};
ghost use Rattle.jn_locks.specs.declared.words.Mode.{Mode};
ghost use Rattle.jn_locks.specs.Locks.{mode_eq};
ghost use Rattle.jn_locks.specs.Holders as holders;

use crate::order::together;
use crate::words::{Mode, Modes};

pub(crate) const NO_MODES: Modes = Modes {
    read: false,
    intention_write: false,
    commit: false,
};

pub(crate) fn has(modes: Modes, mode: Mode) -> bool
    ensures { result ≡ holders.has modes mode }
{
    match mode {
        Mode::Read => modes.read,
        Mode::IntentionWrite => modes.intention_write,
        Mode::Commit => modes.commit,
    }
}

/// These modes and one more.
pub(crate) fn with_mode(modes: Modes, mode: Mode) -> Modes
    ensures { result ≡ holders.with_mode modes mode }
{
    Modes {
        read: modes.read || matches!(mode, Mode::Read),
        intention_write: modes.intention_write || matches!(mode, Mode::IntentionWrite),
        commit: modes.commit || matches!(mode, Mode::Commit),
    }
}

pub(crate) fn union(a: Modes, b: Modes) -> Modes
    ensures { result ≡ holders.union a b }
{
    Modes {
        read: a.read || b.read,
        intention_write: a.intention_write || b.intention_write,
        commit: a.commit || b.commit,
    }
}

/// A commit lock in place of one for intention-write.
pub(crate) fn committed(modes: Modes) -> Modes
    ensures { result ≡ holders.committed modes }
{
    Modes {
        read: modes.read,
        intention_write: false,
        commit: modes.commit || modes.intention_write,
    }
}

/// Whether one of the modes doesn't go with another work's.
pub(crate) fn clashes(mode: Mode, modes: Modes) -> bool
    ensures { result ≡ holders.clashes mode modes }
{
    (modes.read && !together(mode, Mode::Read))
        || ((modes.intention_write && !together(mode, Mode::IntentionWrite))
            || (modes.commit && !together(mode, Mode::Commit)))
}
