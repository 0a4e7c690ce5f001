//! How many lines of each kind a report has.
ghost use Rattle.std.specs.Prelude.{◌≡◌, []};
ghost use Rattle.jn_summary.specs.Summary.{counted, line_counts, more};

use jn_report::{Text, is_aborted, is_commit, is_outside, is_refused, is_stopped};

/// How many lines of each kind there were. A count stands still at its type's last number.
#[derive(Clone, Copy)]
pub(crate) struct Counts {
    pub(crate) commits: u64,
    pub(crate) aborted: u64,
    pub(crate) refused: u64,
    pub(crate) stopped: u64,
    pub(crate) outside: u64,
}

impl Counts {
    /// The counts of no lines.
    pub(crate) fn new() -> Counts
        ensures { result ≡ line_counts [] }
    {
        Counts {
            commits: 0,
            aborted: 0,
            refused: 0,
            stopped: 0,
            outside: 0,
        }
    }

    /// The counts with one line more.
    pub(crate) fn with(self, text: &Text) -> Counts
        ensures { result ≡ counted self text.now }
    {
        Counts {
            commits: more(is_commit(text), self.commits),
            aborted: more(is_aborted(text), self.aborted),
            refused: more(is_refused(text), self.refused),
            stopped: more(is_stopped(text), self.stopped),
            outside: more(is_outside(text), self.outside),
        }
    }
}

fn more(one: bool, count: u64) -> u64
    ensures { result ≡ more one count }
{
    if one { count.saturating_add(1) } else { count }
}
