//! How many pages a server has.
ghost use Rattle.std.specs.Prelude.{◌≡◌, ◌+◌};

/// How many pages of each kind there are behind a server's root: records, heads and data pages. No call ever changes them.
#[derive(Clone, Copy, Debug, PartialEq, Eq, Drop)]
pub struct PageCounts {
    pub pool: u16,
    pub heads: u16,
    pub leaves: u16,
}

impl PageCounts {
    /// How many pages root, records and heads take.
    pub(crate) fn front(self) -> u32
        ensures { result ≡ 1 + self.pool + self.heads }
    {
        1 + u32::from(self.pool) + u32::from(self.heads)
    }
}
