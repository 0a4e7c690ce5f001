//! How a call of the program ends.

ghost use Rattle.std.specs.Prelude.{◌≡◌};
ghost use Rattle.jn_status.specs.Codes.{code_of};

/// How a call of the program ended, each with the exit status of the process.
#[derive(Clone, Copy, Debug, PartialEq, Eq)]
pub enum Status {
    /// 0: all was done.
    Done,
    /// 2: the words aren't a command.
    Words,
    /// 3: the bytes aren't a schedule.
    Schedule,
    /// 4: an image is missing, isn't one, or is unsound.
    Image,
    /// 5: the source failed.
    Read,
    /// 6: the sink failed.
    Write,
    /// 7: the keeper failed.
    Keep,
    /// 8: a limit was reached.
    Limit,
    /// 9: memory ran out.
    Memory,
    /// 10: others wait for what a server has: a work is prepared, or a transaction has a flag.
    Unsettled,
    /// 11: the bytes aren't frames.
    Frame,
}

impl Status {
    /// The exit status of the process.
    pub fn code(self) -> u8
        ensures { result ≡ code_of self }
    {
        match self {
            Status::Done => 0,
            Status::Words => 2,
            Status::Schedule => 3,
            Status::Image => 4,
            Status::Read => 5,
            Status::Write => 6,
            Status::Keep => 7,
            Status::Limit => 8,
            Status::Memory => 9,
            Status::Unsettled => 10,
            Status::Frame => 11,
        }
    }
}
