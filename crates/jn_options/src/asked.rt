//! What the program is asked for.
ghost use Rattle.std.specs.Prelude.{◌≡◌};
ghost use Rattle.jn_options.specs.Words.{is_of};

use crate::name::Name;
use jn_base::ServerNo;

/// What the program is to do.
#[derive(Drop)]
pub enum Command {
    /// To run a schedule.
    Run(Options),
    /// To run a schedule that a seed makes.
    Trial(Trial),
    /// To serve one server, whose messages come from outside.
    Node(Node),
}

/// The options of a run.
#[derive(Drop)]
pub struct Options {
    /// How many servers there are: 1 to 8, 1 where none is given.
    pub servers: u8,
    /// What the servers' disks hold at first.
    pub opening: Opening,
    /// The name of the images that are kept of the disks at the end, where one is given.
    pub closing: Option<Name>,
    /// Whether each message that is sent is reported.
    pub trace: bool,
}

/// What the disks of a run hold at first.
#[derive(Drop)]
pub enum Opening {
    /// Nothing: they are new, with pages of these counts.
    New(Geometry),
    /// What the images of this name hold, which have the counts of their pages in them.
    Images(Name),
}

/// How many pages of each kind a server has.
#[derive(Clone, Copy, Debug, PartialEq, Eq)]
pub struct Geometry {
    /// How many records its pool has: 1 to 1,000, 32 where none is given.
    pub pool: u16,
    /// How many heads of files it has: 1 to 1,000, 16 where none is given.
    pub heads: u16,
    /// How many data pages it has: 1 to 8,000, 128 where none is given.
    pub leaves: u16,
}

/// A run whose schedule is made of a seed.
#[derive(Clone, Copy, Debug, PartialEq, Eq)]
pub struct Trial {
    /// What the schedule is made of.
    pub seed: u64,
    /// How many events it has: 1 to 100,000.
    pub events: u32,
}

/// One server that is served.
#[derive(Drop)]
pub struct Node {
    /// Which server it is: 0 to 7.
    pub server: ServerNo,
    /// The name of the images of which its disk is one at first.
    pub opening: Name,
    /// The name of the images of which its disk is one at the end: another.
    pub closing: Name,
}

impl Opening {
    /// Whether the disks hold what the images of this name hold.
    pub(crate) fn is_of(&self, name: &str) -> bool
        ensures { result ≡ is_of name.now self.now }
    {
        match self {
            Opening::New(_) => false,
            Opening::Images(own) => own.as_str() == name,
        }
    }
}
