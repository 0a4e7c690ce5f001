//! The device that everything stands on: physical pages that decay, tear and fail for a moment.
//!
//! The faults are those of Lampson and Sturgis (1979): a get may fail for a moment, a put may write
//! nothing or spoil its page, a page may go bad by itself and become good again, and the device may
//! stop before, within or after a call. `specs/Device.antt` has the device's state,
//! `specs/Calls.antt` what one get and one put do, `specs/Events.antt` what befalls it between
//! calls, and `specs/Later.antt` what every run of these keeps.
#![tactic(auto)]

ghost use Rattle.std.specs.Prelude.{◌≡◌};
ghost use Rattle.jn_device.specs.Device.{blank_page};

use jn_base::{FaultKind, Page};

/// What a device answers to a get.
#[derive(Clone, Copy, Debug, PartialEq, Eq)]
pub enum Look {
    Good(Page),
    LooksBad,
}

/// A physical page as it is kept: a bad page keeps its bytes, which no call sees.
#[derive(Clone, Copy, Debug, PartialEq, Eq)]
pub struct Half {
    pub good: bool,
    pub bytes: Page,
}

/// A fault that waits.
#[derive(Clone, Copy, Debug, PartialEq, Eq)]
pub struct Armed {
    /// The number of calls until it strikes, from 1.
    pub after: u32,
    pub kind: FaultKind,
}

/// What becomes of a get.
#[derive(Clone, Copy, Debug, PartialEq, Eq)]
pub enum GetOutcome {
    /// Nothing is done, and Stopped is answered.
    Unread,
    /// The page is read.
    Reads,
    /// A good page looks bad.
    Misreads,
    /// The page is read, and Stopped is answered.
    ReadsAndStops,
}

/// What becomes of a put.
#[derive(Clone, Copy, Debug, PartialEq, Eq)]
pub enum PutOutcome {
    /// Nothing is done, and Stopped is answered.
    Unwritten,
    /// The page is written.
    Writes,
    /// Nothing is written, unnoticed.
    Misses,
    /// The page is bad, unnoticed.
    Spoils,
    /// The page is bad, and Stopped is answered.
    Tears,
    /// The page is written, and Stopped is answered.
    WritesAndStops,
}

/// A page of zeros.
#[tactic(auto, unfolding(crate::specs::Device::blank_page))]
pub fn blank_page() -> Page
    ensures { result ≡ blank_page }
{
    [0; 512]
}
