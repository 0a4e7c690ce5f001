//! What a device of pages meets.

use thiserror::Error;

/// The bytes of a page.
pub type Page = [u8; 512];

/// The device has no power.
#[derive(Clone, Copy, Debug, PartialEq, Eq, Drop, Error)]
#[error("the device has no power")]
pub struct Stopped;

/// A fault of the device. A page's number stands where the fault strikes another page than the call's.
#[derive(Clone, Copy, Debug, PartialEq, Eq)]
pub enum FaultKind {
    /// A get finds a good page bad.
    Soft,
    /// A put writes nothing.
    Null,
    /// A put spoils its page.
    Bad,
    /// A page goes bad.
    Decay(u32),
    /// A bad page is good again, with the bytes that it kept.
    Revive(u32),
    /// The device stops before the call.
    StopBefore,
    /// The device stops within a put, whose page goes bad.
    StopTorn,
    /// The device stops after the call.
    StopAfter,
}

/// A fault that wasn't allowed, or didn't fit its call, and its page.
#[derive(Clone, Copy, Debug, PartialEq, Eq)]
pub struct Outside {
    pub kind: FaultKind,
    pub page: u32,
}
