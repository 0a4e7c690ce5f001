//! Why bytes are no image, and why an image is unsound.
ghost use Rattle.std.specs.Prelude.{◌≡◌};
ghost use Rattle.jn_image.specs.Faults as faults;
ghost use Rattle.jn_image.specs.Unsound as unsound;

use std::alloc::{AllocError, AllocFailed};
use thiserror::Error;

/// What is wrong with bytes that are no image: the first that holds, in this order, but `Short` also behind
/// `Geometry`, where there are fewer bytes than the counts ask for.
#[derive(Clone, Copy, Debug, PartialEq, Eq, Drop, Error)]
pub enum BadImage {
    /// There are fewer than the 16 bytes of the header, or than there are to be by it.
    #[error("there are too few bytes")]
    Short,
    /// They don't begin with `JUNIMAGE`.
    #[error("the bytes do not begin with JUNIMAGE")]
    Magic,
    /// The version isn't 1 or 2.
    #[error("the version is not 1 or 2")]
    Version,
    /// The server is above 7, or a count isn't in its range.
    #[error("the server or a count is not in its range")]
    Geometry,
    /// A page's status is above 1.
    #[error("the status of a page is above 1")]
    Status,
    /// The digest isn't that of the bytes before it.
    #[error("the digest is not that of the bytes before it")]
    Digest,
    /// There are more bytes than there are to be.
    #[error("there are too many bytes")]
    Trailing,
}

impl BadImage {
    /// The number by which the fault is reported, 1 to 7.
    pub fn number(self) -> u8
        ensures { result ≡ faults.image_fault_number self }
    {
        match self {
            BadImage::Short => 1,
            BadImage::Magic => 2,
            BadImage::Version => 3,
            BadImage::Geometry => 4,
            BadImage::Status => 5,
            BadImage::Digest => 6,
            BadImage::Trailing => 7,
        }
    }
}

/// Why an image was not read.
#[derive(Clone, Copy, Debug, PartialEq, Eq, Drop, Error)]
pub enum DecodeError {
    #[error("no image: {0}")]
    Bad(BadImage),
    #[error("there is no memory")]
    Memory,
}

impl From<AllocError> for DecodeError {
    ghost use Rattle.jn_image.specs.declared.fault.DecodeError.TheVariants as errors;

    ghost from_gives = { λ _ e. e ≡ errors.Memory };

    fn from(_e: AllocError) -> DecodeError {
        DecodeError::Memory
    }
}

/// Why an image is unsound: the first that holds, in this order. Indices count from 0, each among its kind.
#[derive(Clone, Copy, Debug, PartialEq, Eq, Drop, Error)]
pub enum Unsound {
    /// It is another server's.
    #[error("the image is another server's")]
    Server,
    /// Stable page 0 isn't a root with the image's version and server and these counts.
    #[error("the root is none")]
    Root,
    /// This physical page is bad.
    #[error("page {0} is bad")]
    BadPage(u32),
    /// The halves of this stable page differ.
    #[error("the halves of page {0} differ")]
    PairDiffers(u32),
    /// This slot of the pool isn't free.
    #[error("record {0} of the pool is in use")]
    PoolInUse(u32),
    /// Two heads have this file.
    #[error("two heads have file {0}")]
    SameFile(u32),
    /// This head's page is no head of the image's version, or has an address past the data pages. A head of version 1 has no
    /// map pages.
    #[error("head {0} is none, or has an address past the data pages")]
    Address(u32),
    /// This data page is named as a map page and is none, or has an address past the data pages.
    #[error("data page {0} is named as a map page and is none")]
    MapPage(u32),
    /// This data page's index and 1 is written twice, in heads or in map pages.
    #[error("address {0} is named twice")]
    AddressTwice(u32),
    /// This data page has other bytes than zeros behind its block.
    #[error("data page {0} has more than its block")]
    DataTail(u32),
}

impl Unsound {
    /// The number by which the fault is reported, 1 to 10. That of a map page is 10, though it is looked for before 8.
    pub fn number(self) -> u8
        ensures { result ≡ (unsound.reported self).0 }
    {
        match self {
            Unsound::Server => 1,
            Unsound::Root => 2,
            Unsound::BadPage(_) => 3,
            Unsound::PairDiffers(_) => 4,
            Unsound::PoolInUse(_) => 5,
            Unsound::SameFile(_) => 6,
            Unsound::Address(_) => 7,
            Unsound::MapPage(_) => 10,
            Unsound::AddressTwice(_) => 8,
            Unsound::DataTail(_) => 9,
        }
    }

    /// The place or the name that is reported with it.
    pub fn argument(self) -> Option<u32>
        ensures { result ≡ (unsound.reported self).1 }
    {
        match self {
            Unsound::Server | Unsound::Root => None,
            Unsound::BadPage(n)
            | Unsound::PairDiffers(n)
            | Unsound::PoolInUse(n)
            | Unsound::SameFile(n)
            | Unsound::Address(n)
            | Unsound::MapPage(n)
            | Unsound::AddressTwice(n)
            | Unsound::DataTail(n) => Some(n),
        }
    }
}

/// Why an image wasn't found sound.
#[derive(Clone, Copy, Debug, PartialEq, Eq, Drop, Error)]
pub enum CheckError {
    #[error("the image is not sound: {0}")]
    Unsound(Unsound),
    #[error("there is no memory")]
    Memory,
}

impl From<AllocError> for CheckError {
    ghost use Rattle.jn_image.specs.declared.fault.CheckError.TheVariants as errors;

    ghost from_gives = { λ _ e. e ≡ errors.Memory };

    fn from(_e: AllocError) -> CheckError {
        CheckError::Memory
    }
}

impl<T: Drop> From<AllocFailed<T>> for CheckError {
    ghost use Rattle.jn_image.specs.declared.fault.CheckError.TheVariants as errors;

    ghost from_gives = { λ _ e. e ≡ errors.Memory };

    fn from(_e: AllocFailed<T>) -> CheckError {
        CheckError::Memory
    }
}
