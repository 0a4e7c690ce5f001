//! A server's disk.
ghost use Rattle.std.specs.Prelude.{◌≡◌, ◌<◌, ◌^◌, length};
ghost use Rattle.jn_records.specs.Pages.{format_version};
ghost use Rattle.jn_records.specs.StablePages.{page_count};
ghost use Rattle.jn_image.specs.Faults.{within};
ghost use Rattle.jn_image.specs.Form.{image_counts};
ghost use Rattle.jn_memdisk.specs.Pages.{half_at};

use jn_base::{Page, ServerNo};
use jn_device::Half;
use jn_records::{FORMAT_VERSION, ListOf};

/// Its version, whose disk it is, how many pages there are of each kind, and each physical page.
///
/// With N stable pages, stable page i is the physical pages i and i + N.
#[derive(Drop)]
pub struct Image {
    /// The version of the format, of the image and of its root: 1 or 2.
    pub version: u8,
    pub server: ServerNo,
    /// Pages of the pool of records.
    pub pool: u16,
    /// Heads of files.
    pub heads: u16,
    /// Data pages.
    pub leaves: u16,
    /// Each physical page, 2 N of them.
    pub pages: ListOf<Half>,
}

impl Image {
    /// How many stable pages there are.
    pub(crate) fn count(&self) -> usize
        ensures count { result ≡ page_count (image_counts self.now) }
        ensures few { result < 2 ^ 18 }
    {
        1 + self.pool as usize + self.heads as usize + self.leaves as usize
    }

    /// How many heads there are.
    pub(crate) fn head_count(&self) -> usize
        ensures count { result ≡ self.now.heads }
        ensures few { result < 2 ^ 16 }
    {
        self.heads as usize
    }

    /// How many data pages there are.
    pub(crate) fn leaf_count(&self) -> u16
        ensures count { result ≡ self.now.leaves }
        ensures few { result < 2 ^ 16 }
    {
        self.leaves
    }

    /// Whether a physical page is good.
    pub(crate) fn is_good(&self, p: usize) -> bool
        requires { p < length self.now.pages }
        ensures { result ≡ (half_at self.now.pages p).good }
    {
        self.pages.as_slice()[p].good
    }

    /// The bytes of a physical page.
    pub(crate) fn page(&self, p: usize) -> &Page
        requires { p < length self.now.pages }
        ensures { result.now ≡ (half_at self.now.pages p).bytes }
    {
        &self.pages.as_slice()[p].bytes
    }
}

/// Whether images of this version are read and written.
pub(crate) fn is_image_version(version: u8) -> bool
    ensures { result ≡ within format_version version }
{
    1 <= version && version <= FORMAT_VERSION
}

/// Whether a count is in its range.
pub(crate) fn is_within(limit: u16, n: u16) -> bool
    ensures { result ≡ within limit n }
{
    1 <= n && n <= limit
}
