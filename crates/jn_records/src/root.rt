//! The root of a server's pages.
ghost use Rattle.std.specs.Prelude.{◌≡◌, ◌↔◌, Some, IfSome, IsTrue};
ghost use Rattle.jn_records.specs.declared.root.Root.{Root};
ghost use Rattle.jn_fields.specs.Reading.{Gives};
ghost use Rattle.jn_records.specs.Pages.{root_page, root_at, IsRoot, IsVersion};

use crate::page::same_page;
use jn_base::{Page, PageWriter, ServerNo};
use jn_fields::{bytes_at, u8_at, u16_at, u32_at};

/// The name of the format, at the front of the root.
const NAME: [u8; 4] = *b"JUN1";

/// The version of the format that is written.
pub const FORMAT_VERSION: u8 = 2;

/// Whether a version is read: the one that is written and the one before it.
fn is_version(version: u8) -> bool
    ensures { IsTrue result ↔ IsVersion version }
{
    version == 1 || version == FORMAT_VERSION
}

/// The root: whose pages these are, how many there are of each kind, and the epoch.
#[derive(Clone, Copy, Debug, PartialEq, Eq)]
pub struct Root {
    /// The version of the format: 1 or 2.
    pub version: u8,
    pub server: ServerNo,
    /// Pages of the pool of records.
    pub pool: u16,
    /// Heads of files.
    pub heads: u16,
    /// Data pages.
    pub leaves: u16,
    /// How often the server was started.
    pub epoch: u32,
}

impl Root {
    /// The page of the root.
    #[tactic(auto, unfolding(crate::specs::Pages::root_page))]
    pub fn encode(&self) -> Page
        requires { IsVersion self.now.version }
        ensures { result ≡ root_page self.now }
    {
        let mut page = PageWriter::new();
        page.put_bytes(&NAME);
        page.put_u8(self.version);
        page.put_u8(self.server.0);
        page.put_u16(self.pool);
        page.put_u16(self.heads);
        page.put_u16(self.leaves);
        page.put_u32(self.epoch);
        page.finish()
    }

    /// The root whose page this is, where there is one, and its version is 1 or 2.
    pub fn decode(page: &Page) -> Option<Self>
        ensures found { IfSome result (λ root. IsRoot root × (page.now ≡ root_page root)) }
        ensures only { (root : Root) → IsRoot root → page.now ≡ root_page root → result ≡ Some root }
    {
        let (root, _) = root_at(page)?;
        if root.is_of(page) { Some(root) } else { None }
    }

    /// Whether this is the root's page, and its version is 1 or 2.
    fn is_of(self, page: &Page) -> bool
        ensures { IsTrue result ↔ (IsRoot self × (page.now ≡ root_page self)) }
    {
        is_version(self.version) && same_page(&self.encode(), page)
    }
}

#[tactic(auto, unfolding(crate::specs::Pages::root_at))]
fn root_at(page: &[u8]) -> Option<(Root, &[u8])>
    ensures { Gives (λ r. (r.0, r.1.now)) result (root_at page.now) }
{
    let (_name, rest) = bytes_at(page, 4)?;
    let (version, rest) = u8_at(rest)?;
    let (server, rest) = u8_at(rest)?;
    let (pool, rest) = u16_at(rest)?;
    let (heads, rest) = u16_at(rest)?;
    let (leaves, rest) = u16_at(rest)?;
    let (epoch, rest) = u32_at(rest)?;
    let root = Root {
        version,
        server: ServerNo(server),
        pool,
        heads,
        leaves,
        epoch,
    };
    Some((root, rest))
}
