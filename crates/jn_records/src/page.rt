//! Pages compared.
ghost use Rattle.std.specs.Prelude.{◌≡◌, ◌↔◌, IsTrue};

use jn_base::Page;

/// Whether two pages have the same bytes.
pub fn same_page(a: &Page, b: &Page) -> bool
    ensures { IsTrue result ↔ (a.now ≡ b.now) }
{
    a == b
}
