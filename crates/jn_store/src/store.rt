// What the layers above see of a store.
ghost use Rattle.std.specs.Prelude.{◌≡◌, ◌<◌, ◌^◌, is_ok};
ghost use Rattle.jn_store.specs.Store.{StoreView, StoreGot, StorePut, StoreCleaned};

use jn_base::{Page, Stopped};

/// Stable pages, numbered from 0. No call takes memory.
///
/// Stopped is answered only where the count of stops rose in the call, or stood at the last value of
/// a `u64`, and then the store has no power.
pub trait StableStore {
    /// The candidates of each page, the power, the faults that wait and the counts.
    ghost view: { Self → StoreView };

    /// How many stable pages there are.
    fn count(&self) -> u32
        ensures { result ≡ (view self.now).count };

    /// A candidate of the page.
    fn get(&mut self, i: u32) -> Result<Page, Stopped>
        requires { i < (view self.old).count }
        ensures got { StoreGot (view self.old) i result (view self.new) };

    /// Makes this the only candidate of the page. Where it is stopped the page's old candidates may
    /// stay beside it.
    fn put(&mut self, i: u32, page: &Page) -> Result<(), Stopped>
        requires { i < (view self.old).count }
        ensures put { StorePut (view self.old) i page.now (is_ok result) (view self.new) };

    /// Leaves the page with one of its candidates, and answers whether it wrote.
    fn cleanup(&mut self, i: u32) -> Result<bool, Stopped>
        requires { i < (view self.old).count }
        ensures cleaned { StoreCleaned (view self.old) i result (view self.new) };

    /// A page's number fits a `u32`.
    ghost count_fits: { (s : Self) → (view s).count < 2 ^ 32 };
}
