// A plain list of pages, which has no fault.
ghost use Rattle.std.specs.Prelude.{◌≡◌, ◌≤◌, ◌<◌, ◌^◌, ℕ, vec_len, IfOk, [], true, slice_index_or};
ghost use Rattle.jn_base.specs.Counts.{bumped};
ghost use Rattle.jn_store.specs.PlainList.{array_view};
ghost use Rattle.jn_store.specs.Store.{IsBlank};

use crate::StableStore;
use jn_base::{Page, Stopped};
use jn_device::blank_page;
use std::alloc::{AllocError, Global};

/// A store in memory that never stops, for programs and tests that want no faults. Each put counts as two of a device, one of each half.
#[derive(Drop)]
pub struct ArrayStore {
    pages: Vec<Page>,
    puts: u64,
    ghost few: { vec_len pages < 2 ^ 32 },
}

impl ArrayStore {
    /// So many pages of zeros.
    pub fn new(alloc: Global, count: u32) -> Result<Self, AllocError>
        ensures { IfOk result (λ s. IsBlank count (⟦<ArrayStore as StableStore>⟧.view s)) }
    {
        let mut pages = Vec::new(alloc);
        for _made in 0..count {
            pages.push(blank_page())?;
        }
        Ok(ArrayStore { pages, puts: 0 })
    }

    /// A page as it stands, without a copy.
    pub fn page(&self, i: u32) -> &Page
        requires { i < (⟦<ArrayStore as StableStore>⟧.view self.now).count }
        ensures { result.now ≡ (⟦<ArrayStore as StableStore>⟧.view self.now).first i }
    {
        &self.pages[i as usize]
    }
}

impl StableStore for ArrayStore {
    ghost view = { λ s. array_view (vec_len s.pages) s.pages.items s.puts };

    ghost count_fits = { λ s. s.few };

    fn count(&self) -> u32 {
        self.pages.len() as u32
    }

    fn get(&mut self, i: u32) -> Result<Page, Stopped> {
        Ok(self.pages[i as usize])
    }

    fn put(&mut self, i: u32, page: &Page) -> Result<(), Stopped> {
        self.pages[i as usize] = *page;
        self.puts = bump(bump(self.puts));
        Ok(())
    }

    fn cleanup(&mut self, _i: u32) -> Result<bool, Stopped> {
        Ok(false)
    }
}

fn bump(count: u64) -> u64
    ensures { result ≡ bumped count }
{
    if count < u64::MAX { count + 1 } else { count }
}
