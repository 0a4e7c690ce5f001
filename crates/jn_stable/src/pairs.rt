// Pairs of careful pages as a store.
ghost use Rattle.std.specs.Prelude.{◌≡◌, ◌≤◌, ◌<◌, ◌/◌, ◌^◌, ◌*◌, ℕ, is_ok, is_err};
ghost use Rattle.std.proofs.Common.{arith};
ghost use Rattle.jn_device.specs.Device.{IsSoundDevice};
ghost use Rattle.jn_store.specs.Pairs.{pairs_view};
ghost use Rattle.jn_store.specs.Store.{StoreGot, StorePut, StoreCleaned};
ghost use Rattle.jn_stable.specs.Halves.{GetsHalves, PutsHalves, CleansHalves};
ghost use Rattle.jn_stable.specs.Order.{GetsInOrder, PutsInOrder, CleansInOrder};

use jn_base::{Page, Stopped};
use jn_careful::Careful;
use jn_device::blank_page;
use jn_phys::{Found, PhysDisk};
use jn_store::StableStore;
use std::marker::Model;

/// Stable page i on the physical pages i and i + N of a disk of 2N. Contracts see the disk itself.
#[derive(Drop)]
pub struct Pairs<D: PhysDisk> {
    pub(crate) disk: Careful<D>,
}

impl<D: PhysDisk> Model for Pairs<D> {
    ghost Value = { D };

    ghost view = { λ s. s.disk };

    ghost invariant = { λ s. IsSoundDevice (D.state s.disk) };
}

impl<D: PhysDisk> Pairs<D> {
    /// A store on a disk with an even number of pages, of whose pairs at least one half is good.
    pub fn new(disk: D) -> Self
        requires even { 2 * ((D.state disk).count / 2) ≡ (D.state disk).count }
        requires sound { IsSoundDevice (D.state disk) }
        ensures { result ≡ disk }
    {
        Pairs {
            disk: Careful::new(disk),
        }
    }

    /// The disk, of whose pairs at least one half is good.
    pub fn into_inner(self) -> D
        ensures disk { result ≡ self }
        ensures sound { IsSoundDevice (D.state result) }
    {
        let Pairs { disk } = self;
        disk.into_inner()
    }
}

impl<D: PhysDisk> StableStore for Pairs<D> {
    ghost view = { λ s. pairs_view (D.state s) };

    ghost count_fits = { λ s. let fits = D.count_fits s in Prim.omega (arith, fits) };

    fn count(&self) -> u32 {
        self.disk.count() / 2
    }

    fn get(&mut self, i: u32) -> Result<Page, Stopped>
        requires { i < (pairs_view (D.state self.old)).count }
        ensures got { StoreGot (pairs_view (D.state self.old)) i result (pairs_view (D.state self.new)) }
        ensures halves { GetsHalves (D.state self.old) i result (D.state self.new) }
        ensures order { GetsInOrder (D.state self.old) i result }
    {
        let other = i + self.disk.count() / 2;
        let mut page = blank_page();
        if !self.disk.get(i, &mut page)? && !self.disk.get(other, &mut page)? {
            unreachable!()
        }
        Ok(page)
    }

    fn put(&mut self, i: u32, page: &Page) -> Result<(), Stopped>
        requires { i < (pairs_view (D.state self.old)).count }
        ensures put { StorePut (pairs_view (D.state self.old)) i page.now (is_ok result) (pairs_view (D.state self.new)) }
        ensures halves { PutsHalves (D.state self.old) i page.now (is_err result) (D.state self.new) }
        ensures order { PutsInOrder (D.state self.old) i page.now (D.state self.new) }
    {
        let other = i + self.disk.count() / 2;
        self.disk.put(i, page)?;
        self.disk.put(other, page)?;
        Ok(())
    }

    fn cleanup(&mut self, i: u32) -> Result<bool, Stopped>
        requires { i < (pairs_view (D.state self.old)).count }
        ensures cleaned { StoreCleaned (pairs_view (D.state self.old)) i result (pairs_view (D.state self.new)) }
        ensures halves { CleansHalves (D.state self.old) i result (D.state self.new) }
        ensures order { CleansInOrder (D.state self.old) i (D.state self.new) }
    {
        let other = i + self.disk.count() / 2;
        let mut page = blank_page();
        if self.disk.get(i, &mut page)? {
            if self.disk.compare(other, &page)? == Found::Same {
                return Ok(false);
            }
            self.disk.put(other, &page)?;
        } else if self.disk.get(other, &mut page)? {
            self.disk.put(i, &page)?;
        } else {
            unreachable!()
        }
        Ok(true)
    }
}
