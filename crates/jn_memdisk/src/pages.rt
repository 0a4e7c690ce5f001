// The pages, and what a fault or a call does to them.
ghost use Rattle.std.specs.Prelude.{◌≡◌, ◌≤◌, ◌<◌, ◌*◌, ◌/◌, ◌^◌, ℕ, ◌+◌, length, vec_len, IfOk, None, true, false};
ghost use Rattle.jn_device.specs.Device as device;
ghost use Rattle.jn_device.specs.Calls as calls;
ghost use Rattle.jn_device.specs.Events.{rested};
ghost use Rattle.jn_device.specs.Device.{blank_page};
ghost use Rattle.jn_memdisk.specs.Pages.{half_at, marks_at, AllFew};
ghost use Rattle.jn_memdisk.specs.Faults.{Within, list_of};
ghost use Rattle.jn_phys.specs.Answers.{look_read};

use crate::call::{Marks, answer_got, got_under, leave_got, leave_put, put_under};
use jn_base::{FaultKind, Outside, Page, Stopped};
use jn_device::{GetOutcome, Half, PutOutcome, blank_page};
use std::alloc::{AllocError, Global};

/// An even number of pages; page p and page p + half are partners.
#[derive(Drop)]
pub(crate) struct Pages {
    pub(crate) halves: Vec<Half>,
    pub(crate) marks: Vec<Marks>,
    ghost paired: { vec_len marks ≡ vec_len halves },
    ghost even: { 2 * (vec_len halves / 2) ≡ vec_len halves },
    ghost few: { vec_len halves < 2 ^ 32 },
    ghost few_fails: { AllFew marks.items },
}

/// So many good pages of zeros.
pub(crate) fn blank_halves(alloc: Global, count: u32) -> Result<Vec<Half>, AllocError>
    ensures len { IfOk result (λ v. vec_len v ≡ count) }
    ensures good { IfOk result (λ v. (q : ℕ) → q < count → half_at v.items q ≡ record { good = true; bytes = blank_page }) }
{
    let mut halves = Vec::with_capacity(alloc, count as usize)?;
    for _made in 0..count {
        halves.push(Half {
            good: true,
            bytes: blank_page(),
        })?;
    }
    Ok(halves)
}

/// The marks of so many pages that no call was made to.
fn new_marks(alloc: Global, count: usize) -> Result<Vec<Marks>, AllocError>
    ensures len { IfOk result (λ v. vec_len v ≡ count) }
    ensures new { IfOk result (λ v. (q : ℕ) → marks_at v.items q ≡ record { missed = false; fails = 0 }) }
{
    let mut marks = Vec::with_capacity(alloc, count)?;
    for _made in 0..count {
        marks.push(Marks {
            missed: false,
            fails: 0,
        })?;
    }
    Ok(marks)
}

impl Pages {
    ghost use Rattle.jn_memdisk.specs.Disk.{pages_of, half_of, LeavesPages};

    pub(crate) fn new(alloc: Global, halves: Vec<Half>) -> Result<Self, AllocError>
        requires even { 2 * (vec_len halves / 2) ≡ vec_len halves }
        requires few { vec_len halves < 2 ^ 32 }
        ensures halves { IfOk result (λ d. d.halves ≡ halves) }
        ensures marks { IfOk result (λ d. (q : ℕ) → marks_at d.marks.items q ≡ record { missed = false; fails = 0 }) }
    {
        let marks = new_marks(alloc, halves.len())?;
        Ok(Pages { halves, marks })
    }

    pub(crate) fn count(&self) -> u32
        ensures { result ≡ vec_len self.now.halves }
    {
        self.halves.len() as u32
    }

    /// The other half of a pair.
    fn partner(&self, p: u32) -> u32
        requires { p < vec_len self.now.halves }
        ensures partner { result ≡ device.partner_at (half_of self.now) p }
        ensures within { result < vec_len self.now.halves }
    {
        let half = self.halves.len() as u32 / 2;
        if p < half { p + half } else { p - half }
    }

    fn is_good(&self, p: u32) -> bool
        requires { p < vec_len self.now.halves }
        ensures { result ≡ (pages_of self.now p).good }
    {
        self.halves[p as usize].good
    }

    fn may_fail(&self, p: u32) -> bool
        requires { p < vec_len self.now.halves }
        ensures { result ≡ device.may_fail (pages_of self.now p) }
    {
        self.marks[p as usize].fails < 3
    }

    fn may_decay(&self, p: u32) -> bool
        requires { p < vec_len self.now.halves }
        ensures { result ≡ device.may_decay_at (half_of self.now) (pages_of self.now) p }
    {
        self.may_fail(p) && self.is_good(self.partner(p))
    }

    /// Whether a decay of the page is outside the allowed faults.
    pub(crate) fn decay_outside(&self, p: u32) -> bool
        requires { p < vec_len self.now.halves }
        ensures { result ≡ calls.decay_outside (half_of self.now) (pages_of self.now) p }
    {
        self.is_good(p) && !self.may_decay(p)
    }

    /// Makes the page bad or good that the fault names, if it may be.
    pub(crate) fn meet(&mut self, kind: Option<FaultKind>)
        requires { Within (vec_len self.old.halves) kind }
        ensures met { (q : ℕ) → pages_of self.new q ≡ device.met_at (half_of self.old) (pages_of self.old) kind q }
        ensures count { vec_len self.new.halves ≡ vec_len self.old.halves }
    {
        match kind {
            Some(FaultKind::Decay(d)) => {
                if self.is_good(d) && self.may_decay(d) {
                    self.halves[d as usize].good = false;
                    self.marks[d as usize].fails += 1;
                }
            }
            Some(FaultKind::Revive(d)) => self.halves[d as usize].good = true,
            _ => {}
        }
    }

    /// Whether a fault that meets a get of page p is outside the allowed ones.
    fn got_outside(&self, p: u32, kind: FaultKind) -> bool
        requires here { p < vec_len self.now.halves }
        requires within { Within (vec_len self.now.halves) (Some kind) }
        ensures { result ≡ calls.got_outside (half_of self.now) (pages_of self.now) p kind }
    {
        match kind {
            FaultKind::Soft => self.is_good(p) && !self.may_fail(p),
            FaultKind::Decay(d) => self.decay_outside(d),
            FaultKind::Null | FaultKind::Bad | FaultKind::StopTorn => true,
            FaultKind::Revive(_) | FaultKind::StopBefore | FaultKind::StopAfter => false,
        }
    }

    /// And a put at page p.
    fn put_outside(&self, p: u32, kind: FaultKind) -> bool
        requires here { p < vec_len self.now.halves }
        requires within { Within (vec_len self.now.halves) (Some kind) }
        ensures { result ≡ calls.put_outside (half_of self.now) (pages_of self.now) p kind }
    {
        match kind {
            FaultKind::Soft => true,
            FaultKind::Decay(d) => self.decay_outside(d),
            FaultKind::Null => !self.may_fail(p),
            FaultKind::Bad => !(self.may_fail(p) && self.is_good(self.partner(p))),
            FaultKind::StopTorn => !self.is_good(self.partner(p)),
            FaultKind::Revive(_) | FaultKind::StopBefore | FaultKind::StopAfter => false,
        }
    }

    /// What is reported of the fault that meets a get of page p.
    pub(crate) fn told_got(&self, p: u32, kind: Option<FaultKind>) -> Option<Outside>
        requires here { p < vec_len self.now.halves }
        requires within { Within (vec_len self.now.halves) kind }
        ensures told { list_of result ≡ calls.told_of (calls.got_outside (half_of self.now) (pages_of self.now) p) p kind }
        ensures few { length (list_of result) ≤ length (list_of kind) }
    {
        let kind = kind?;
        if self.got_outside(p, kind) {
            Some(outside(p, kind))
        } else {
            None
        }
    }

    /// And a put at page p.
    pub(crate) fn told_put(&self, p: u32, kind: Option<FaultKind>) -> Option<Outside>
        requires here { p < vec_len self.now.halves }
        requires within { Within (vec_len self.now.halves) kind }
        ensures told { list_of result ≡ calls.told_of (calls.put_outside (half_of self.now) (pages_of self.now) p) p kind }
        ensures few { length (list_of result) ≤ length (list_of kind) }
    {
        let kind = kind?;
        if self.put_outside(p, kind) {
            Some(outside(p, kind))
        } else {
            None
        }
    }

    /// What becomes of a get of page p.
    pub(crate) fn get_outcome(&self, p: u32, kind: Option<FaultKind>) -> GetOutcome
        requires { p < vec_len self.now.halves }
        ensures { result ≡ calls.got_under (pages_of self.now p) kind }
    {
        got_under(&self.halves[p as usize], self.marks[p as usize], kind)
    }

    /// What becomes of a put at page p.
    pub(crate) fn put_outcome(&self, p: u32, kind: Option<FaultKind>) -> PutOutcome
        requires { p < vec_len self.now.halves }
        ensures { result ≡ calls.put_under (pages_of self.now p) (pages_of self.now (device.partner_at (half_of self.now) p)).good kind }
    {
        let partner = self.is_good(self.partner(p));
        put_under(
            &self.halves[p as usize],
            self.marks[p as usize],
            partner,
            kind,
        )
    }

    /// A get of page p that meets no fault: whether the page is good.
    pub(crate) fn read(&mut self, p: u32) -> bool
        requires { p < vec_len self.old.halves }
        ensures good { result ≡ (pages_of self.old p).good }
        ensures leaves { LeavesPages self.old p None (calls.rested_by_read (pages_of self.old p)) self.new }
    {
        let good = self.halves[p as usize].good;
        let marks = &mut self.marks[p as usize];
        if good && !marks.missed {
            marks.fails = 0;
        }
        good
    }

    /// A put at page p that meets no fault.
    pub(crate) fn write(&mut self, p: u32, page: &Page)
        requires { p < vec_len self.old.halves }
        ensures { LeavesPages self.old p None (calls.page_put PutOutcome.Writes page.now (pages_of self.old p)) self.new }
    {
        let half = &mut self.halves[p as usize];
        half.good = true;
        half.bytes = *page;
        self.marks[p as usize].missed = false;
    }

    /// A get of page p, of which this becomes.
    pub(crate) fn get(
        &mut self,
        p: u32,
        kind: Option<FaultKind>,
        outcome: GetOutcome,
    ) -> Result<bool, Stopped>
        requires here { p < vec_len self.old.halves }
        requires within { Within (vec_len self.old.halves) kind }
        requires outcome { outcome ≡ calls.got_under (pages_of self.old p) kind }
        ensures answer { look_read result (pages_of self.new p).bytes ≡ calls.answer_got outcome (device.met_at (half_of self.old) (pages_of self.old) kind p) }
        ensures leaves { LeavesPages self.old p kind (calls.page_got outcome (device.met_at (half_of self.old) (pages_of self.old) kind p)) self.new }
    {
        self.meet(kind);
        let half = &self.halves[p as usize];
        let marks = &mut self.marks[p as usize];
        let answer = answer_got(outcome, half, *marks);
        leave_got(outcome, half, marks);
        answer
    }

    /// A put at page p, of which this becomes.
    pub(crate) fn put(&mut self, p: u32, kind: Option<FaultKind>, outcome: PutOutcome, page: &Page)
        requires here { p < vec_len self.old.halves }
        requires within { Within (vec_len self.old.halves) kind }
        requires outcome { outcome ≡ calls.put_under (pages_of self.old p) (pages_of self.old (device.partner_at (half_of self.old) p)).good kind }
        ensures leaves { LeavesPages self.old p kind (calls.page_put outcome page.now (device.met_at (half_of self.old) (pages_of self.old) kind p)) self.new }
    {
        self.meet(kind);
        let half = &mut self.halves[p as usize];
        let marks = &mut self.marks[p as usize];
        leave_put(outcome, page, half, marks);
    }

    /// Each page rests: it has failed no more, and missed no put.
    pub(crate) fn rest(&mut self)
        ensures rested { (q : ℕ) → pages_of self.new q ≡ rested (pages_of self.old q) }
        ensures count { vec_len self.new.halves ≡ vec_len self.old.halves }
    {
        for i in 0..self.marks.len() {
            self.marks[i] = Marks {
                missed: false,
                fails: 0,
            };
        }
    }
}

/// A fault as it is reported, with the page that it strikes.
fn outside(p: u32, kind: FaultKind) -> Outside
    ensures { result ≡ record { kind = kind; page = calls.struck_page p kind } }
{
    let page = match kind {
        FaultKind::Decay(d) => d,
        _ => p,
    };
    Outside { kind, page }
}
