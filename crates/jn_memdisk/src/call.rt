// What becomes of one call, and of the page that it is at.
ghost use Rattle.std.specs.Prelude.{◌≡◌, ◌≤◌, ◌<◌, ◌+◌, ℕ, if◌then◌else◌, not, true, false};
ghost use Rattle.jn_base.specs.Counts.{bumped};
ghost use Rattle.jn_device.specs.Calls as calls;
ghost use Rattle.jn_device.specs.Device as device;
ghost use Rattle.jn_memdisk.specs.Pages.{page_state};
ghost use Rattle.jn_phys.specs.Answers.{look_read};

use jn_base::{FaultKind, Page, Stopped};
use jn_device::{GetOutcome, Half, PutOutcome};

/// What a page's last calls have left: whether the last put missed it, and how often it has failed.
#[derive(Clone, Copy)]
pub(crate) struct Marks {
    pub(crate) missed: bool,
    pub(crate) fails: u8,
}

/// What becomes of a get of this page.
pub(crate) fn got_under(half: &Half, marks: Marks, kind: Option<FaultKind>) -> GetOutcome
    ensures { result ≡ calls.got_under (page_state half.now marks) kind }
{
    match kind {
        Some(FaultKind::Soft) if half.good && marks.fails < 3 => GetOutcome::Misreads,
        Some(FaultKind::StopBefore | FaultKind::StopTorn) => GetOutcome::Unread,
        Some(FaultKind::StopAfter) => GetOutcome::ReadsAndStops,
        _ => GetOutcome::Reads,
    }
}

/// What becomes of a put at a page, by its marks and whether its partner is good.
pub(crate) fn put_under(
    half: &Half,
    marks: Marks,
    partner: bool,
    kind: Option<FaultKind>,
) -> PutOutcome
    ensures { result ≡ calls.put_under (page_state half.now marks) partner kind }
{
    match kind {
        Some(FaultKind::Null) if marks.fails < 3 => PutOutcome::Misses,
        Some(FaultKind::Bad) if marks.fails < 3 && partner => PutOutcome::Spoils,
        Some(FaultKind::StopTorn) if partner => PutOutcome::Tears,
        Some(FaultKind::StopBefore | FaultKind::StopTorn) => PutOutcome::Unwritten,
        Some(FaultKind::StopAfter) => PutOutcome::WritesAndStops,
        _ => PutOutcome::Writes,
    }
}

/// The answer to a get: whether the page is good, if it isn't stopped.
pub(crate) fn answer_got(outcome: GetOutcome, half: &Half, marks: Marks) -> Result<bool, Stopped>
    ensures { look_read result half.now.bytes ≡ calls.answer_got outcome (page_state half.now marks) }
{
    let _marks = marks;
    match outcome {
        GetOutcome::Reads => Ok(half.good),
        GetOutcome::Misreads => Ok(false),
        _ => Err(Stopped),
    }
}

/// The marks of a page after a get.
pub(crate) fn leave_got(outcome: GetOutcome, half: &Half, marks: &mut Marks)
    requires { outcome ≡ GetOutcome.Misreads → marks.old.fails < 3 }
    ensures { page_state half.now marks.new ≡ calls.page_got outcome (page_state half.now marks.old) }
{
    match outcome {
        GetOutcome::Reads | GetOutcome::ReadsAndStops => {
            if half.good && !marks.missed {
                marks.fails = 0;
            }
        }
        GetOutcome::Misreads => marks.fails += 1,
        GetOutcome::Unread => {}
    }
}

/// A page after a put.
pub(crate) fn leave_put(outcome: PutOutcome, page: &Page, half: &mut Half, marks: &mut Marks)
    requires misses { outcome ≡ PutOutcome.Misses → marks.old.fails < 3 }
    requires spoils { outcome ≡ PutOutcome.Spoils → marks.old.fails < 3 }
    ensures { page_state half.new marks.new ≡ calls.page_put outcome page.now (page_state half.old marks.old) }
{
    match outcome {
        PutOutcome::Unwritten => {}
        PutOutcome::Misses => {
            marks.missed = true;
            marks.fails += 1;
        }
        PutOutcome::Writes | PutOutcome::WritesAndStops => {
            half.good = true;
            half.bytes = *page;
            marks.missed = false;
        }
        PutOutcome::Spoils => {
            half.good = false;
            half.bytes = *page;
            marks.missed = false;
            marks.fails += 1;
        }
        PutOutcome::Tears => {
            half.good = false;
            half.bytes = *page;
            marks.missed = false;
        }
    }
}

/// A count rises by one, or stands at its last value.
pub(crate) fn bumped(n: u64) -> u64
    ensures { result ≡ bumped n }
{
    if n < u64::MAX { n + 1 } else { n }
}

/// Whether a get is answered Stopped.
pub(crate) fn get_stops(outcome: GetOutcome) -> bool
    ensures { result ≡ calls.get_stops outcome }
{
    matches!(outcome, GetOutcome::Unread | GetOutcome::ReadsAndStops)
}

/// Whether a get is done.
pub(crate) fn get_is_done(outcome: GetOutcome) -> bool
    ensures { result ≡ calls.get_is_done outcome }
{
    !matches!(outcome, GetOutcome::Unread)
}

/// Whether a put is answered Stopped.
pub(crate) fn put_stops(outcome: PutOutcome) -> bool
    ensures { result ≡ calls.put_stops outcome }
{
    matches!(
        outcome,
        PutOutcome::Unwritten | PutOutcome::Tears | PutOutcome::WritesAndStops
    )
}

/// Whether a put is done.
pub(crate) fn put_is_done(outcome: PutOutcome) -> bool
    ensures { result ≡ calls.put_is_done outcome }
{
    !matches!(outcome, PutOutcome::Unwritten)
}
