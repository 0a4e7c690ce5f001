//! What a slot's record is asked for.
ghost use Rattle.std.specs.Prelude.{◌≡◌, ◌≢◌, ◌<◌, ◌≤◌, ◌+◌, ◌^◌, ℕ, true};
ghost use Rattle.jn_base.specs.Names as names;
ghost use Rattle.jn_sets.specs.Pool as pool;
ghost use Rattle.jn_sets.specs.Sets.{ones};

use jn_base::{Tid, WorkId};
use jn_records::Record;

fn work_eq(a: WorkId, b: WorkId) -> bool
    ensures { result ≡ names.work_eq a b }
{
    a.server.0 == b.server.0 && (a.epoch == b.epoch && a.ticket == b.ticket)
}

fn tid_eq(a: Tid, b: Tid) -> bool
    ensures { result ≡ names.tid_eq a b }
{
    a.server.0 == b.server.0 && (a.epoch == b.epoch && a.ticket == b.ticket)
}

pub(crate) fn is_free(value: &Record) -> bool
    ensures { result ≡ pool.is_free value.now }
{
    matches!(value, Record::Free)
}

/// What a slot is searched for.
#[derive(Clone, Copy)]
pub(crate) enum Wanted {
    /// The ready or going record of a work.
    Prepared(WorkId),
    /// The intention of a work with this place.
    Intention(WorkId, u8),
    /// The commit flag of a transaction.
    Flag(Tid),
}

/// A number by which what is wanted is found. Other records may have it too.
pub(crate) fn number_wanted(wanted: Wanted) -> u32
    ensures { result ≡ pool.number_wanted wanted }
{
    match wanted {
        Wanted::Prepared(work) => spread(work.ticket, 0),
        Wanted::Flag(tid) => spread(tid.ticket, 1),
        Wanted::Intention(work, order) => spread(work.ticket, u32::from(order) + 2),
    }
}

/// A record's number. A free slot has none.
pub(crate) fn number_of(value: &Record) -> Option<u32>
    ensures { result ≡ pool.record_number value.now }
{
    match value {
        Record::Free => None,
        Record::Intention { work, order, .. } => Some(spread(work.ticket, u32::from(*order) + 2)),
        Record::Ready { head, .. } | Record::Going { head, .. } => {
            Some(spread(head.work.ticket, 0))
        }
        Record::Flag(flag) => Some(spread(flag.tid.ticket, 1)),
    }
}

/// Tickets that follow one another, and the records of one work, have numbers of their own.
#[tactic(auto, unfolding(crate::specs::Pool::spread))]
fn spread(ticket: u32, kind: u32) -> u32
    ensures { result ≡ pool.spread ticket kind }
{
    (ticket % 134_217_728) * 32 + kind % 32
}

/// A count where one record may be more or less.
pub(crate) fn recount(count: u32, was: bool, is: bool) -> u32
    requires some { was ≡ true → 0 < count }
    requires few { count < 2 ^ 17 }
    ensures { result + ones was ≡ count + ones is }
{
    if was == is {
        return count;
    }
    if is { count + 1 } else { count - 1 }
}

/// Whether it makes its work a prepared one.
pub(crate) fn prepares(value: &Record) -> bool
    ensures { result ≡ pool.prepares value.now }
{
    matches!(value, Record::Ready { .. } | Record::Going { .. })
}

/// Whether it is an intention, of whichever work.
pub(crate) fn intends(value: &Record) -> bool
    ensures { result ≡ pool.intends value.now }
{
    matches!(value, Record::Intention { .. })
}

/// Whether it is one of the work's intentions.
pub(crate) fn intends_for(work: WorkId, value: &Record) -> bool
    ensures { result ≡ pool.intends_for work value.now }
{
    match value {
        Record::Intention { work: of, .. } => work_eq(*of, work),
        _ => false,
    }
}

/// Below which slot no record is rubbish, where it was so below one and a record goes: where that prepared its work, any slot
/// may have an intention that is rubbish now.
pub(crate) fn clean_without(clean: u16, old: &Record) -> u16
    ensures kept { result ≤ clean }
    ensures prepared { pool.prepares old.now ≡ true → result ≡ 0 }
{
    if prepares(old) { 0 } else { clean }
}

/// Below which slot no record is rubbish, where it was so below one and another gets a record.
pub(crate) fn clean_with(clean: u16, slot: u16, intends: bool) -> u16
    ensures kept { result ≤ clean }
    ensures intention { intends ≡ true → result ≤ slot }
{
    if intends && slot < clean { slot } else { clean }
}

/// Below which slot none is free, where it was so below one and another goes.
pub(crate) fn used_without(used: u16, slot: u16) -> u16
    ensures used { result ≤ used }
    ensures slot { result ≤ slot }
{
    if slot < used { slot } else { used }
}

/// Below which slot none is free, where it was so below one and another gets a record.
pub(crate) fn used_with(used: u16, slot: u16) -> u16
    requires { slot + 1 < 2 ^ 16 }
    ensures { (k : ℕ) → k < result → k ≢ slot → k < used }
{
    if slot == used { slot + 1 } else { used }
}

pub(crate) fn is_wanted(wanted: Wanted, value: &Record) -> bool
    ensures { result ≡ pool.is_wanted wanted value.now }
{
    match wanted {
        Wanted::Prepared(work) => is_prepared(work, value),
        Wanted::Intention(work, order) => is_intention(work, order, value),
        Wanted::Flag(tid) => is_flag(tid, value),
    }
}

/// Whether it is the ready or going record of the work.
pub(crate) fn is_prepared(work: WorkId, value: &Record) -> bool
    ensures { result ≡ pool.is_prepared work value.now }
{
    match value {
        Record::Ready { head, .. } | Record::Going { head, .. } => work_eq(head.work, work),
        _ => false,
    }
}

/// Whether it is the work's intention with this place.
fn is_intention(work: WorkId, order: u8, value: &Record) -> bool
    ensures { result ≡ pool.is_intention work order value.now }
{
    match value {
        Record::Intention {
            work: of,
            order: at,
            ..
        } => work_eq(*of, work) && *at == order,
        _ => false,
    }
}

/// Whether it is the transaction's commit flag.
fn is_flag(tid: Tid, value: &Record) -> bool
    ensures { result ≡ pool.is_flag tid value.now }
{
    match value {
        Record::Flag(flag) => tid_eq(flag.tid, tid),
        _ => false,
    }
}

/// A ready record as a going one.
fn going_of(value: Record) -> Record
    ensures { result ≡ pool.going_of value }
{
    match value {
        Record::Ready {
            head,
            intentions,
            reads,
        } => Record::Going {
            head,
            intentions,
            reads,
        },
        other => other,
    }
}

/// A going record as a ready one.
fn ready_of(value: Record) -> Record
    ensures { result ≡ pool.ready_of value }
{
    match value {
        Record::Going {
            head,
            intentions,
            reads,
        } => Record::Ready {
            head,
            intentions,
            reads,
        },
        other => other,
    }
}

/// A ready or going record as a going or a ready one.
pub(crate) fn marked(value: Record, going: bool) -> Record
    ensures { result ≡ pool.marked going value }
{
    if going {
        going_of(value)
    } else {
        ready_of(value)
    }
}
