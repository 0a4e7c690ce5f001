//! The records of the pool.
ghost use Rattle.std.specs.Prelude.{◌≡◌, ◌≤◌, true, false, Bool, ◌&&◌, [], length, List, Option, Some, None, IfOk, IfSome, IsTrue, ◌↔◌};
ghost use Rattle.jn_fields.specs.Reading.{Gives};
ghost use Rattle.jn_records.specs.declared.record.Record.{Record};
ghost use Rattle.jn_records.specs.declared.record.Record.TheVariants.{Intention as IntentionRecord};
ghost use Rattle.jn_records.specs.Records.{prepared_bytes, flag_bytes, record_bytes, record_page, reads_have_page, has_page, prepared, RecordFits, intention_record_at, work_head_at, prepared_at, flag_at, record_at};

use crate::flag::Flag;
use crate::intention::{self, StoredIntention, intention_at, put_intention};
use crate::list::{ListOf, put_list};
use crate::page::same_page;
use crate::work::{WorkHead, all_have_pages, ascends};
use jn_base::{ClientNo, LockUnit, Page, PageWriter, RequestNo, Tid, WorkId};
use jn_fields::{Field, list_at, u8_at, u32_at};
use std::alloc::{AllocError, Global};

const FREE: u8 = 0;

const INTENTION: u8 = 1;

const READY: u8 = 2;

const GOING: u8 = 3;

const FLAG: u8 = 4;

/// How many read units have room behind a prepared work's other fields.
pub const READS: usize = 81;

/// How many works have room behind a flag's other fields.
pub const WORKS: usize = 55;

/// A record: what one page of the pool says.
#[derive(Drop)]
pub enum Record {
    Free,
    /// One intention of a work, and its place among them.
    Intention {
        work: WorkId,
        tid: Tid,
        order: u8,
        intention: StoredIntention,
    },
    /// A work that is prepared: how many intentions it has, and the units that it read, ascending.
    Ready {
        head: WorkHead,
        intentions: u8,
        reads: ListOf<LockUnit>,
    },
    /// A prepared work whose transaction has committed.
    Going {
        head: WorkHead,
        intentions: u8,
        reads: ListOf<LockUnit>,
    },
    Flag(Flag),
}

impl Record {
    /// The page of the record.
    #[tactic(auto, unfolding(crate::specs::Records::record_page))]
    pub fn encode(&self) -> Page
        requires { has_page self.now ≡ true }
        ensures { result ≡ record_page self.now }
    {
        let mut page = PageWriter::new();
        self.put(&mut page);
        page.finish()
    }

    fn put(&self, page: &mut PageWriter)
        requires whole { has_page self.now ≡ true }
        requires blank { page.old ≡ [] }
        ensures { page.new ≡ record_bytes self.now }
    {
        match self {
            Record::Free => {}
            Record::Intention {
                work,
                tid,
                order,
                intention,
            } => put_intention_record(page, *work, *tid, *order, intention),
            Record::Ready {
                head,
                intentions,
                reads,
            } => put_prepared(page, READY, head, *intentions, reads.as_slice()),
            Record::Going {
                head,
                intentions,
                reads,
            } => put_prepared(page, GOING, head, *intentions, reads.as_slice()),
            Record::Flag(flag) => put_flag(page, flag),
        }
    }

    /// The record whose page this is, where there is one.
    pub fn decode(alloc: Global, page: &Page) -> Result<Option<Self>, AllocError>
        ensures found { IfOk result (λ r. IfSome r (λ value. (has_page value ≡ true) × (page.now ≡ record_page value))) }
        ensures only { (value : Record) → has_page value ≡ true → RecordFits value → page.now ≡ record_page value → IfOk result (λ r. r ≡ Some value) }
    {
        let value = record_at(alloc, page)?;
        Ok(of_page(value, page))
    }

    fn has_page(&self) -> bool
        ensures { result ≡ has_page self.now }
    {
        match self {
            Record::Free => true,
            Record::Intention { intention, .. } => intention::has_page(intention),
            Record::Ready { reads, .. } | Record::Going { reads, .. } => {
                have_page(reads.as_slice())
            }
            Record::Flag(flag) => flag.works.as_slice().len() <= WORKS,
        }
    }

    /// Whether this is the record's page.
    fn is_of(&self, page: &Page) -> bool
        ensures { IsTrue result ↔ ((has_page self.now ≡ true) × (page.now ≡ record_page self.now)) }
    {
        self.has_page() && same_page(&self.encode(), page)
    }
}

/// The record, where this is its page.
fn of_page(value: Option<Record>, page: &Page) -> Option<Record>
    ensures found { IfSome result (λ value. (has_page value ≡ true) × (page.now ≡ record_page value)) }
    ensures only { (r : Record) → value ≡ Some r → has_page r ≡ true → page.now ≡ record_page r → result ≡ Some r }
{
    match value {
        Some(value) if value.is_of(page) => Some(value),
        _ => None,
    }
}

fn have_page(reads: &[LockUnit]) -> bool
    ensures { result ≡ reads_have_page reads.now }
{
    reads.len() <= READS && ascends(reads) && all_have_pages(reads)
}

fn put_intention_record(
    page: &mut PageWriter,
    work: WorkId,
    tid: Tid,
    order: u8,
    intention: &StoredIntention,
)
    requires { page.old ≡ [] }
    ensures { page.new ≡ record_bytes (IntentionRecord work tid order intention.now) }
{
    page.put_u8(INTENTION);
    page.put_bytes(&work.to_bytes());
    page.put_bytes(&tid.to_bytes());
    page.put_u8(order);
    put_intention(page, intention);
}

fn put_prepared(
    page: &mut PageWriter,
    kind: u8,
    head: &WorkHead,
    intentions: u8,
    reads: &[LockUnit],
)
    requires few { length reads.now ≤ 81 }
    requires blank { page.old ≡ [] }
    ensures { page.new ≡ prepared_bytes kind head.now intentions reads.now }
{
    page.put_u8(kind);
    page.put_bytes(&head.work.to_bytes());
    page.put_bytes(&head.tid.to_bytes());
    page.put_u8(head.client.0);
    page.put_u8(intentions);
    page.put_u8(reads.len() as u8);
    put_list(page, reads);
}

fn put_flag(page: &mut PageWriter, flag: &Flag)
    requires few { length flag.now.works ≤ 55 }
    requires blank { page.old ≡ [] }
    ensures { page.new ≡ flag_bytes flag.now }
{
    page.put_u8(FLAG);
    page.put_bytes(&flag.tid.to_bytes());
    page.put_u8(flag.client.0);
    page.put_u32(flag.request.0);
    let works = flag.works.as_slice();
    page.put_u8(works.len() as u8);
    put_list(page, works);
}

#[tactic(auto, unfolding(crate::specs::Records::intention_record_at))]
fn intention_record_at(bytes: &[u8]) -> Option<Record>
    ensures { result ≡ intention_record_at bytes.now }
{
    let (work, rest) = WorkId::at(bytes)?;
    let (tid, rest) = Tid::at(rest)?;
    let (order, rest) = u8_at(rest)?;
    let (intention, _) = intention_at(rest)?;
    Some(Record::Intention {
        work,
        tid,
        order,
        intention,
    })
}

#[tactic(auto, unfolding(crate::specs::Records::work_head_at))]
fn work_head_at(bytes: &[u8]) -> Option<(WorkHead, &[u8])>
    ensures { Gives (λ r. (r.0, r.1.now)) result (work_head_at bytes.now) }
{
    let (work, rest) = WorkId::at(bytes)?;
    let (tid, rest) = Tid::at(rest)?;
    let (client, rest) = u8_at(rest)?;
    let head = WorkHead {
        work,
        tid,
        client: ClientNo(client),
    };
    Some((head, rest))
}

#[tactic(auto, unfolding(crate::specs::Records::prepared_at))]
fn prepared_at(alloc: Global, going: bool, bytes: &[u8]) -> Result<Option<Record>, AllocError>
    ensures { IfOk result (λ r. r ≡ prepared_at going bytes.now) }
{
    let Some((head, rest)) = work_head_at(bytes) else {
        return Ok(None);
    };
    let Some((intentions, rest)) = u8_at(rest) else {
        return Ok(None);
    };
    let Some((count, rest)) = u8_at(rest) else {
        return Ok(None);
    };
    let Some((reads, _)) = list_at(alloc, count, rest)? else {
        return Ok(None);
    };
    let reads = ListOf::from_vec(reads);
    Ok(Some(prepared(going, head, intentions, reads)))
}

fn prepared(going: bool, head: WorkHead, intentions: u8, reads: ListOf<LockUnit>) -> Record
    ensures { result ≡ prepared going head intentions reads }
{
    if going {
        Record::Going {
            head,
            intentions,
            reads,
        }
    } else {
        Record::Ready {
            head,
            intentions,
            reads,
        }
    }
}

#[tactic(auto, unfolding(crate::specs::Records::flag_at))]
fn flag_at(alloc: Global, bytes: &[u8]) -> Result<Option<Record>, AllocError>
    ensures { IfOk result (λ r. r ≡ flag_at bytes.now) }
{
    let Some((tid, rest)) = Tid::at(bytes) else {
        return Ok(None);
    };
    let Some((client, rest)) = u8_at(rest) else {
        return Ok(None);
    };
    let Some((request, rest)) = u32_at(rest) else {
        return Ok(None);
    };
    let Some((count, rest)) = u8_at(rest) else {
        return Ok(None);
    };
    let Some((works, _)) = list_at(alloc, count, rest)? else {
        return Ok(None);
    };
    Ok(Some(Record::Flag(Flag {
        tid,
        client: ClientNo(client),
        request: RequestNo(request),
        works: ListOf::from_vec(works),
    })))
}

#[tactic(auto, unfolding(crate::specs::Records::record_at))]
fn record_at(alloc: Global, bytes: &[u8]) -> Result<Option<Record>, AllocError>
    ensures { IfOk result (λ r. r ≡ record_at bytes.now) }
{
    let Some((kind, rest)) = u8_at(bytes) else {
        return Ok(None);
    };
    match kind {
        FREE => Ok(Some(Record::Free)),
        INTENTION => Ok(intention_record_at(rest)),
        READY => prepared_at(alloc, false, rest),
        GOING => prepared_at(alloc, true, rest),
        FLAG => flag_at(alloc, rest),
        _ => Ok(None),
    }
}
