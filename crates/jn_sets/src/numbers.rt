//! A record's numbers fit their types: the proof is a walk over it.
ghost use Rattle.std.specs.Prelude.{◌≡◌};
ghost use Rattle.std.specs.List.{AllByRecursion};
ghost use Rattle.jn_fields.specs.Names.{TidFits, WorkFits, UnitFits};
ghost use Rattle.jn_records.specs.Intentions.{IntentionFits};
ghost use Rattle.jn_records.specs.Records.{PreparedFits, FlagFits, RecordFits};

use jn_base::{LockUnit, Tid, WorkId};
use jn_records::{Flag, Record, StoredIntention, WorkHead};

fn tid_fits(tid: Tid)
    ensures { TidFits tid }
{}

fn work_fits(work: WorkId)
    ensures { WorkFits work }
{}

fn unit_fits(unit: LockUnit)
    ensures { UnitFits unit }
{}

fn intention_fits(intention: StoredIntention)
    ensures { IntentionFits intention }
{}

fn units_fit(units: &[LockUnit])
    ensures { AllByRecursion UnitFits units.now }
{
    for unit in units {
        unit_fits(*unit);
    }
}

fn works_fit(works: &[WorkId])
    ensures { AllByRecursion WorkFits works.now }
{
    for work in works {
        work_fits(*work);
    }
}

fn prepared_fits(head: WorkHead, intentions: u8, reads: &[LockUnit])
    ensures { PreparedFits head intentions reads.now }
{
    work_fits(head.work);
    tid_fits(head.tid);
    units_fit(reads);
}

fn flag_fits(flag: &Flag)
    ensures { FlagFits flag.now }
{
    let _client = flag.client.0;
    let _request = flag.request.0;
    tid_fits(flag.tid);
    works_fit(flag.works.as_slice());
}

/// Does nothing: its contract says that the record's numbers fit their types, and so that it is read
/// again from its page.
pub fn record_fits(value: &Record)
    ensures { RecordFits value.now }
{
    match value {
        Record::Free => {}
        Record::Intention {
            work,
            tid,
            order,
            intention,
        } => {
            let _order = *order;
            work_fits(*work);
            tid_fits(*tid);
            intention_fits(*intention);
        }
        Record::Ready {
            head,
            intentions,
            reads,
        }
        | Record::Going {
            head,
            intentions,
            reads,
        } => prepared_fits(*head, *intentions, reads.as_slice()),
        Record::Flag(flag) => flag_fits(flag),
    }
}
