//! The transactions of a client that goes on to another one.
ghost use Rattle.std.specs.Prelude.{◌≡◌};
ghost use Rattle.std.specs.Option.{option_copied};
ghost use Rattle.jn_base.specs.declared.names.Tickets.{Tickets};
ghost use Rattle.jn_rows.specs.Coordinator as rows;
ghost use Rattle.jn_rows.specs.Coordinator.{CoordinatorTable, is_committed};
ghost use Rattle.jn_transactions.specs.Stages.{goes, is_decided};
ghost use Rattle.jn_transactions.specs.Telling.{Adds};
ghost use Rattle.jn_transactions.specs.Closing.{is_of, takes_part, known, knowing, next_closing, tid_in, left_of, count_left};

use crate::faults::CoordFault;
use crate::sending::{note, send};
use crate::table::all_in;
use jn_base::{ClientNo, Party, RequestNo, Tid};
use jn_msgs::{Message, Note, Out};
use jn_rows::{Stage, Transaction};

/// Whether a transaction goes once its client has gone on.
fn goes(stage: &Stage) -> bool
    ensures { result ≡ goes stage.now }
{
    match stage {
        Stage::Committed(d) => all_in(d.works.as_slice(), d.done.as_slice()),
        _ => true,
    }
}

pub fn is_committed(stage: &Stage) -> bool
    ensures { result ≡ is_committed stage.now }
{
    matches!(stage, Stage::Committed(_))
}

fn is_decided(stage: &Stage) -> bool
    ensures { result ≡ is_decided stage.now }
{
    matches!(stage, Stage::Committed(_) | Stage::Aborted(_))
}

/// Whether a transaction goes where a client goes on; or, with none named, where every client knows its outcomes.
fn takes_part(x: &Transaction, who: Option<ClientNo>) -> bool
    ensures { result ≡ takes_part who x.now }
{
    match who {
        Some(client) => x.client == client && goes(&x.stage),
        None => is_decided(&x.stage) && goes(&x.stage),
    }
}

/// The first transaction that goes.
pub fn next_closing(transactions: &[Transaction], who: Option<ClientNo>) -> Option<&Transaction>
    ensures { option_copied result ≡ next_closing who transactions.now }
{
    for x in transactions {
        if takes_part(x, who) {
            return Some(x);
        }
    }
    None
}

/// 1 for a transaction that is left once a client's transactions are closed.
fn left_of(x: &Transaction, client: ClientNo) -> usize
    ensures { result ≡ left_of client x.now }
{
    if x.client == client && goes(&x.stage) {
        return 0;
    }
    1
}

/// How many transactions are left once a client's are closed.
#[tactic(auto, using(crate::proofs::Closings::left_one))]
pub fn count_left(transactions: &[Transaction], client: ClientNo) -> usize
    ensures { result ≡ count_left client transactions.now }
{
    let mut left = 0;
    for x in transactions {
        left += left_of(x, client);
    }
    left
}

fn is_of(client: ClientNo, who: Option<ClientNo>) -> bool
    ensures { result ≡ is_of who client }
{
    match who {
        Some(other) => client == other,
        None => true,
    }
}

/// Its client knows of a transaction, where it is one that does.
fn know(x: &mut Transaction, who: Option<ClientNo>)
    ensures { x.new ≡ known who x.old }
{
    if !is_of(x.client, who) {
        return;
    }
    if let Stage::Committed(d) = &mut x.stage {
        d.thanked = true;
    }
}

/// A client knows of its transactions, or every client does.
#[tactic(auto, using(crate::proofs::Closings::known_at, crate::proofs::Closings::known_end))]
pub fn know_all(transactions: &mut [Transaction], who: Option<ClientNo>)
    ensures { transactions.new ≡ knowing who transactions.old }
{
    for i in 0..transactions.len() {
        know(&mut transactions[i], who);
    }
}

/// The client's transaction that the request began.
fn begun_by(transactions: &[Transaction], client: ClientNo, request: RequestNo) -> Option<Tid>
    ensures { result ≡ tid_in (rows.begun_by client request transactions.now) }
{
    for x in transactions {
        if x.client == client && x.begun == Some(request) {
            return Some(x.tid);
        }
    }
    None
}

/// Answers a Begin that was answered before, while its transaction is live.
pub fn begin_again(
    transactions: &[Transaction],
    client: ClientNo,
    request: RequestNo,
    out: &mut Out,
) -> Result<(), CoordFault>
    ensures { (t : CoordinatorTable) (k : Tickets)
        → Adds (rows.begin_again t k client request (rows.begun_by client request transactions.now)).messages (rows.begin_again t k client request (rows.begun_by client request transactions.now)).notes out.old result out.new }
{
    let Some(tid) = begun_by(transactions, client, request) else {
        return note(out, Note::Ignored);
    };
    let begun = Message::Begun(client, request, Some(tid));
    send(out, Party::Client(client), begun)
}
