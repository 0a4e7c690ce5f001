//! What a coordinator sends.

ghost use Rattle.std.specs.Prelude.{◌≡◌, [], ◌∷◌, ◌++◌};
ghost use Rattle.jn_base.specs.declared.names.Party.TheVariants as parties;
ghost use Rattle.jn_msgs.specs.declared.message.Message.TheVariants as messages;
ghost use Rattle.jn_msgs.specs.declared.message.Outcome.TheVariants as outcomes;
ghost use Rattle.jn_msgs.specs.declared.message.Note.TheVariants as notes;
ghost use Rattle.jn_base.specs.declared.names.Tickets.{Tickets};
ghost use Rattle.jn_rows.specs.declared.coordinator.Stage.TheVariants as stages;
ghost use Rattle.jn_rows.specs.Coordinator as rows;
ghost use Rattle.jn_rows.specs.Coordinator.{CoordinatorTable};
ghost use Rattle.jn_transactions.specs.Telling.{Adds, added};

use crate::faults::CoordFault;
use crate::table::{besides, is_awaited};
use jn_base::{Cause, ClientNo, Party, Tickets, Tid, WorkId};
use jn_msgs::{Message, Note, Out, Outcome, Works};
use jn_rows::{Committed, Stage, Transaction};
use std::alloc::Global;

/// Sends a message.
#[tactic(auto, using(crate::proofs::Sends::longer_same))]
pub fn send(out: &mut Out, to: Party, message: Message) -> Result<(), CoordFault>
    ensures { Adds ((to, message) ∷ []) [] out.old result out.new }
{
    match out.send(to, message) {
        Ok(()) => Ok(()),
        Err(_) => Err(CoordFault::Memory),
    }
}

/// Sends its outcome to a transaction's client.
pub fn send_outcome(
    out: &mut Out,
    client: ClientNo,
    tid: Tid,
    outcome: Outcome,
) -> Result<(), CoordFault>
    ensures { Adds ((parties.Client client, messages.Outcome client tid outcome) ∷ []) [] out.old result out.new }
{
    send(
        out,
        Party::Client(client),
        Message::Outcome(client, tid, outcome),
    )
}

/// Reports that a message is stale.
#[tactic(auto, using(crate::proofs::Sends::longer_same))]
pub fn note(out: &mut Out, note: Note) -> Result<(), CoordFault>
    ensures { Adds [] (note ∷ []) out.old result out.new }
{
    match out.note(note) {
        Ok(()) => Ok(()),
        Err(_) => Err(CoordFault::Memory),
    }
}

pub fn send_drops(out: &mut Out, tid: Tid, works: &[WorkId]) -> Result<(), CoordFault>
    ensures { Adds (rows.drops tid works.now) [] out.old result out.new }
{
    for work in works {
        send(out, Party::Server(work.server), Message::Drop(tid, *work))?;
    }
    Ok(())
}

fn send_commits(out: &mut Out, tid: Tid, works: &[WorkId]) -> Result<(), CoordFault>
    ensures { Adds (rows.commits tid works.now) [] out.old result out.new }
{
    for work in works {
        send(out, Party::Server(work.server), Message::Commit(tid, *work))?;
    }
    Ok(())
}

pub fn send_prepares(
    out: &mut Out,
    tid: Tid,
    client: ClientNo,
    works: &[WorkId],
) -> Result<(), CoordFault>
    ensures { Adds (rows.prepares tid client works.now) [] out.old result out.new }
{
    for work in works {
        send(
            out,
            Party::Server(work.server),
            Message::Prepare(tid, client, *work),
        )?;
    }
    Ok(())
}

/// Drops these works, and tells the client why.
pub fn tell_abort(
    out: &mut Out,
    client: ClientNo,
    tid: Tid,
    cause: Cause,
    works: &[WorkId],
) -> Result<(), CoordFault>
    ensures { Adds (rows.drops tid works.now ++ (parties.Client client, messages.Outcome client tid (outcomes.Aborted cause)) ∷ []) [] out.old result out.new }
{
    send_drops(out, tid, works)?;
    send_outcome(out, client, tid, Outcome::Aborted(cause))
}

/// Tells the works and the client that a transaction committed.
pub fn tell_commit(
    out: &mut Out,
    client: ClientNo,
    tid: Tid,
    works: &[WorkId],
) -> Result<(), CoordFault>
    ensures { Adds (rows.commits tid works.now ++ (parties.Client client, messages.Outcome client tid outcomes.Committed) ∷ []) (notes.Commit tid ∷ []) out.old result out.new }
{
    note(out, Note::Commit(tid))?;
    send_commits(out, tid, works)?;
    send_outcome(out, client, tid, Outcome::Committed)
}

/// Tells a work the outcome that it asks for, where there is one.
#[tactic(auto, using(crate::proofs::Sends::added_none))]
pub fn tell_work(out: &mut Out, tid: Tid, work: WorkId, stage: &Stage) -> Result<(), CoordFault>
    ensures { (t : CoordinatorTable) (k : Tickets)
        → Adds (rows.told_stage t k tid work stage.now).messages (rows.told_stage t k tid work stage.now).notes out.old result out.new }
{
    match stage {
        Stage::Open | Stage::Voting(_) => Ok(()),
        Stage::Committed(d) if is_awaited(d, work) => send_commits(out, tid, &[work]),
        _ => send_drops(out, tid, &[work]),
    }
}

/// Tells that no such transaction is known.
pub fn tell_not_known(
    out: &mut Out,
    client: ClientNo,
    tid: Tid,
    works: &Works,
    tickets: Tickets,
) -> Result<(), CoordFault>
    ensures { (t : CoordinatorTable)
        → Adds (rows.not_known t tickets client tid works.now).messages [] out.old result out.new }
{
    let outcome = Outcome::NotKnown(tickets.server, tickets.epoch);
    send_outcome(out, client, tid, outcome)?;
    send_drops(out, tid, works.as_slice())
}

/// Tells once more what a transaction has told.
#[tactic(auto, using(crate::proofs::Sends::added_none))]
fn tell_again(alloc: Global, out: &mut Out, x: &Transaction) -> Result<(), CoordFault>
    ensures { Adds (rows.told_again x.now x.now.stage) [] out.old result out.new }
{
    match &x.stage {
        Stage::Open | Stage::Voting(_) => Ok(()),
        Stage::Aborted(cause) => send_outcome(out, x.client, x.tid, Outcome::Aborted(*cause)),
        Stage::Committed(d) => tell_committed_again(alloc, out, x, d),
    }
}

#[tactic(auto, using(crate::proofs::Sends::added_nil, crate::proofs::Sends::adds_gave_up))]
fn tell_committed_again(
    alloc: Global,
    out: &mut Out,
    x: &Transaction,
    d: &Committed,
) -> Result<(), CoordFault>
    ensures { Adds (rows.told_again x.now (stages.Committed d.now)) [] out.old result out.new }
{
    let waiting = besides(alloc, d.works.as_slice(), d.done.as_slice())?;
    send_commits(out, x.tid, &waiting)?;
    if d.thanked {
        return Ok(());
    }
    send_outcome(out, x.client, x.tid, Outcome::Committed)
}

/// Tells once more what decided transactions have told.
pub fn tell_all_again(
    alloc: Global,
    out: &mut Out,
    transactions: &[Transaction],
) -> Result<(), CoordFault>
    ensures { Adds (rows.coordinator_again transactions.now) [] out.old result out.new }
{
    for x in transactions {
        tell_again(alloc, out, x)?;
    }
    Ok(())
}
