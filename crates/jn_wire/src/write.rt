//! Frames written as bytes.
ghost use Rattle.std.specs.Prelude.{◌≡◌, ◌≤◌, ◌+◌, ◌++◌, ◌∷◌, ℕ, List, length, OnOk, OnErr};
ghost use Rattle.byteorder.specs.Endian.{big_bytes};
ghost use Rattle.jn_base.specs.Names.{refusal_number};
ghost use Rattle.jn_fields.specs.Names.{tid_bytes, work_bytes};
ghost use Rattle.jn_wire.specs.Appending.{Appends, IsFrontKept};
ghost use Rattle.jn_wire.specs.Sizes.{HasFewWorks, NamesFew, NamesFewIn};
ghost use Rattle.jn_wire.specs.Spelling.{answer_bytes, body_bytes, carried_bytes, cause_bytes, frame_bytes, message_bytes, op_bytes, outcome_bytes, tid_or, u32 as u32_bytes, vote_bytes, work_or, works_bytes};

use crate::frame::{Body, Framed};
use crate::put::{
    put_client, put_content, put_held, put_party, put_server, put_tid, put_two, put_u8, put_u16,
    put_u32, put_work, put_works,
};
use byteorder::{BigEndian, ByteOrder};
use jn_base::{
    Answer, BlockNo, Cause, ClientNo, FileNo, Op, OperationNo, RequestNo, Resource, ServerNo, Tid,
    WorkId,
};
use jn_msgs::{Message, Outcome, Vote, Works};
use std::alloc::AllocError;

/// Appends the bytes of a frame: two of its length, and as many as that says. An End or an Abort names at most 8
/// works. Where there is no memory, nothing is appended.
pub fn encode(framed: &Framed, out: &mut Vec<u8>) -> Result<(), AllocError>
    requires few { HasFewWorks framed.now }
    ensures ok { OnOk result (out.new.items ≡ out.old.items ++ frame_bytes framed.now) }
    ensures err { OnErr result (out.new.items ≡ out.old.items) }
{
    let start = out.len();
    let put = put_frame(out, framed);
    if put.is_err() {
        out.truncate(start);
    }
    put
}

/// The length is put once what follows it is there.
fn put_frame(out: &mut Vec<u8>, framed: &Framed) -> Result<(), AllocError>
    requires few { HasFewWorks framed.now }
    ensures ok { OnOk result (out.new.items ≡ out.old.items ++ frame_bytes framed.now) }
    ensures err { OnErr result (IsFrontKept out.old.items out.new.items) }
{
    let start = out.len();
    put_u16(out, 0)?;
    put_body(out, framed)?;
    let size = out.len() - start - 2;
    write_size(out, start, size as u16);
    Ok(())
}

/// Writes a length over the two bytes at a place.
fn write_size(out: &mut Vec<u8>, at: usize, size: u16)
    requires { at + 2 ≤ length out.old.items }
    ensures { (front rest : List ℕ) → length front ≡ at → out.old.items ≡ front ++ (0 ∷ 0 ∷ rest) → out.new.items ≡ front ++ (big_bytes 2 size ++ rest) }
{
    let mut bytes = [0; 2];
    BigEndian::write_u16(&mut bytes, size);
    out[at] = bytes[0];
    out[at + 1] = bytes[1];
}

/// What follows the length: the parties, the kind and the fields.
fn put_body(out: &mut Vec<u8>, framed: &Framed) -> Result<(), AllocError>
    requires few { HasFewWorks framed.now }
    ensures { Appends (body_bytes framed.now) 478 out.old.items result out.new.items }
{
    put_party(out, framed.from)?;
    put_party(out, framed.to)?;
    put_carried(out, &framed.body)
}

fn put_carried(out: &mut Vec<u8>, body: &Body) -> Result<(), AllocError>
    requires few { NamesFewIn body.now }
    ensures { Appends (carried_bytes body.now) 474 out.old.items result out.new.items }
{
    match body {
        Body::Message(message) => put_message(out, message),
        Body::Nudge => put_u8(out, 17),
        Body::Timeout(tid) => {
            put_u8(out, 18)?;
            put_tid(out, *tid)
        }
    }
}

fn put_message(out: &mut Vec<u8>, message: &Message) -> Result<(), AllocError>
    requires few { NamesFew message.now }
    ensures { Appends (message_bytes message.now) 474 out.old.items result out.new.items }
{
    match message {
        Message::Begin(client, request) => put_request(out, 1, *client, *request),
        Message::Open(client, request, tid) => put_open(out, 2, *client, *request, *tid),
        Message::Op(client, request, work, number, op) => {
            put_operation(out, *client, *request, *work, *number)?;
            put_op(out, op)
        }
        Message::End(client, request, tid, works) => put_end(
            out, 4, *client, *request, *tid, works,
        ),
        Message::Abort(client, request, tid, works) => put_end(
            out, 5, *client, *request, *tid, works,
        ),
        Message::Thanks(client, tid) => put_of_client(out, 6, *client, *tid),
        Message::Begun(client, request, tid) => put_begun(out, *client, *request, *tid),
        Message::Opened(client, request, tid, work) => put_opened(
            out, *client, *request, *tid, *work,
        ),
        Message::Answer(client, request, answer) => {
            put_request(out, 9, *client, *request)?;
            put_answer(out, answer)
        }
        Message::Outcome(client, tid, outcome) => {
            put_of_client(out, 10, *client, *tid)?;
            put_outcome(out, *outcome)
        }
        Message::Prepare(tid, client, work) => put_prepare(out, *tid, *client, *work),
        Message::Commit(tid, work) => put_names(out, 12, *tid, *work),
        Message::Drop(tid, work) => put_names(out, 13, *tid, *work),
        Message::Vote(tid, work, vote) => {
            put_names(out, 14, *tid, *work)?;
            put_vote(out, *vote)
        }
        Message::Done(tid, work) => put_names(out, 15, *tid, *work),
        Message::Inquire(tid, work) => put_names(out, 16, *tid, *work),
    }
}

/// The kind, a client and its request.
fn put_request(
    out: &mut Vec<u8>,
    kind: u8,
    client: ClientNo,
    request: RequestNo,
) -> Result<(), AllocError>
    ensures { Appends (kind ∷ client.0 ∷ u32_bytes request.0) 6 out.old.items result out.new.items }
{
    put_client(out, kind, client)?;
    put_u32(out, request.0)
}

/// The kind, a client and its transaction.
fn put_of_client(out: &mut Vec<u8>, kind: u8, client: ClientNo, tid: Tid) -> Result<(), AllocError>
    ensures { Appends (kind ∷ client.0 ∷ tid_bytes tid) 11 out.old.items result out.new.items }
{
    put_client(out, kind, client)?;
    put_tid(out, tid)
}

/// The kind and a transaction.
fn put_kind(out: &mut Vec<u8>, kind: u8, tid: Tid) -> Result<(), AllocError>
    ensures { Appends (kind ∷ tid_bytes tid) 10 out.old.items result out.new.items }
{
    put_u8(out, kind)?;
    put_tid(out, tid)
}

/// The kind, a transaction and its work.
fn put_names(out: &mut Vec<u8>, kind: u8, tid: Tid, work: WorkId) -> Result<(), AllocError>
    ensures { Appends (kind ∷ tid_bytes tid ++ work_bytes work) 19 out.old.items result out.new.items }
{
    put_kind(out, kind, tid)?;
    put_work(out, work)
}

/// The kind, a client, its request and a transaction.
fn put_open(
    out: &mut Vec<u8>,
    kind: u8,
    client: ClientNo,
    request: RequestNo,
    tid: Tid,
) -> Result<(), AllocError>
    ensures { Appends (kind ∷ client.0 ∷ u32_bytes request.0 ++ tid_bytes tid) 15 out.old.items result out.new.items }
{
    put_request(out, kind, client, request)?;
    put_tid(out, tid)
}

/// An End or an Abort: the transaction, and its works behind their count.
fn put_end(
    out: &mut Vec<u8>,
    kind: u8,
    client: ClientNo,
    request: RequestNo,
    tid: Tid,
    works: &Works,
) -> Result<(), AllocError>
    requires few { length works.now ≤ 8 }
    ensures { Appends (kind ∷ client.0 ∷ u32_bytes request.0 ++ tid_bytes tid ++ length works.now ∷ works_bytes works.now) 88 out.old.items result out.new.items }
{
    put_open(out, kind, client, request, tid)?;
    put_list(out, works.as_slice())
}

/// Names of works behind their count.
fn put_list(out: &mut Vec<u8>, works: &[WorkId]) -> Result<(), AllocError>
    requires few { length works.now ≤ 8 }
    ensures { Appends (length works.now ∷ works_bytes works.now) 73 out.old.items result out.new.items }
{
    put_u8(out, works.len() as u8)?;
    put_works(out, works)
}

fn put_prepare(
    out: &mut Vec<u8>,
    tid: Tid,
    client: ClientNo,
    work: WorkId,
) -> Result<(), AllocError>
    ensures { Appends (11 ∷ tid_bytes tid ++ client.0 ∷ work_bytes work) 20 out.old.items result out.new.items }
{
    put_kind(out, 11, tid)?;
    put_client_work(out, client, work)
}

fn put_client_work(out: &mut Vec<u8>, client: ClientNo, work: WorkId) -> Result<(), AllocError>
    ensures { Appends (client.0 ∷ work_bytes work) 10 out.old.items result out.new.items }
{
    put_u8(out, client.0)?;
    put_work(out, work)
}

/// A request for an operation, but for the operation itself.
fn put_operation(
    out: &mut Vec<u8>,
    client: ClientNo,
    request: RequestNo,
    work: WorkId,
    number: OperationNo,
) -> Result<(), AllocError>
    ensures { Appends (3 ∷ client.0 ∷ u32_bytes request.0 ++ work_bytes work ++ u32_bytes number.0) 19 out.old.items result out.new.items }
{
    put_request(out, 3, client, request)?;
    put_numbered(out, work, number)
}

fn put_numbered(out: &mut Vec<u8>, work: WorkId, number: OperationNo) -> Result<(), AllocError>
    ensures { Appends (work_bytes work ++ u32_bytes number.0) 13 out.old.items result out.new.items }
{
    put_work(out, work)?;
    put_u32(out, number.0)
}

/// 0 and the new transaction, or the refusal for want of room for one.
fn put_begun(
    out: &mut Vec<u8>,
    client: ClientNo,
    request: RequestNo,
    tid: Option<Tid>,
) -> Result<(), AllocError>
    ensures { Appends (7 ∷ client.0 ∷ u32_bytes request.0 ++ tid_or 21 tid) 16 out.old.items result out.new.items }
{
    put_request(out, 7, client, request)?;
    match tid {
        None => put_u8(out, 21),
        Some(tid) => {
            put_u8(out, 0)?;
            put_tid(out, tid)
        }
    }
}

/// The transaction, and 0 and its new work, or the refusal for want of room for one.
fn put_opened(
    out: &mut Vec<u8>,
    client: ClientNo,
    request: RequestNo,
    tid: Tid,
    work: Option<WorkId>,
) -> Result<(), AllocError>
    ensures { Appends (8 ∷ client.0 ∷ u32_bytes request.0 ++ tid_bytes tid ++ work_or 22 work) 25 out.old.items result out.new.items }
{
    put_open(out, 8, client, request, tid)?;
    match work {
        None => put_u8(out, 22),
        Some(work) => {
            put_u8(out, 0)?;
            put_work(out, work)
        }
    }
}

fn put_op(out: &mut Vec<u8>, op: &Op) -> Result<(), AllocError>
    ensures { Appends (op_bytes op.now) 455 out.old.items result out.new.items }
{
    match op {
        Op::Create(file) => put_of_file(out, 1, *file),
        Op::Remove(file) => put_of_file(out, 2, *file),
        Op::Cut(file, block) => put_of_block(out, 3, *file, *block),
        Op::Read(file, block) => put_of_block(out, 4, *file, *block),
        Op::Write(file, block, content) => {
            put_of_block(out, 5, *file, *block)?;
            put_content(out, content)
        }
    }
}

fn put_of_file(out: &mut Vec<u8>, code: u8, file: FileNo) -> Result<(), AllocError>
    ensures { Appends (code ∷ u32_bytes file.0) 5 out.old.items result out.new.items }
{
    put_u8(out, code)?;
    put_u32(out, file.0)
}

fn put_of_block(out: &mut Vec<u8>, code: u8, file: FileNo, block: BlockNo) -> Result<(), AllocError>
    ensures { Appends (code ∷ u32_bytes file.0 ++ big_bytes 2 block.0) 7 out.old.items result out.new.items }
{
    put_of_file(out, code, file)?;
    put_u16(out, block.0)
}

fn put_answer(out: &mut Vec<u8>, answer: &Answer) -> Result<(), AllocError>
    ensures { Appends (answer_bytes answer.now) 449 out.old.items result out.new.items }
{
    match answer {
        Answer::Did => put_u8(out, 0),
        Answer::Read(content) => {
            put_u8(out, 1)?;
            put_content(out, content)
        }
        Answer::NoFile => put_u8(out, 11),
        Answer::Exists => put_u8(out, 12),
        Answer::Locked(unit, tid) => {
            put_u8(out, 13)?;
            put_held(out, *unit, *tid)
        }
        Answer::TooManyReads => put_u8(out, 14),
        Answer::TooManyWrites => put_u8(out, 15),
        Answer::Broken(unit, tid) => {
            put_u8(out, 16)?;
            put_held(out, *unit, *tid)
        }
        Answer::Lost(then, now) => {
            put_u8(out, 17)?;
            put_two(out, *then, *now)
        }
        Answer::Closing => put_u8(out, 18),
    }
}

/// 0, the cause of an abort, or 5 and 6 with what else an End may be answered.
fn put_outcome(out: &mut Vec<u8>, outcome: Outcome) -> Result<(), AllocError>
    ensures { Appends (outcome_bytes outcome) 17 out.old.items result out.new.items }
{
    match outcome {
        Outcome::Committed => put_u8(out, 0),
        Outcome::Aborted(cause) => put_cause(out, cause),
        Outcome::Waiting(server, unit, tid) => {
            put_server(out, 5, server)?;
            put_held(out, unit, tid)
        }
        Outcome::NotKnown(server, epoch) => {
            put_server(out, 6, server)?;
            put_u32(out, epoch)
        }
    }
}

fn put_cause(out: &mut Vec<u8>, cause: Cause) -> Result<(), AllocError>
    ensures { Appends (cause_bytes cause) 17 out.old.items result out.new.items }
{
    match cause {
        Cause::Requested => put_u8(out, 1),
        Cause::Broken(server, unit, tid) => {
            put_server(out, 2, server)?;
            put_held(out, unit, tid)
        }
        Cause::Lost(server) => { put_server(out, 3, server) }
        Cause::Full(server, resource, free, need) => {
            put_server(out, 4, server)?;
            put_short(out, resource, free, need)
        }
    }
}

/// What there is too little of, by its refusal's number, what is free and what is needed.
fn put_short(out: &mut Vec<u8>, resource: Resource, free: u32, need: u32) -> Result<(), AllocError>
    ensures { Appends (refusal_number resource ∷ u32_bytes free ++ u32_bytes need) 9 out.old.items result out.new.items }
{
    put_u8(out, resource.refusal_number())?;
    put_two(out, free, need)
}

fn put_vote(out: &mut Vec<u8>, vote: Vote) -> Result<(), AllocError>
    ensures { Appends (vote_bytes vote) 16 out.old.items result out.new.items }
{
    match vote {
        Vote::Ready => put_u8(out, 0),
        Vote::Waiting(unit, tid) => {
            put_u8(out, 1)?;
            put_held(out, unit, tid)
        }
        Vote::Broken(unit, tid) => {
            put_u8(out, 2)?;
            put_held(out, unit, tid)
        }
        Vote::Lost(then, now) => {
            put_u8(out, 3)?;
            put_two(out, then, now)
        }
        Vote::Full(resource, free, need) => {
            put_u8(out, 4)?;
            put_short(out, resource, free, need)
        }
    }
}
