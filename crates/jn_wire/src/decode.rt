//! What a whole frame says to a server.
ghost use Rattle.std.specs.Prelude.{◌≡◌, Some};
ghost use Rattle.jn_wire.specs.Fields.{Gives};
ghost use Rattle.jn_wire.specs.Decoding.{abort_by, any_body, begin_by, body_by, client_body, decode, end_by, is_of_client, is_of_server, is_server, is_taken, op, op_by, open_by, party_of, prepare_in, server_body, thanks_by, vote, vote_in};
ghost use Rattle.jn_wire.specs.Reading.{Decodes};

use crate::fields::{
    OUT_OF_RANGE, ReadFault, WRONG_KIND, WRONG_LENGTH, WRONG_PARTY, block, byte, client, content,
    file, request, resource, sender, tid, u32_at, unit, work, works,
};
use crate::frame::{Body, Framed};
use jn_base::{ClientNo, Op, OperationNo, Party, ServerNo};
use jn_msgs::{Message, Vote};
use std::alloc::Global;

/// What follows the length of a frame that this server gets: the kind is tested first, then the parties.
#[tactic(auto, unfolding(crate::specs::Decoding::decode))]
pub fn decode(alloc: Global, server: ServerNo, bytes: &[u8]) -> Result<Framed, ReadFault>
    ensures { Decodes result (decode server bytes.now) }
{
    let [a, b, c, d, kind, fields @ ..] = bytes else {
        return Err(ReadFault::Wrong(WRONG_LENGTH));
    };
    if !is_taken(*kind) {
        return Err(ReadFault::Wrong(WRONG_KIND));
    }
    if !is_server(server, party_of(*c, *d)) {
        return Err(ReadFault::Wrong(WRONG_PARTY));
    }
    let Some(from) = party_of(*a, *b) else {
        return Err(ReadFault::Wrong(WRONG_PARTY));
    };
    let (body, rest) = body_by(alloc, from, *kind, fields)?;
    if !rest.is_empty() {
        return Err(ReadFault::Wrong(WRONG_LENGTH));
    }
    Ok(Framed {
        from,
        to: Party::Server(server),
        body,
    })
}

fn is_of_client(kind: u8) -> bool
    ensures { result ≡ is_of_client kind }
{
    1 <= kind && kind <= 6
}

fn is_of_server(kind: u8) -> bool
    ensures { result ≡ is_of_server kind }
{
    11 <= kind && kind <= 16
}

fn is_taken(kind: u8) -> bool
    ensures { result ≡ is_taken kind }
{
    is_of_client(kind) || 11 <= kind && kind <= 18
}

/// A client 1 to 8, or a server 0 to 7.
fn party_of(kind: u8, n: u8) -> Option<Party>
    ensures { result ≡ party_of kind n }
{
    if kind == 1 && (1 <= n && n <= 8) {
        Some(Party::Client(ClientNo(n)))
    } else if kind == 2 && n <= 7 {
        Some(Party::Server(ServerNo(n)))
    } else {
        None
    }
}

fn is_server(server: ServerNo, party: Option<Party>) -> bool
    ensures { result ≡ is_server server party }
{
    match party {
        Some(Party::Server(to)) => to.0 == server.0,
        _ => false,
    }
}

/// The fields, by who sends them.
fn body_by(alloc: Global, from: Party, kind: u8, bytes: &[u8]) -> Result<(Body, &[u8]), ReadFault>
    ensures { Gives (λ r. (r.0, r.1.now)) result (body_by (Some from) kind bytes.now) }
{
    match from {
        Party::Client(_) if is_of_server(kind) => Err(ReadFault::Wrong(WRONG_PARTY)),
        Party::Client(client) if is_of_client(kind) => client_body(alloc, client, kind, bytes),
        Party::Server(_) if is_of_client(kind) => Err(ReadFault::Wrong(WRONG_PARTY)),
        Party::Server(_) if is_of_server(kind) => server_body(kind, bytes),
        _ => any_body(kind, bytes),
    }
}

/// The fields of a message that this client sends, by its kind.
#[tactic(auto, unfolding(crate::specs::Decoding::client_body))]
fn client_body(
    alloc: Global,
    from: ClientNo,
    kind: u8,
    bytes: &[u8],
) -> Result<(Body, &[u8]), ReadFault>
    ensures { Gives (λ r. (r.0, r.1.now)) result (client_body from kind bytes.now) }
{
    match kind {
        1 => begin_by(from, bytes),
        2 => open_by(from, bytes),
        3 => op_by(alloc, from, bytes),
        4 => end_by(alloc, from, bytes),
        5 => abort_by(alloc, from, bytes),
        6 => thanks_by(from, bytes),
        _ => Err(ReadFault::Wrong(WRONG_KIND)),
    }
}

#[tactic(auto, unfolding(crate::specs::Decoding::begin_by))]
fn begin_by(from: ClientNo, bytes: &[u8]) -> Result<(Body, &[u8]), ReadFault>
    ensures { Gives (λ r. (r.0, r.1.now)) result (begin_by from bytes.now) }
{
    let (client, rest) = sender(from, bytes)?;
    let (request, rest) = request(rest)?;
    Ok((Body::Message(Message::Begin(client, request)), rest))
}

#[tactic(auto, unfolding(crate::specs::Decoding::open_by))]
fn open_by(from: ClientNo, bytes: &[u8]) -> Result<(Body, &[u8]), ReadFault>
    ensures { Gives (λ r. (r.0, r.1.now)) result (open_by from bytes.now) }
{
    let (client, rest) = sender(from, bytes)?;
    let (request, rest) = request(rest)?;
    let (tid, rest) = tid(rest)?;
    Ok((Body::Message(Message::Open(client, request, tid)), rest))
}

#[tactic(auto, unfolding(crate::specs::Decoding::op_by, crate::specs::Fields::operation))]
fn op_by(alloc: Global, from: ClientNo, bytes: &[u8]) -> Result<(Body, &[u8]), ReadFault>
    ensures { Gives (λ r. (r.0, r.1.now)) result (op_by from bytes.now) }
{
    let (client, rest) = sender(from, bytes)?;
    let (request, rest) = request(rest)?;
    let (work, rest) = work(rest)?;
    let (number, rest) = u32_at(rest)?;
    let (op, rest) = op(alloc, rest)?;
    let message = Message::Op(client, request, work, OperationNo(number), op);
    Ok((Body::Message(message), rest))
}

#[tactic(auto, unfolding(crate::specs::Decoding::end_by))]
fn end_by(alloc: Global, from: ClientNo, bytes: &[u8]) -> Result<(Body, &[u8]), ReadFault>
    ensures { Gives (λ r. (r.0, r.1.now)) result (end_by from bytes.now) }
{
    let (client, rest) = sender(from, bytes)?;
    let (request, rest) = request(rest)?;
    let (tid, rest) = tid(rest)?;
    let (works, rest) = works(alloc, rest)?;
    let message = Message::End(client, request, tid, works);
    Ok((Body::Message(message), rest))
}

#[tactic(auto, unfolding(crate::specs::Decoding::abort_by))]
fn abort_by(alloc: Global, from: ClientNo, bytes: &[u8]) -> Result<(Body, &[u8]), ReadFault>
    ensures { Gives (λ r. (r.0, r.1.now)) result (abort_by from bytes.now) }
{
    let (client, rest) = sender(from, bytes)?;
    let (request, rest) = request(rest)?;
    let (tid, rest) = tid(rest)?;
    let (works, rest) = works(alloc, rest)?;
    let message = Message::Abort(client, request, tid, works);
    Ok((Body::Message(message), rest))
}

#[tactic(auto, unfolding(crate::specs::Decoding::thanks_by))]
fn thanks_by(from: ClientNo, bytes: &[u8]) -> Result<(Body, &[u8]), ReadFault>
    ensures { Gives (λ r. (r.0, r.1.now)) result (thanks_by from bytes.now) }
{
    let (client, rest) = sender(from, bytes)?;
    let (tid, rest) = tid(rest)?;
    Ok((Body::Message(Message::Thanks(client, tid)), rest))
}

/// The fields of a message that a server sends, by its kind.
#[tactic(auto, unfolding(crate::specs::Decoding::server_body, crate::specs::Decoding::names_in))]
fn server_body(kind: u8, bytes: &[u8]) -> Result<(Body, &[u8]), ReadFault>
    ensures { Gives (λ r. (r.0, r.1.now)) result (server_body kind bytes.now) }
{
    match kind {
        11 => prepare_in(bytes),
        14 => vote_in(bytes),
        12 | 13 | 15 | 16 => {
            let (tid, rest) = tid(bytes)?;
            let (work, rest) = work(rest)?;
            let message = match kind {
                12 => Message::Commit(tid, work),
                13 => Message::Drop(tid, work),
                15 => Message::Done(tid, work),
                _ => Message::Inquire(tid, work),
            };
            Ok((Body::Message(message), rest))
        }
        _ => Err(ReadFault::Wrong(WRONG_KIND)),
    }
}

#[tactic(auto, unfolding(crate::specs::Decoding::prepare_in))]
fn prepare_in(bytes: &[u8]) -> Result<(Body, &[u8]), ReadFault>
    ensures { Gives (λ r. (r.0, r.1.now)) result (prepare_in bytes.now) }
{
    let (tid, rest) = tid(bytes)?;
    let (client, rest) = client(rest)?;
    let (work, rest) = work(rest)?;
    Ok((Body::Message(Message::Prepare(tid, client, work)), rest))
}

#[tactic(auto, unfolding(crate::specs::Decoding::vote_in))]
fn vote_in(bytes: &[u8]) -> Result<(Body, &[u8]), ReadFault>
    ensures { Gives (λ r. (r.0, r.1.now)) result (vote_in bytes.now) }
{
    let (tid, rest) = tid(bytes)?;
    let (work, rest) = work(rest)?;
    let (vote, rest) = vote(rest)?;
    Ok((Body::Message(Message::Vote(tid, work, vote)), rest))
}

/// The fields of what anyone may send.
#[tactic(auto, unfolding(crate::specs::Decoding::any_body))]
fn any_body(kind: u8, bytes: &[u8]) -> Result<(Body, &[u8]), ReadFault>
    ensures { Gives (λ r. (r.0, r.1.now)) result (any_body kind bytes.now) }
{
    match kind {
        17 => Ok((Body::Nudge, bytes)),
        18 => {
            let (tid, rest) = tid(bytes)?;
            Ok((Body::Timeout(tid), rest))
        }
        _ => Err(ReadFault::Wrong(WRONG_KIND)),
    }
}

#[tactic(auto, unfolding(crate::specs::Decoding::op, crate::specs::Decoding::op_of))]
fn op(alloc: Global, bytes: &[u8]) -> Result<(Op, &[u8]), ReadFault>
    ensures { Gives (λ r. (r.0, r.1.now)) result (op bytes.now) }
{
    let (code, rest) = byte(bytes)?;
    if code < 1 || 5 < code {
        return Err(ReadFault::Wrong(OUT_OF_RANGE));
    }
    let (file, rest) = file(rest)?;
    if code == 1 {
        return Ok((Op::Create(file), rest));
    }
    if code == 2 {
        return Ok((Op::Remove(file), rest));
    }
    let (block, rest) = block(rest)?;
    match code {
        3 => Ok((Op::Cut(file, block), rest)),
        4 => Ok((Op::Read(file, block), rest)),
        _ => {
            let (content, rest) = content(alloc, rest)?;
            Ok((Op::Write(file, block, content), rest))
        }
    }
}

#[tactic(auto, unfolding(crate::specs::Decoding::vote, crate::specs::Decoding::vote_of))]
fn vote(bytes: &[u8]) -> Result<(Vote, &[u8]), ReadFault>
    ensures { Gives (λ r. (r.0, r.1.now)) result (vote bytes.now) }
{
    let (code, rest) = byte(bytes)?;
    match code {
        0 => Ok((Vote::Ready, rest)),
        1 | 2 => {
            let (unit, rest) = unit(rest)?;
            let (tid, rest) = tid(rest)?;
            if code == 1 {
                Ok((Vote::Waiting(unit, tid), rest))
            } else {
                Ok((Vote::Broken(unit, tid), rest))
            }
        }
        3 => {
            let (then, rest) = u32_at(rest)?;
            let (now, rest) = u32_at(rest)?;
            Ok((Vote::Lost(then, now), rest))
        }
        4 => {
            let (resource, rest) = resource(rest)?;
            let (free, rest) = u32_at(rest)?;
            let (need, rest) = u32_at(rest)?;
            Ok((Vote::Full(resource, free, need), rest))
        }
        _ => Err(ReadFault::Wrong(OUT_OF_RANGE)),
    }
}
