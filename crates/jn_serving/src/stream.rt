//! The frames of a source, served as they come.

ghost use Rattle.std.specs.Prelude.{◌≡◌, ◌≤◌, ◌<◌, ◌+◌, ◌^◌, min, None, IfOk, OnOk, length};
ghost use Rattle.std.specs.List.{AllByRecursion};
ghost use Rattle.jn_node.specs.Calls.{IsSameNode};
ghost use Rattle.jn_node.specs.Nodes.{IsNode, counts_at, running_at};
ghost use Rattle.jn_writing.specs.Outside.{sink_state, source_state};
ghost use Rattle.jn_serving.specs.Input.{most_bytes, most_piece};
ghost use Rattle.jn_serving.specs.Pieces.{ReadsPiece};
ghost use Rattle.jn_serving.specs.Streams.{EndsStream, ServesAll, ServesOne, ServesPiece, StreamsTo, start_of, told_of};
ghost use Rattle.jn_wire.specs.Stream.{kept_error, with_held};
ghost use Rattle.jn_wire.specs.Taking.{MayCome};
ghost use Rattle.jn_wire.specs.Unframing.{unframed};
ghost use Rattle.jn_wire.specs.declared.frame.Framed.{Framed as AFrame};

use crate::fault::{AnswerFault, StreamFault};
use jn_base::ServerNo;
use jn_host::{Failed, Sink, Source};
use jn_node::Node;
use jn_store::StableStore;
use jn_wire::{Framed, Unframer, WireError, what_is_read_can_be_taken};
use jn_writing::write_all;
use std::alloc::Global;

/// The longest input, in bytes.
pub const MOST_BYTES: usize = 4_194_304;

/// How many bytes are asked of the source at a time.
const PIECE: usize = 65_536;

/// Serves the frames of the source, to its end or to one byte more than the longest stream. What a read gives is used at once, so that
/// whoever waits for an answer before it sends more gets it.
pub fn serve_stream<S: StableStore + Drop, R: Source, K: Sink>(
    alloc: Global,
    server: ServerNo,
    node: &mut Node<S>,
    source: &mut R,
    sink: &mut K,
) -> Result<(), StreamFault>
    requires node { IsNode (λ s. S.view s) node.old }
    requires server { node.old.server ≡ server }
    requires fresh { node.old.running.tickets.next ≡ 0 }
    ensures node { OnOk result (IsNode (λ s. S.view s) node.new) }
    ensures same { OnOk result (IsSameNode node.old node.new) }
    ensures streams { StreamsTo (start_of server (counts_at node.old) (running_at (λ s. S.view s) node.old) (source_state R.left R.faults source.old) (sink_state K.taken K.faults sink.old))
        result (running_at (λ s. S.view s) node.new) (source_state R.left R.faults source.new) (sink_state K.taken K.faults sink.new) }
{
    let mut unframer = Unframer::new(alloc, server);
    // One list for all pieces, so that none takes memory of its own for its frames.
    let mut frames = Vec::new(alloc);
    let mut piece = [0; PIECE];
    let mut count = 0;
    while count <= MOST_BYTES {
        let given = read_piece(
            node,
            &mut unframer,
            &mut frames,
            &mut piece,
            count,
            source,
            sink,
        )?;
        if given == 0 {
            return end(&mut unframer);
        }
        count += given;
    }
    Err(StreamFault::TooLong)
}

/// Reads once, behind so many bytes, and serves the frames that end in what comes. Answers how many bytes came: none at the end alone.
fn read_piece<S: StableStore + Drop, R: Source, K: Sink>(
    node: &mut Node<S>,
    unframer: &mut Unframer,
    frames: &mut Vec<Framed>,
    piece: &mut [u8],
    count: usize,
    source: &mut R,
    sink: &mut K,
) -> Result<usize, StreamFault>
    requires node { IsNode (λ s. S.view s) node.old }
    requires no_error { kept_error unframer.old ≡ None }
    requires place { unframer.old.held.at + length unframer.old.held.bytes ≡ count }
    requires piece { length piece.old ≡ most_piece }
    requires fits { count ≤ most_bytes }
    requires next { node.old.running.tickets.next ≤ count }
    ensures node { OnOk result (IsNode (λ s. S.view s) node.new) }
    ensures same { OnOk result (IsSameNode node.old node.new) }
    ensures next { IfOk result (λ given. node.new.running.tickets.next ≤ count + given) }
    ensures place { IfOk result (λ given. unframer.new.held.at + length unframer.new.held.bytes ≡ min (count + given) most_bytes) }
    ensures most { IfOk result (λ given. count + given ≤ most_bytes + 1) }
    ensures reads { ReadsPiece (start_of node.old.server (counts_at node.old) (running_at (λ s. S.view s) node.old) (source_state R.left R.faults source.old) (sink_state K.taken K.faults sink.old))
        unframer.old count result (running_at (λ s. S.view s) node.new) unframer.new (source_state R.left R.faults source.new) (sink_state K.taken K.faults sink.new) }
{
    let room = PIECE.min(MOST_BYTES + 1 - count);
    let Ok(given) = source.read(&mut piece[..room]) else {
        return Err(StreamFault::Read);
    };
    // The byte that is one too many is in no frame.
    let fits = given.min(MOST_BYTES - count);
    serve_piece(node, unframer, frames, &piece[..fits], sink)?;
    Ok(given)
}

/// Serves the frames that end in a piece, and then says whether bytes that are no frame stand behind them.
fn serve_piece<S: StableStore + Drop, K: Sink>(
    node: &mut Node<S>,
    unframer: &mut Unframer,
    frames: &mut Vec<Framed>,
    piece: &[u8],
    sink: &mut K,
) -> Result<(), StreamFault>
    requires node { IsNode (λ s. S.view s) node.old }
    requires no_error { kept_error unframer.old ≡ None }
    requires place { unframer.old.held.at + length unframer.old.held.bytes + length piece.now < 2 ^ 64 }
    requires next { node.old.running.tickets.next + length piece.now + 1 < 2 ^ 32 }
    ensures node { OnOk result (IsNode (λ s. S.view s) node.new) }
    ensures same { OnOk result (IsSameNode node.old node.new) }
    ensures next { OnOk result (node.new.running.tickets.next ≤ node.old.running.tickets.next + length piece.now) }
    ensures held { OnOk result (unframer.new ≡ with_held unframer.old (unframed unframer.old.server unframer.old.held piece.now).held) }
    ensures place { OnOk result (unframer.new.held.at + length unframer.new.held.bytes ≡ unframer.old.held.at + length unframer.old.held.bytes + length piece.now) }
    ensures serves { ServesPiece node.old.server (counts_at node.old) (running_at (λ s. S.view s) node.old) (sink_state K.taken K.faults sink.old) (unframed unframer.old.server unframer.old.held piece.now)
        result (running_at (λ s. S.view s) node.new) (sink_state K.taken K.faults sink.new) }
{
    what_is_read_can_be_taken();
    frames.clear();
    match unframer.feed(piece, frames) {
        Ok(()) => told(serve_frames(node, frames.as_slice(), sink)),
        Err(WireError::Fault(_)) => {
            told(serve_frames(node, frames.as_slice(), sink))?;
            Err(StreamFault::NoFrame)
        }
        Err(WireError::Memory) => Err(StreamFault::Memory),
    }
}

/// Serves whole frames, one after another.
fn serve_frames<S: StableStore + Drop, K: Sink>(
    node: &mut Node<S>,
    frames: &[Framed],
    sink: &mut K,
) -> Result<(), AnswerFault>
    requires node { IsNode (λ s. S.view s) node.old }
    requires may { AllByRecursion (λ (f : AFrame). MayCome f.body) frames.now }
    requires next { node.old.running.tickets.next + length frames.now + 1 < 2 ^ 32 }
    ensures node { OnOk result (IsNode (λ s. S.view s) node.new) }
    ensures same { OnOk result (IsSameNode node.old node.new) }
    ensures next { OnOk result (node.new.running.tickets.next ≤ node.old.running.tickets.next + length frames.now) }
    ensures serves { ServesAll node.old.server (counts_at node.old) (running_at (λ s. S.view s) node.old) (sink_state K.taken K.faults sink.old) frames.now
        result (running_at (λ s. S.view s) node.new) (sink_state K.taken K.faults sink.new) }
{
    for framed in frames {
        serve_frame(node, framed, sink)?;
    }
    Ok(())
}

/// Serves a frame. What the server sends to others by it is written in one piece.
fn serve_frame<S: StableStore + Drop, K: Sink>(
    node: &mut Node<S>,
    framed: &Framed,
    sink: &mut K,
) -> Result<(), AnswerFault>
    requires node { IsNode (λ s. S.view s) node.old }
    requires may { MayCome framed.now.body }
    requires next { node.old.running.tickets.next + 2 < 2 ^ 32 }
    ensures node { OnOk result (IsNode (λ s. S.view s) node.new) }
    ensures same { OnOk result (IsSameNode node.old node.new) }
    ensures next { OnOk result (node.new.running.tickets.next ≤ node.old.running.tickets.next + 1) }
    ensures serves { ServesOne node.old.server (counts_at node.old) (running_at (λ s. S.view s) node.old) (sink_state K.taken K.faults sink.old) framed.now.body
        result (running_at (λ s. S.view s) node.new) (sink_state K.taken K.faults sink.new) }
{
    node.clear_answers();
    node.take(&framed.body)?;
    match write_all(sink, node.answers()) {
        Ok(()) => Ok(()),
        Err(Failed) => Err(AnswerFault::Write),
    }
}

/// The stream has ended: whether that is behind a whole frame.
fn end(unframer: &mut Unframer) -> Result<(), StreamFault>
    requires no_error { kept_error unframer.old ≡ None }
    ensures { EndsStream unframer.old.held.bytes result }
{
    match unframer.end() {
        Ok(()) => Ok(()),
        Err(WireError::Fault(_)) => Err(StreamFault::NoFrame),
        Err(WireError::Memory) => Err(StreamFault::Memory),
    }
}

/// What that is to a stream.
fn told(served: Result<(), AnswerFault>) -> Result<(), StreamFault>
    ensures { result ≡ told_of served }
{
    match served {
        Ok(()) => Ok(()),
        Err(AnswerFault::Write) => Err(StreamFault::Write),
        Err(AnswerFault::Memory) => Err(StreamFault::Memory),
    }
}
