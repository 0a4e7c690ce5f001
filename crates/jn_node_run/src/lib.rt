//! One server on a stream: it comes up on its image, serves the frames of the source, and its disk is saved.
//!
//! `specs/Outcome.antt` says what is left, by each way to end.
#![tactic(auto)]

ghost use Rattle.std.specs.Prelude.{◌≡◌};
ghost use Rattle.jn_image_files.specs.Opened.{AreWithin, IsClosed};
ghost use Rattle.jn_node.specs.Nodes.{IsNode, running_at};
ghost use Rattle.jn_options.specs.Words.{IsNodeInRange};
ghost use Rattle.jn_recovery.specs.Counts.{counts_by};
ghost use Rattle.jn_node_run.specs.Outcome.{NodeEnds};
ghost use Rattle.jn_node_run.specs.Parts.{DiskKept, IsOwnStore, ServerKept, status_of, status_then};
ghost use Rattle.jn_writing.specs.Outside.{keeper_state, outside};

use jn_host::{KeepFailure, Keeper, Sink, Source};
use jn_image_files::{ExamineFault, examine_image, load_image, save_image};
use jn_intent::PageCounts;
use jn_memdisk::MemDisk;
use jn_node::{Node as Server, NodeFault, open};
use jn_options::Node;
use jn_serving::{StreamFault, serve_stream};
use jn_stable::Pairs;
use jn_status::{Status, refuse_image};
use jn_store::{Powered, StableStore};
use std::alloc::Global;

/// The disk of a server.
type Disk = Pairs<MemDisk>;

/// Serves one server: its image is loaded and examined, and nothing is read before. Then the frames of the source are served to its
/// end, and the disk that is left is saved.
pub fn serve<S: Source, K: Sink, I: Keeper>(
    alloc: Global,
    node: &Node,
    source: &mut S,
    sink: &mut K,
    keeper: &mut I,
) -> Status
    requires range { IsNodeInRange node.now }
    ensures outcome { NodeEnds node.now
        (outside S.left S.faults K.taken K.faults I.kept I.faults source.old sink.old keeper.old)
        (outside S.left S.faults K.taken K.faults I.kept I.faults source.new sink.new keeper.new) result }
{
    let content = match load_image(alloc, keeper, node.opening.as_str(), node.server) {
        Ok(content) => content,
        Err(KeepFailure::Failed) => return Status::Keep,
        Err(KeepFailure::Memory) => return Status::Memory,
    };
    match examine_image(alloc, &content, node.server) {
        Ok((store, counts)) => serve_store(alloc, node, store, counts, source, sink, keeper),
        Err(ExamineFault::Refused(refusal)) => refuse_image(alloc, refusal, sink),
        Err(ExamineFault::Memory) => Status::Memory,
    }
}

/// The server comes up on its disk, and serves the frames of the source.
fn serve_store<S: Source, K: Sink, I: Keeper>(
    alloc: Global,
    node: &Node,
    store: Disk,
    counts: PageCounts,
    source: &mut S,
    sink: &mut K,
    keeper: &mut I,
) -> Status
    requires range { IsNodeInRange node.now }
    requires own { IsOwnStore (⟦<Pairs<MemDisk> as StableStore>⟧.view) (⟦<Pairs<MemDisk> as Powered>⟧.device) node.now (I.kept keeper.old) (store, counts) }
    ensures outcome { NodeEnds node.now
        (outside S.left S.faults K.taken K.faults I.kept I.faults source.old sink.old keeper.old)
        (outside S.left S.faults K.taken K.faults I.kept I.faults source.new sink.new keeper.new) result }
{
    let mut server = match open(alloc, node.server, store, counts) {
        Ok(server) => server,
        Err(fault) => return status_of(fault),
    };
    match serve_stream(alloc, node.server, &mut server, source, sink) {
        Ok(()) => keep_server(alloc, node, server, counts, keeper),
        Err(fault) => give_up(fault),
    }
}

/// The server goes down, once nobody waits for what it has, and its disk is saved.
fn keep_server<I: Keeper>(
    alloc: Global,
    node: &Node,
    server: Server<Disk>,
    counts: PageCounts,
    keeper: &mut I,
) -> Status
    requires range { IsNodeInRange node.now }
    requires node { IsNode (⟦<Pairs<MemDisk> as StableStore>⟧.view) server }
    requires its { server.server ≡ node.now.server }
    requires counts { server.counts ≡ counts }
    requires within { AreWithin (counts_by counts) }
    ensures kept { ServerKept node.now (counts_by counts) (running_at (⟦<Pairs<MemDisk> as StableStore>⟧.view) server) (keeper_state I.kept I.faults keeper.old) result (keeper_state I.kept I.faults keeper.new) }
{
    if server.unsettled() {
        return Status::Unsettled;
    }
    match server.close() {
        Ok(store) => save_store(alloc, node, store, counts, keeper),
        Err(fault) => status_of(fault),
    }
}

/// Saves the disk of the server that was closed.
fn save_store<I: Keeper>(
    alloc: Global,
    node: &Node,
    store: Disk,
    counts: PageCounts,
    keeper: &mut I,
) -> Status
    requires range { IsNodeInRange node.now }
    requires closed { IsClosed node.now.server (counts_by counts) (⟦<Pairs<MemDisk> as Powered>⟧.device store) }
    ensures kept { DiskKept node.now (counts_by counts) (⟦<Pairs<MemDisk> as Powered>⟧.device store) (keeper_state I.kept I.faults keeper.old) result (keeper_state I.kept I.faults keeper.new) }
{
    match save_image(
        alloc,
        keeper,
        node.closing.as_str(),
        node.server,
        counts,
        store,
    ) {
        Ok(()) => Status::Done,
        Err(KeepFailure::Failed) => Status::Keep,
        Err(KeepFailure::Memory) => Status::Memory,
    }
}

/// The status of a server that doesn't come up.
fn status_of(fault: NodeFault) -> Status
    ensures { result ≡ status_of fault }
{
    match fault {
        NodeFault::UsedUp => Status::Limit,
        NodeFault::Memory => Status::Memory,
    }
}

/// The status of a stream that isn't served to its end.
fn give_up(fault: StreamFault) -> Status
    ensures { result ≡ status_then fault }
{
    match fault {
        StreamFault::Read => Status::Read,
        StreamFault::Write => Status::Write,
        StreamFault::TooLong => Status::Limit,
        StreamFault::NoFrame => Status::Frame,
        StreamFault::Memory => Status::Memory,
    }
}
