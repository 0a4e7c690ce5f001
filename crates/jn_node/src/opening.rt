//! How a node comes up, and how it goes down.
ghost use Rattle.std.specs.Prelude.{◌≡◌, ◌≤◌, [], Err, IfOk, OnOk};
ghost use Rattle.jn_node.specs.Calls.{LeavesScrubbed};
ghost use Rattle.jn_node.specs.Nodes.{IsNode, counts_at, running_at};
ghost use Rattle.jn_node.specs.Running.{IsClosedTo, IsOpen, state_of};
ghost use Rattle.jn_node.specs.declared.fault.NodeFault.TheVariants.{UsedUp};
ghost use Rattle.jn_page_state.specs.Pages.{found_on};
ghost use Rattle.jn_page_state.specs.Recoverable.{IsRecoverable};
ghost use Rattle.jn_base.specs.declared.names.ServerNo.{ServerNo as AServer};
ghost use Rattle.jn_records.specs.Pages.{last_epoch};
ghost use Rattle.jn_recovery.specs.Counts.{counts_by};
ghost use Rattle.jn_row_ranges.specs.Naming.{StateWithin};
ghost use Rattle.jn_rows.specs.Stable.{Pick};
ghost use Rattle.jn_server.specs.Restarting.{IsRestarted};
ghost use Rattle.jn_server.specs.Seen.{IsServer, view_with};
ghost use Rattle.jn_server.specs.Settled.{IsSettledState};
ghost use Rattle.jn_store.specs.Store.{IsCalm};

use crate::fault::NodeFault;
use crate::node::Node;
use jn_base::ServerNo;
use jn_intent::{Down, DownCause, Found, PageCounts};
use jn_server::{Server, restart};
use jn_store::StableStore;
use std::alloc::Global;
use std::collections::VecDeque;

/// The server comes up on its store of so many pages, from which a recovery may begin.
pub fn open<S: StableStore + Drop>(
    alloc: Global,
    server: ServerNo,
    store: S,
    counts: PageCounts,
) -> Result<Node<S>, NodeFault>
    requires there { server.0 ≤ 7 }
    requires recoverable { IsRecoverable server (counts_by counts) (S.view store) }
    requires calm { IsCalm (S.view store) }
    requires told { (S.view store).told ≡ [] }
    requires names { (c : Pick) → StateWithin 8 (found_on (counts_by counts) (S.view store) c) }
    ensures node { IfOk result (λ n. IsNode (λ s. S.view s) n) }
    ensures open { IfOk result (λ n. IsOpen server (counts_by counts) (S.view store) (running_at (λ s. S.view s) n)) }
    ensures fresh { IfOk result (λ n. (n.server ≡ server) × (n.counts ≡ counts) × (n.running.tickets.next ≡ 0) × (n.answers.items ≡ [])) }
    ensures used_up { result ≡ Err UsedUp → (c : Pick) × ((found_on (counts_by counts) (S.view store) c).epoch ≡ last_epoch) }
{
    let (running, _found) = come_up(alloc, store, counts)?;
    running.counts_pages();
    running.reads_pages();
    Ok(Node {
        alloc,
        server,
        counts,
        running,
        own: VecDeque::new(alloc),
        answers: Vec::new(alloc),
    })
}

impl<S: StableStore + Drop> Node<S> {
    /// Goes down, comes up once more, so that nothing but files is left, and cleans each page. The store that it stood on is then that
    /// of a sound image.
    pub fn close(self) -> Result<S, NodeFault>
        requires node { IsNode (λ s. S.view s) self }
        requires settled { IsSettledState (state_of (counts_at self) (running_at (λ s. S.view s) self)) }
        ensures closed { IfOk result (λ store. IsClosedTo self.server (counts_at self) (running_at (λ s. S.view s) self) (S.view store)) }
        ensures used_up { result ≡ Err UsedUp → (state_of (counts_at self) (running_at (λ s. S.view s) self)).epoch ≡ last_epoch }
    {
        let Node {
            alloc,
            counts,
            running,
            ..
        } = self;
        let (server, _found) = come_up(alloc, running.crash(), counts)?;
        Ok(scrubbed(server))
    }
}

/// The store of a server that goes down with each page clean.
fn scrubbed<S: StableStore + Drop>(server: Server<S>) -> S
    requires serves { IsServer (view_with (λ s. S.view s) server) }
    requires calm { IsCalm (S.view server.storage.0) }
    ensures { LeavesScrubbed (view_with (λ s. S.view s) server) (S.view result) }
{
    let mut server = server;
    let Ok(()) = server.scrub() else {
        unreachable!()
    };
    server.crash()
}

/// The server on a store, in an epoch of its own.
fn come_up<S: StableStore + Drop>(
    alloc: Global,
    store: S,
    counts: PageCounts,
) -> Result<(Server<S>, Found), NodeFault>
    requires recoverable { (server : AServer) × IsRecoverable server (counts_by counts) (S.view store) }
    requires calm { IsCalm (S.view store) }
    ensures up { (server : AServer) → IsRecoverable server (counts_by counts) (S.view store) → IfOk result (λ r. IsRestarted server (counts_by counts) (S.view store) r.1 (view_with (λ s. S.view s) r.0)) }
    ensures used_up { result ≡ Err UsedUp → (c : Pick) × ((found_on (counts_by counts) (S.view store) c).epoch ≡ last_epoch) }
{
    match restart(alloc, store, counts) {
        Ok(up) => Ok(up),
        Err(Down { cause, .. }) => match cause {
            DownCause::Stopped => unreachable!(),
            DownCause::EpochsUsedUp => Err(NodeFault::UsedUp),
            DownCause::Memory => Err(NodeFault::Memory),
        },
    }
}
