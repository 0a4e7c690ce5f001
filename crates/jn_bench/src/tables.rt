//! Many calls of a lock table and of a network, counted.

use jn_base::{BlockNo, ClientNo, FileNo, LockUnit, Party, RequestNo, ServerNo, WorkId};
use jn_locks::{LockTable, Mode, Want};
use jn_msgs::Message;
use jn_net::Net;
use std::alloc::{AllocError, Global};

/// As many works as a server has at once, and the units that each may read.
const WORKS: u32 = 64;

const UNITS: u16 = 40;

fn work_of(ticket: u32) -> WorkId {
    WorkId {
        server: ServerNo(0),
        epoch: 1,
        ticket,
    }
}

/// Half of the units of a work's own file for intention-write, and half of a common file for reading.
fn wants_of(alloc: Global, file: u32) -> Result<Vec<Want>, AllocError> {
    let mut wants = Vec::with_capacity(alloc, UNITS as usize)?;
    for p in 0..UNITS {
        let (unit, mode) = if p % 2 == 0 {
            (
                LockUnit::Block(FileNo(file), BlockNo(p)),
                Mode::IntentionWrite,
            )
        } else {
            (LockUnit::Block(FileNo(0), BlockNo(p)), Mode::Read)
        };
        wants.push(Want { unit, mode })?;
    }
    Ok(wants)
}

/// All works ask, turn to commit and are released; how many of the calls were granted.
fn granted_in_round(alloc: Global, table: &mut LockTable) -> Result<u64, AllocError> {
    let mut granted = 0u64;
    for ticket in 0..WORKS {
        let wants = wants_of(alloc, ticket + 1)?;
        if table.ask(alloc, work_of(ticket), &wants).is_ok() {
            granted = granted.saturating_add(1);
        }
    }
    for ticket in 0..WORKS {
        if table.to_commit(alloc, work_of(ticket)).is_ok() {
            granted = granted.saturating_add(1);
        }
    }
    for ticket in 0..WORKS {
        table.release(work_of(ticket));
    }
    Ok(granted)
}

pub(crate) fn lock_rounds(alloc: Global, rounds: u32) -> Result<u64, AllocError> {
    let mut table = LockTable::new(alloc);
    let mut granted = 0u64;
    for _round in 0..rounds {
        granted = granted.saturating_add(granted_in_round(alloc, &mut table)?);
    }
    Ok(granted)
}

/// So many messages are sent, and then each that waits is read and delivered; how many were read.
pub(crate) fn carried(alloc: Global, messages: u32) -> u64 {
    let mut net = Net::new(alloc);
    let client = Party::Client(ClientNo(1));
    let server = Party::Server(ServerNo(0));
    for request in 0..messages {
        if net
            .send(
                client,
                server,
                Message::Begin(ClientNo(1), RequestNo(request)),
            )
            .is_err()
        {
            break;
        }
    }
    let mut read = 0u64;
    for _message in 0..messages {
        let Some(k) = net.waiting() else {
            break;
        };
        if net.message(k).is_some() {
            read = read.saturating_add(1);
        }
        if k < net.count() {
            net.delivered(k);
        }
    }
    read
}
