//! Names and lock units.
ghost use Rattle.std.specs.Prelude.{◌≡◌, ◌++◌};
ghost use Rattle.byteorder.specs.Endian.{big_bytes};
ghost use Rattle.jn_fields.specs.Names.{tid_bytes, work_bytes, unit_bytes, tid_at, work_at, unit_at};

use crate::field::Field;
use crate::reading::{u8_at, u16_at, u32_at};
use byteorder::{BigEndian, ByteOrder};
use jn_base::{BlockNo, FileNo, LockUnit, ServerNo, Tid, WorkId};

/// Stands for a file itself in place of a block's number.
const WHOLE_FILE: u16 = 0xFFFF;

fn name_bytes(server: ServerNo, epoch: u32, ticket: u32) -> [u8; 9]
    ensures { result ≡ big_bytes 1 server.0 ++ big_bytes 4 epoch ++ big_bytes 4 ticket }
{
    let mut bytes = [server.0; 9];
    BigEndian::write_u32(&mut bytes[1..], epoch);
    BigEndian::write_u32(&mut bytes[5..], ticket);
    bytes
}

fn file_and(file: FileNo, block: u16) -> [u8; 6]
    ensures { result ≡ big_bytes 4 file.0 ++ big_bytes 2 block }
{
    let mut bytes = [0; 6];
    BigEndian::write_u32(&mut bytes, file.0);
    BigEndian::write_u16(&mut bytes[4..], block);
    bytes
}

impl Field<9> for Tid {
    ghost spelled = { λ t. tid_bytes t };

    ghost read = { λ bytes. tid_at bytes };

    fn to_bytes(&self) -> [u8; 9] {
        name_bytes(self.server, self.epoch, self.ticket)
    }

    #[tactic(auto, unfolding(crate::specs::Names::tid_at))]
    fn at(bytes: &[u8]) -> Option<(Tid, &[u8])> {
        let (server, rest) = u8_at(bytes)?;
        let (epoch, rest) = u32_at(rest)?;
        let (ticket, rest) = u32_at(rest)?;
        let tid = Tid {
            server: ServerNo(server),
            epoch,
            ticket,
        };
        Some((tid, rest))
    }
}

impl Field<9> for WorkId {
    ghost spelled = { λ w. work_bytes w };

    ghost read = { λ bytes. work_at bytes };

    fn to_bytes(&self) -> [u8; 9] {
        name_bytes(self.server, self.epoch, self.ticket)
    }

    #[tactic(auto, unfolding(crate::specs::Names::work_at))]
    fn at(bytes: &[u8]) -> Option<(WorkId, &[u8])> {
        let (server, rest) = u8_at(bytes)?;
        let (epoch, rest) = u32_at(rest)?;
        let (ticket, rest) = u32_at(rest)?;
        let work = WorkId {
            server: ServerNo(server),
            epoch,
            ticket,
        };
        Some((work, rest))
    }
}

impl Field<6> for LockUnit {
    ghost spelled = { λ u. unit_bytes u };

    ghost read = { λ bytes. unit_at bytes };

    fn to_bytes(&self) -> [u8; 6] {
        match self {
            LockUnit::File(file) => file_and(*file, WHOLE_FILE),
            LockUnit::Block(file, block) => file_and(*file, block.0),
        }
    }

    #[tactic(auto, unfolding(crate::specs::Names::unit_at))]
    fn at(bytes: &[u8]) -> Option<(LockUnit, &[u8])> {
        let (file, rest) = u32_at(bytes)?;
        let (block, rest) = u16_at(rest)?;
        if block == WHOLE_FILE {
            return Some((LockUnit::File(FileNo(file)), rest));
        }
        Some((LockUnit::Block(FileNo(file), BlockNo(block)), rest))
    }
}
