//! Fields appended to bytes, each number with its highest byte first.
ghost use Rattle.std.specs.Prelude.{◌*◌, ◌++◌, ◌∷◌, [], length};
ghost use Rattle.byteorder.specs.Endian.{big_bytes};
ghost use Rattle.jn_fields.specs.Names.{tid_bytes, unit_bytes, work_bytes};
ghost use Rattle.jn_wire.specs.Appending.{Appends};
ghost use Rattle.jn_wire.specs.Spelling.{held_bytes, party_bytes, u32 as u32_bytes, works_bytes};

use byteorder::{BigEndian, ByteOrder};
use jn_base::{BlockContent, ClientNo, LockUnit, Party, ServerNo, Tid, WorkId};
use jn_fields::Field;
use std::alloc::AllocError;

pub fn put_u8(out: &mut Vec<u8>, n: u8) -> Result<(), AllocError>
    ensures { Appends (n ∷ []) 1 out.old.items result out.new.items }
{
    out.push(n)?;
    Ok(())
}

pub fn put_u16(out: &mut Vec<u8>, n: u16) -> Result<(), AllocError>
    ensures { Appends (big_bytes 2 n) 2 out.old.items result out.new.items }
{
    let mut bytes = [0; 2];
    BigEndian::write_u16(&mut bytes, n);
    out.extend_from_slice(&bytes)
}

pub fn put_u32(out: &mut Vec<u8>, n: u32) -> Result<(), AllocError>
    ensures { Appends (u32_bytes n) 4 out.old.items result out.new.items }
{
    let mut bytes = [0; 4];
    BigEndian::write_u32(&mut bytes, n);
    out.extend_from_slice(&bytes)
}

/// Two numbers, one behind the other.
pub fn put_two(out: &mut Vec<u8>, first: u32, second: u32) -> Result<(), AllocError>
    ensures { Appends (u32_bytes first ++ u32_bytes second) 8 out.old.items result out.new.items }
{
    put_u32(out, first)?;
    put_u32(out, second)
}

/// The 448 bytes of a block, which are copied once where it doesn't end in zeros.
pub fn put_content(out: &mut Vec<u8>, content: &BlockContent) -> Result<(), AllocError>
    ensures { Appends (content.now) 448 out.old.items result out.new.items }
{
    let first = content.first_bytes();
    if first.len() == 448 {
        return out.extend_from_slice(first);
    }
    out.extend_from_slice(&content.to_block())
}

/// A code and a client.
pub fn put_client(out: &mut Vec<u8>, code: u8, client: ClientNo) -> Result<(), AllocError>
    ensures { Appends (code ∷ client.0 ∷ []) 2 out.old.items result out.new.items }
{
    put_u8(out, code)?;
    put_u8(out, client.0)
}

/// A code and a server.
pub fn put_server(out: &mut Vec<u8>, code: u8, server: ServerNo) -> Result<(), AllocError>
    ensures { Appends (code ∷ server.0 ∷ []) 2 out.old.items result out.new.items }
{
    put_u8(out, code)?;
    put_u8(out, server.0)
}

pub fn put_party(out: &mut Vec<u8>, party: Party) -> Result<(), AllocError>
    ensures { Appends (party_bytes party) 2 out.old.items result out.new.items }
{
    match party {
        Party::Client(client) => put_client(out, 1, client),
        Party::Server(server) => put_server(out, 2, server),
    }
}

pub fn put_tid(out: &mut Vec<u8>, tid: Tid) -> Result<(), AllocError>
    ensures { Appends (tid_bytes tid) 9 out.old.items result out.new.items }
{
    out.extend_from_slice(&tid.to_bytes())
}

pub fn put_work(out: &mut Vec<u8>, work: WorkId) -> Result<(), AllocError>
    ensures { Appends (work_bytes work) 9 out.old.items result out.new.items }
{
    out.extend_from_slice(&work.to_bytes())
}

/// Names of works, one behind another.
pub fn put_works(out: &mut Vec<u8>, works: &[WorkId]) -> Result<(), AllocError>
    ensures { Appends (works_bytes works.now) (9 * length works.now) out.old.items result out.new.items }
{
    match works {
        [] => Ok(()),
        [first, others @ ..] => {
            put_work(out, *first)?;
            put_works(out, others)
        }
    }
}

pub fn put_unit(out: &mut Vec<u8>, unit: LockUnit) -> Result<(), AllocError>
    ensures { Appends (unit_bytes unit) 6 out.old.items result out.new.items }
{
    out.extend_from_slice(&unit.to_bytes())
}

/// A unit, and the transaction that holds or broke it.
pub fn put_held(out: &mut Vec<u8>, unit: LockUnit, tid: Tid) -> Result<(), AllocError>
    ensures { Appends (held_bytes unit tid) 15 out.old.items result out.new.items }
{
    put_unit(out, unit)?;
    put_tid(out, tid)
}
