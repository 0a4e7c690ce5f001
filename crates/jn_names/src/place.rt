//! A place of a bucket, as bytes.
ghost use Rattle.std.specs.Prelude.{◌≡◌, ◌≤◌, ◌+◌, ◌*◌, ◌++◌, length, take, drop, Some};
ghost use Rattle.jn_names.specs.Buckets.{slot_front, slots_front, slot_bytes, name_in, find_in};
ghost use Rattle.jn_names.specs.Places.{file_at, is_place, is_only_place};

use crate::name::bucket_of;
use byteorder::{BigEndian, ByteOrder};
use jn_base::{FileNo, is_name};

/// The bytes of a place.
pub const PLACE: usize = 69;

/// The bytes behind the place at the front.
pub fn behind(bytes: &[u8]) -> &[u8]
    requires { 69 ≤ length bytes.now }
    ensures { result.now ≡ drop 69 bytes.now }
{
    &bytes[PLACE..]
}

/// The name of the place at the front of bytes, which is empty where the place is free.
pub fn name_at(bytes: &[u8]) -> &[u8]
    requires { 69 ≤ length bytes.now }
    ensures { result.now ≡ name_in (slot_front bytes.now) }
{
    let end = 1 + bytes[0] as usize;
    if end <= bytes.len() {
        &bytes[1..end]
    } else {
        &bytes[1..]
    }
}

/// The file of the entry at the front of bytes.
pub fn file_at(bytes: &[u8]) -> FileNo
    requires { 69 ≤ length bytes.now }
    ensures { result ≡ file_at bytes.now }
{
    FileNo(BigEndian::read_u32(&bytes[65..]))
}

/// Writes bytes over others from a place on.
pub fn put_at(bytes: &mut [u8], start: usize, piece: &[u8])
    requires { start + length piece.now ≤ length bytes.old }
    ensures { bytes.new ≡ take start bytes.old ++ (piece.now ++ drop (start + length piece.now) bytes.old) }
{
    bytes[start..start + piece.len()].copy_from_slice(piece);
}

/// The place of an entry.
pub fn entry_bytes(name: &[u8], file: FileNo) -> [u8; 69]
    requires { length name.now ≤ 64 }
    ensures { result ≡ slot_bytes (Some (record { name = name.now; file = file })) }
{
    let mut number = [0; 4];
    BigEndian::write_u32(&mut number, file.0);
    let mut bytes = [0; 69];
    put_at(&mut bytes, 0, &[name.len() as u8]);
    put_at(&mut bytes, 1, name);
    put_at(&mut bytes, 65, &number);
    bytes
}

/// Whether a place is at the front of bytes that is free, or has a name of this bucket.
pub fn is_place(bytes: &[u8], bucket: u16) -> bool
    requires { 69 ≤ length bytes.now }
    ensures { result ≡ is_place bucket bytes.now }
{
    let name = name_at(bytes);
    if name.is_empty() {
        &bytes[..PLACE] == [0; 69].as_slice()
    } else {
        is_name(name)
            && bucket_of(name) == bucket
            && &bytes[..PLACE] == entry_bytes(name, file_at(bytes)).as_slice()
    }
}

/// The same, where the name stands in none of so many places behind it.
pub fn is_only_place(bytes: &[u8], places: usize, bucket: u16) -> bool
    requires { 69 + 69 * places ≤ length bytes.now }
    ensures { result ≡ is_only_place bucket places bytes.now }
{
    if !is_place(bytes, bucket) {
        return false;
    }
    let name = name_at(bytes);
    name.is_empty() || find(behind(bytes), places, name).is_none()
}

/// The file of a name in so many places at the front of bytes.
pub fn find(bytes: &[u8], places: usize, name: &[u8]) -> Option<FileNo>
    requires name { 1 ≤ length name.now }
    requires places { 69 * places ≤ length bytes.now }
    ensures { result ≡ find_in name.now (slots_front places bytes.now) }
{
    let mut rest = bytes;
    for _ in 0..places {
        if name_at(rest) == name {
            return Some(file_at(rest));
        }
        rest = behind(rest);
    }
    None
}
