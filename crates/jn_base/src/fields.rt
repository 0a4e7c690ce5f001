//! The fields of a page, written and read from its front, each number with its highest byte first.
ghost use Rattle.std.specs.Prelude.{◌≡◌, ◌<◌, ◌≤◌, ◌+◌, ◌-◌, ◌^◌, ◌↔◌, ◌++◌, ℕ, List, [], ◌∷◌, length, take, drop, replicate, IsSome, IfSome};
ghost use Rattle.byteorder.specs.Endian.{big_bytes, big_number};

use crate::device::Page;
use byteorder::{BigEndian, ByteOrder};
use std::marker::Model;

/// A page that is written from its front: contracts see the bytes so far. Zeros follow them.
#[derive(Drop)]
pub struct PageWriter {
    page: Page,
    at: usize,
}

impl Model for PageWriter {
    ghost Value = { List ℕ };

    ghost view = { λ w. take w.at w.page };

    ghost invariant = { λ w. (w.at ≤ 512) × (drop w.at w.page ≡ replicate (512 - w.at) 0) };
}

impl PageWriter {
    /// No bytes yet.
    pub fn new() -> Self
        ensures { result ≡ [] }
    {
        PageWriter {
            page: [0; 512],
            at: 0,
        }
    }

    pub fn put_u8(&mut self, n: u8)
        requires { length self.old + 1 ≤ 512 }
        ensures { self.new ≡ self.old ++ big_bytes 1 n }
    {
        self.put_bytes(&[n]);
    }

    pub fn put_u16(&mut self, n: u16)
        requires { length self.old + 2 ≤ 512 }
        ensures { self.new ≡ self.old ++ big_bytes 2 n }
    {
        let mut bytes = [0; 2];
        BigEndian::write_u16(&mut bytes, n);
        self.put_bytes(&bytes);
    }

    pub fn put_u32(&mut self, n: u32)
        requires { length self.old + 4 ≤ 512 }
        ensures { self.new ≡ self.old ++ big_bytes 4 n }
    {
        let mut bytes = [0; 4];
        BigEndian::write_u32(&mut bytes, n);
        self.put_bytes(&bytes);
    }

    pub fn put_bytes(&mut self, bytes: &[u8])
        requires { length self.old + length bytes.now ≤ 512 }
        ensures { self.new ≡ self.old ++ bytes.now }
    {
        let end = self.at + bytes.len();
        self.page[self.at..end].copy_from_slice(bytes);
        self.at = end;
    }

    /// The page, which has zeros behind what was put.
    pub fn finish(self) -> Page
        ensures { result ≡ self ++ replicate (512 - length self) 0 }
    {
        self.page
    }
}

/// The first byte and the bytes behind it, where there are so many.
pub fn take_u8(bytes: &[u8]) -> Option<(u8, &[u8])>
    ensures enough { IsSome result ↔ (1 ≤ length bytes.now) }
    ensures number { IfSome result (λ r. r.0 ≡ big_number 1 bytes.now) }
    ensures rest { IfSome result (λ r. r.1.now ≡ drop 1 bytes.now) }
{
    let (front, rest) = take_bytes(bytes, 1)?;
    Some((front[0], rest))
}

/// The number in the first two bytes and the bytes behind them, where there are so many.
pub fn take_u16(bytes: &[u8]) -> Option<(u16, &[u8])>
    ensures enough { IsSome result ↔ (2 ≤ length bytes.now) }
    ensures number { IfSome result (λ r. r.0 ≡ big_number 2 bytes.now) }
    ensures rest { IfSome result (λ r. r.1.now ≡ drop 2 bytes.now) }
{
    if bytes.len() < 2 {
        return None;
    }
    Some((BigEndian::read_u16(bytes), &bytes[2..]))
}

/// The number in the first four bytes and the bytes behind them, where there are so many.
pub fn take_u32(bytes: &[u8]) -> Option<(u32, &[u8])>
    ensures enough { IsSome result ↔ (4 ≤ length bytes.now) }
    ensures number { IfSome result (λ r. r.0 ≡ big_number 4 bytes.now) }
    ensures rest { IfSome result (λ r. r.1.now ≡ drop 4 bytes.now) }
{
    if bytes.len() < 4 {
        return None;
    }
    Some((BigEndian::read_u32(bytes), &bytes[4..]))
}

/// The first n bytes and the bytes behind them, where there are so many.
pub fn take_bytes(bytes: &[u8], n: usize) -> Option<(&[u8], &[u8])>
    ensures enough { IsSome result ↔ (n ≤ length bytes.now) }
    ensures front { IfSome result (λ r. r.0.now ≡ take n bytes.now) }
    ensures rest { IfSome result (λ r. r.1.now ≡ drop n bytes.now) }
{
    if bytes.len() < n {
        return None;
    }
    Some((&bytes[..n], &bytes[n..]))
}

/// A number that is put is read back, whatever follows it.
pub fn numbers_are_read_back()
    ensures { (n x : ℕ) (rest : List ℕ) → x < 256 ^ n → big_number n (big_bytes n x ++ rest) ≡ x }
{}
