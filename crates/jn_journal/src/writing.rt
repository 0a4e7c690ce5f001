//! Records as bytes.
ghost use Rattle.std.specs.Prelude.{◌≡◌, ◌++◌, ◌+◌, ◌-◌, ◌<◌, ◌≤◌, ◌^◌, length, IfOk, OnOk};
ghost use Rattle.byteorder.specs.Endian.{big_bytes};
ghost use Rattle.jn_journal.specs.Format.{zeros_in, doubled, next_chain, record_of, Fits};

use byteorder::{BigEndian, ByteOrder};
use sha2::{Digest, Sha256};
use std::alloc::{AllocError, Global};

/// A digest (SHA-256, FIPS 180-4) that stands for all records up to one of them. The first record of a journal
/// begins with one that its caller chooses.
pub type Chain = [u8; 32];

/// How many bytes a digest has.
pub(crate) const DIGEST: usize = 32;

/// A record as it was written.
#[derive(Drop)]
pub struct Written {
    /// The bytes of the record: header, digest, content.
    pub bytes: Vec<u8>,
    /// What the next record begins with.
    pub chain: Chain,
}

pub(crate) fn digest_of(chain: &[u8], content: &[u8]) -> [u8; 32]
    ensures { result ≡ next_chain chain.now content.now }
{
    let mut hasher = Sha256::new();
    hasher.update(chain);
    hasher.update(content);
    hasher.finalize()
}

/// How many bytes are zero.
pub(crate) fn zeros_in(bytes: &[u8]) -> usize
    ensures count { result ≡ zeros_in bytes.now }
    ensures few { result ≤ length bytes.now }
{
    let mut count = 0;
    for byte in bytes {
        if *byte == 0 {
            count += 1;
        }
    }
    count
}

fn push_doubled(out: &mut Vec<u8>, bytes: &[u8]) -> Result<(), AllocError>
    ensures { OnOk result (out.new.items ≡ out.old.items ++ doubled bytes.now) }
{
    for byte in bytes {
        out.push(*byte)?;
        out.push(255 - *byte)?;
    }
    Ok(())
}

fn number(n: u32) -> [u8; 4]
    ensures { result ≡ big_bytes 4 n }
{
    let mut bytes = [0; 4];
    BigEndian::write_u32(&mut bytes, n);
    bytes
}

fn push_header(out: &mut Vec<u8>, size: u32, zeros: u32) -> Result<(), AllocError>
    ensures { OnOk result (out.new.items ≡ out.old.items ++ doubled (big_bytes 4 size ++ big_bytes 4 zeros)) }
{
    push_doubled(out, &number(size))?;
    push_doubled(out, &number(zeros))
}

/// Appends header, digest and content, and answers the digest.
fn push_record(out: &mut Vec<u8>, chain: &[u8], content: &[u8]) -> Result<[u8; 32], AllocError>
    requires { Fits content.now }
    ensures record { OnOk result (out.new.items ≡ out.old.items ++ record_of chain.now content.now) }
    ensures chain { IfOk result (λ next. next ≡ next_chain chain.now content.now) }
{
    let digest = digest_of(chain, content);
    let zeros = zeros_in(&digest) + zeros_in(content);
    push_header(out, (DIGEST + content.len()) as u32, zeros as u32)?;
    out.extend_from_slice(&digest)?;
    out.extend_from_slice(content)?;
    Ok(digest)
}

/// The record of a content, chained to the record whose digest is `chain`. It is to be written over zeros, behind
/// that record. A content has at most 2^32 - 33 bytes.
pub fn write_record(alloc: Global, chain: Chain, content: &[u8]) -> Result<Written, AllocError>
    requires { Fits content.now }
    ensures bytes { IfOk result (λ w. w.bytes.items ≡ record_of chain content.now) }
    ensures chain { IfOk result (λ w. w.chain ≡ next_chain chain content.now) }
{
    let mut bytes = Vec::new(alloc);
    let next = push_record(&mut bytes, &chain, content)?;
    Ok(Written { bytes, chain: next })
}
