//! An image as bytes.
ghost use Rattle.std.specs.Prelude.{◌≡◌, ◌++◌, IfOk, OnOk, flat_map};
ghost use Rattle.byteorder.specs.Endian.{big_bytes};
ghost use Rattle.sha2.specs.Sha256.{sha256};
ghost use Rattle.jn_image.specs.Form.{HasForm, header_bytes, half_bytes, body_bytes, image_bytes};

use crate::image::Image;
use byteorder::{BigEndian, ByteOrder};
use jn_device::Half;
use sha2::{Digest, Sha256};
use std::alloc::{AllocError, Global};

/// The name of the format, at the front of an image.
pub(crate) const NAME: [u8; 8] = *b"JUNIMAGE";

/// How many bytes a digest has.
pub(crate) const DIGEST: usize = 32;

/// The bytes of an image.
#[tactic(auto, unfolding(crate::specs::Form::image_bytes))]
pub fn encode(alloc: Global, image: &Image) -> Result<Vec<u8>, AllocError>
    requires { HasForm image.now }
    ensures { IfOk result (λ v. v.items ≡ image_bytes image.now) }
{
    let mut bytes = body_of(alloc, image)?;
    let digest = digest_of(&bytes);
    bytes.extend_from_slice(&digest)?;
    Ok(bytes)
}

/// The digest of bytes.
pub(crate) fn digest_of(bytes: &[u8]) -> [u8; DIGEST]
    ensures { result ≡ sha256 bytes.now }
{
    Sha256::digest(bytes)
}

/// All that is digested.
fn body_of(alloc: Global, image: &Image) -> Result<Vec<u8>, AllocError>
    requires { HasForm image.now }
    ensures { IfOk result (λ v. v.items ≡ body_bytes image.now) }
{
    let mut bytes = Vec::with_capacity(alloc, 16 + 2 * image.count() * 513 + DIGEST)?;
    push_header(&mut bytes, image)?;
    push_halves(&mut bytes, image.pages.as_slice())?;
    Ok(bytes)
}

fn push_header(out: &mut Vec<u8>, image: &Image) -> Result<(), AllocError>
    ensures { OnOk result (out.new.items ≡ out.old.items ++ header_bytes image.now) }
{
    out.extend_from_slice(&NAME)?;
    out.push(image.version)?;
    out.push(image.server.0)?;
    push_u16(out, image.pool)?;
    push_u16(out, image.heads)?;
    push_u16(out, image.leaves)
}

fn push_u16(out: &mut Vec<u8>, n: u16) -> Result<(), AllocError>
    ensures { OnOk result (out.new.items ≡ out.old.items ++ big_bytes 2 n) }
{
    let mut bytes = [0; 2];
    BigEndian::write_u16(&mut bytes, n);
    out.extend_from_slice(&bytes)
}

fn push_halves(out: &mut Vec<u8>, halves: &[Half]) -> Result<(), AllocError>
    ensures { OnOk result (out.new.items ≡ out.old.items ++ flat_map (λ h. half_bytes h) halves.now) }
{
    for half in halves {
        push_half(out, half)?;
    }
    Ok(())
}

fn push_half(out: &mut Vec<u8>, half: &Half) -> Result<(), AllocError>
    ensures { OnOk result (out.new.items ≡ out.old.items ++ half_bytes half.now) }
{
    out.push(u8::from(half.good))?;
    out.extend_from_slice(&half.bytes)
}
