//! Names.
ghost use Rattle.std.specs.Prelude.{◌≡◌, ◌≤◌, true, length};
ghost use Rattle.jn_base.specs.Names.{is_name};
ghost use Rattle.jn_names.specs.Names.{bucket_of};

use std::marker::Model;

/// A name in a directory: contracts see its bytes.
#[derive(Drop)]
pub struct Name {
    bytes: [u8; 64],
    length: usize,
}

impl Model for Name {
    ghost use Rattle.std.specs.Prelude.{◌≡◌, ◌≤◌, true, List, ℕ, take};
    ghost use Rattle.jn_base.specs.Names.{is_name};

    ghost Value = { List ℕ };

    ghost view = { λ n. take n.length n.bytes };

    ghost invariant = { λ n. (n.length ≤ 64) × (is_name (take n.length n.bytes) ≡ true) };
}

impl Name {
    /// The name of these bytes.
    pub fn new(bytes: &[u8]) -> Name
        requires { is_name bytes.now ≡ true }
        ensures { result ≡ bytes.now }
    {
        let length = bytes.len();
        let mut filled = [0; 64];
        filled[..length].copy_from_slice(bytes);
        Name {
            bytes: filled,
            length,
        }
    }

    pub fn as_bytes(&self) -> &[u8]
        ensures bytes { result.now ≡ self.now }
        ensures name { is_name self.now ≡ true }
    {
        &self.bytes[..self.length]
    }
}

/// The bucket of a name: the sum of its bytes modulo 32.
pub fn bucket_of(name: &[u8]) -> u16
    requires { length name.now ≤ 64 }
    ensures { result ≡ bucket_of name.now }
{
    let mut sum = 0u16;
    for byte in name {
        sum += *byte as u16;
    }
    sum % 32
}
