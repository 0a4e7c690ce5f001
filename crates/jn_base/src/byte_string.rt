//! Bytes in a row, which may be many.
ghost use Rattle.std.specs.Prelude.{◌≡◌, IfOk};

use std::alloc::{AllocError, Global};
use std::marker::Model;
use std::rc::Rc;

/// Bytes in a row on the heap: contracts see the list. It takes the room of a pointer, however many there are, and copies
/// share the bytes.
#[derive(Drop)]
pub struct ByteString {
    bytes: Rc<Vec<u8>>,
}

impl Model for ByteString {
    ghost use Rattle.std.specs.Prelude.{List, ℕ};

    ghost Value = { List ℕ };

    ghost view = { λ s. s.bytes.value.items };
}

impl ByteString {
    /// These bytes.
    pub fn new(alloc: Global, bytes: Vec<u8>) -> Result<ByteString, AllocError>
        ensures { IfOk result (λ string. string ≡ bytes.items) }
    {
        Ok(ByteString {
            bytes: Rc::new(alloc, bytes)?,
        })
    }

    pub fn as_slice(&self) -> &[u8]
        ensures { result.now ≡ self.now }
    {
        self.bytes.as_ref().as_slice()
    }

    /// The same bytes once more.
    pub fn copy(&self) -> Result<ByteString, AllocError>
        ensures { IfOk result (λ string. string ≡ self.now) }
    {
        Ok(ByteString {
            bytes: self.bytes.clone()?,
        })
    }
}
