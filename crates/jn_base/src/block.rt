//! The bytes of a block, and how they are kept where there are many.
ghost use Rattle.std.specs.Prelude.{◌≡◌, ◌≤◌, ◌++◌, ℕ, take, replicate, ◌-◌, length, IfOk};

use jn_text::before_end_zeros;
use std::alloc::{AllocError, Global};
use std::marker::Model;
use std::rc::Rc;

/// The bytes of a block.
pub type Block = [u8; 448];

/// The bytes of a block on the heap, without the zeros at their end: contracts see all 448. It takes the room of a
/// pointer, whatever the block holds, and copies share the bytes.
#[derive(Drop)]
pub struct BlockContent {
    bytes: Rc<Vec<u8>>,
}

impl Model for BlockContent {
    ghost use Rattle.std.specs.Prelude.{List, ℕ, ◌≤◌, ◌++◌, ◌-◌, length, replicate};

    ghost Value = { List ℕ };

    ghost view = { λ c. c.bytes.value.items ++ replicate (448 - length c.bytes.value.items) 0 };

    ghost invariant = { λ c. length c.bytes.value.items ≤ 448 };
}

impl BlockContent {
    /// The block that begins with these bytes, with zeros behind them.
    pub fn new(alloc: Global, bytes: &[u8]) -> Result<BlockContent, AllocError>
        requires { length bytes.now ≤ 448 }
        ensures { IfOk result (λ content. content ≡ bytes.now ++ replicate (448 - length bytes.now) 0) }
    {
        Ok(BlockContent {
            bytes: Rc::new(alloc, bytes.to_vec(alloc)?)?,
        })
    }

    pub fn from_block(alloc: Global, block: &Block) -> Result<BlockContent, AllocError>
        ensures { IfOk result (λ content. content ≡ block.now) }
    {
        BlockContent::new(alloc, before_end_zeros(block))
    }

    pub fn to_block(&self) -> Block
        ensures { result ≡ self.now }
    {
        let bytes = self.bytes.as_ref().as_slice();
        let mut block = [0; 448];
        block[..bytes.len()].copy_from_slice(bytes);
        block
    }

    /// The first bytes, behind which all others are zeros.
    pub fn first_bytes(&self) -> &[u8]
        ensures { self.now ≡ result.now ++ replicate (448 - length result.now) 0 }
    {
        self.bytes.as_ref().as_slice()
    }

    /// The same bytes once more.
    pub fn copy(&self) -> Result<BlockContent, AllocError>
        ensures { IfOk result (λ content. content ≡ self.now) }
    {
        Ok(BlockContent {
            bytes: self.bytes.clone()?,
        })
    }
}
