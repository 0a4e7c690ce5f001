//! How much there may be of each thing.

/// The blocks whose addresses stand in a head, and in each map page.
pub const HEAD_BLOCKS: usize = 120;

/// The map pages whose addresses stand in a head.
pub const MOST_MAPS: usize = 20;

/// The blocks of a file: those of its head and those of its map pages.
pub const MOST_BLOCKS: u16 = 2520;

/// The bytes of a block.
pub const BLOCK_SIZE: usize = 448;

/// The bytes of a file of bytes: those of its blocks but block 0, which has the length.
pub const MOST_FILE_BYTES: u32 = BLOCK_SIZE as u32 * (MOST_BLOCKS as u32 - 1);

/// The bytes that one call reads: those of ten blocks.
pub const MOST_BYTES_READ: u16 = 4480;

/// The live works of a server.
pub const MOST_WORKS: usize = 64;

/// The live transactions of a coordinator.
pub const MOST_TRANSACTIONS: usize = 64;

/// The units that a work reads.
pub const MOST_READS: usize = 40;

/// The intentions of a work.
pub const MOST_INTENTIONS: usize = 24;
