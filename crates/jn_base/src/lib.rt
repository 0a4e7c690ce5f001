//! The words that every crate shares: names, lock units, pages, operations, calls, answers and faults.
#![tactic(auto)]

mod block;
mod byte_string;
mod call;
mod device;
mod fault;
mod fields;
mod letters;
mod limits;
mod names;
mod op;

pub use block::{Block, BlockContent};
pub use byte_string::ByteString;
pub use call::{ByteCommand, Call, NameCommand};
pub use device::{FaultKind, Outside, Page, Stopped};
pub use fault::CallFault;
pub use fields::{PageWriter, numbers_are_read_back, take_bytes, take_u8, take_u16, take_u32};
pub use letters::is_name;
pub use limits::{
    BLOCK_SIZE, HEAD_BLOCKS, MOST_BLOCKS, MOST_BYTES_READ, MOST_FILE_BYTES, MOST_INTENTIONS,
    MOST_MAPS, MOST_READS, MOST_TRANSACTIONS, MOST_WORKS,
};
pub use names::{
    BlockNo, Cause, ClientNo, FileNo, LockUnit, MsgKind, OperationNo, Party, RequestNo, Resource,
    ServerNo, Short, Tickets, Tid, WorkId,
};
pub use op::{Answer, Command, Op};
