//! The files of a server on a store: a table of heads in memory, each change of which puts one page or two.
//!
//! Behind the root and the pool stand the heads, and behind them the data pages. A head has its file, and of each of its
//! first 120 blocks the data page where it is. Of 20 ranges of 120 further blocks it has the map page: that is a data page
//! too, and has the addresses of the range's blocks. A block is first put to a data page that no layout names, and then
//! the head, or the map page, is put with its address. So most changes of the files are one put, and a call that is stopped
//! there leaves a file old or new and all others as they were, whichever candidate of that page is found later.
//!
//! Two changes take two puts. The first block of a range needs a map page, which is put while nothing names it, and then the
//! head is put. A cut inside a range puts the map page with fewer addresses, and then the head, which drops the ranges
//! behind. A call that is stopped between both has cut the blocks of that range alone, and carried out again it leaves the
//! same file.
//!
//! A load reads the head pages and then each map page that they name, after it has cleaned that one. Another data page is
//! cleaned before the first get of it since the load, unless it was put since then: it is touched then.
//!
//! A data page may be held: it is that of an intention, and isn't free, whatever the heads name. No call but `load` takes
//! memory: room for the rows of all map pages that there may be is taken at once.
#![tactic(auto)]

mod fault;
mod heads;
mod laws;
mod load;
mod maps;
mod named;
mod puts;
mod slot;
mod table;

pub use fault::LoadFault;
pub use laws::pages_hold_the_files_of_heads;
pub use table::FileTable;
