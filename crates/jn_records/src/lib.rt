//! The stable pages of a server, each with one value.
//!
//! Page 0 is the root. Behind it stand the records, then the heads of files, then the data pages.
//! Numbers have their highest byte first, and zeros follow the fields to the end of the page. A name is
//! that of a transaction or a work: its server (1 byte), epoch and ticket (4 bytes each).
//!
//! | page | fields |
//! |---|---|
//! | root | `JUN1`, the version (1 byte, 1 or 2), the server (1), how many records, heads and data pages there are (2 each), the epoch (4) |
//! | free record, free head | zeros |
//! | intention | kind 1, the work's and the transaction's name, its place in the work (1), 1 fresh, 2 gone, 3 cut or 4 put (1), the file (4), the block (2), the put's data page as its index and 1 (2), its map page likewise (2) |
//! | ready, going work | kind 2, 3, the work's and the transaction's name, the client (1), how many intentions and read units (1 each), of each unit its file (4) and block (2; 65,535 for the file itself), ascending |
//! | flag | kind 4, the transaction's name, the client (1), the request that ended it (4), how many works (1) and their names |
//! | head | kind 1, the file (4), of its first `HEAD_BLOCKS` blocks the data page as its index and 1, or 0 for none (2 each), of `MOST_MAPS` map pages likewise (2 each) |
//! | map page | of the next `HEAD_BLOCKS` blocks the data page likewise (2 each) |
//!
//! The program writes version 2 and reads both. A page of version 1 has zeros where version 2 has map pages.
//!
//! A page that isn't exactly the page of a value is no page of the format. So each decoder reads the
//! fields and then compares the page with the value's own; `no_page_is_two_values` is the law behind it.
//!
//! What a work will do to the files is a list of intentions. `NetList` keeps it as short as it can be while
//! the work goes on.
#![tactic(auto)]

mod distinct;
mod flag;
mod head;
mod intention;
mod layout_laws;
mod list;
mod map;
mod map_laws;
mod map_places;
mod net_laws;
mod net_list;
mod page;
mod record;
mod root;
mod sound_laws;
mod work;

pub use distinct::no_page_is_two_values;
pub use flag::Flag;
pub use head::{Head, used_page};
pub use intention::{Intention, StoredIntention, What};
pub use layout_laws::{
    a_layout_has_what_stands_at_a_cell, a_layout_in_part_is_a_cut_in_part, a_put_changes_one_layout,
};
pub use list::ListOf;
pub use map::{is_map_page, map_entries, map_page, read_entries};
pub use map_laws::{
    a_list_looks_at_its_own_files, a_list_that_was_supplied_is_supplied_again,
    a_step_keeps_its_list_supplied,
};
pub use map_places::finds_map;
pub use net_laws::{
    a_list_is_one_change, a_net_list_gives_what_its_operations_give,
    an_operation_that_was_done_keeps_the_files_there, carrying_out_again_gives_the_same,
    the_files_named_tell_whether_files_are_there,
};
pub use net_list::{Need, NetList, Seen, needs_head, puts_in};
pub use record::{READS, Record, WORKS};
pub use root::{FORMAT_VERSION, Root};
pub use sound_laws::a_malformed_page_is_no_second_head;
pub use work::{WorkHead, WorkState};
