//! What a report may say of room, of one server with new images: its first transaction finds all free that its pages have.

ghost use Rattle.std.specs.Prelude.{◌≡◌, ℕ, List, []};
ghost use Rattle.jn_base.specs.Limits.{head_blocks};
ghost use Rattle.jn_base.specs.declared.names.Resource.{Resource};
ghost use Rattle.jn_base.specs.declared.names.Resource.TheVariants.{Records, Pages};
ghost use Rattle.jn_machine.specs.Examples.{calmly, report, setup, one_write};
ghost use Rattle.jn_wrong.specs.NewImages.{IsOnlyOf, IsNoneOf};
ghost use Rattle.jn_wrong.specs.Wrong.{makes_one, full_of};
ghost use Rattle.jn_wrong.specs.Faults.{IsComputed};
ghost use Rattle.jn_wrong.specs.Room.{IsOnlyOfLacking, IsOnlyWhereLacking, one_record, one_page, in_room, for_a_file, for_a_block, for_a_map_page, writes_at, full_at_block, made_report};

/// A client is told that its transaction aborted for want of room only where room is lacking, whatever befalls the run. It is told what is lacking first, with
/// the numbers that are so. This holds of a server with any count of records, heads and data pages.
pub fn an_abort_tells_what_is_lacking()
    ensures for_a_file { IsOnlyOfLacking for_a_file makes_one full_of }
    ensures for_a_block { (bytes : List ℕ) → IsOnlyOfLacking for_a_block (one_write bytes []) full_at_block }
    ensures for_a_map_page { (bytes : List ℕ) → IsOnlyOfLacking for_a_map_page (writes_at head_blocks bytes) full_at_block }
{}

/// Where room is lacking the abort comes: each whole run gives exactly this report. So where the server has one record, which the transaction's flag is promised:
/// of the two that its work needs none is free.
pub fn an_abort_comes_where_room_is_lacking()
    ensures for_a_file { IsOnlyWhereLacking for_a_file makes_one full_of }
    ensures for_a_block { (bytes : List ℕ) → IsOnlyWhereLacking for_a_block (one_write bytes []) full_at_block }
    ensures for_a_map_page { (bytes : List ℕ) → IsOnlyWhereLacking for_a_map_page (writes_at head_blocks bytes) full_at_block }
    ensures with_one_record { IsOnlyOf one_record makes_one (full_of Records 0 2) }
{}

/// A transaction that aborts for want of records is reported to abort for want of data pages, of which all are free.
pub fn an_abort_for_want_of_pages_that_are_free_is_none()
    ensures { (free need : ℕ) → IsNoneOf one_record makes_one (full_of Pages free need) }
{}

/// A transaction writes the first block past those of a head where its server has one data page. It is reported to need one page, of which none is free, as if
/// its map page weren't counted, or had been taken already.
pub fn an_abort_that_leaves_out_the_map_page_is_none()
    ensures { (bytes : List ℕ) → IsNoneOf one_page (writes_at head_blocks bytes) (full_at_block Pages 0 1) }
{}

/// A transaction for which all is free is reported to abort for want of records, heads or data pages, whatever is said to be free and needed.
pub fn an_abort_for_want_of_what_is_free_is_none()
    ensures of_a_file { (resource : Resource) (free need : ℕ) → IsNoneOf (setup 1) makes_one (full_of resource free need) }
    ensures of_a_block { (bytes : List ℕ) (resource : Resource) (free need : ℕ) → IsNoneOf (setup 1) (one_write bytes []) (full_at_block resource free need) }
{}

/// The right report of the same schedule, computed: there the transaction commits.
pub fn a_transaction_that_finds_room_commits()
    ensures { report 1 calmly 200 makes_one ≡ made_report }
{}

/// And where its server has one record, computed to its end: there it aborts. Each message finds the records free that aren't promised.
pub fn a_transaction_that_lacks_records_is_told_so()
    ensures { IsComputed one_record (in_room one_record) 100 makes_one (full_of Records 0 2) }
{}

/// And where its server has one data page, and it writes the first block past those of a head: of the two pages that this needs one is free.
pub fn a_transaction_that_lacks_a_map_page_is_told_so()
    ensures { IsComputed one_page (in_room one_page) 200 (writes_at head_blocks []) (full_at_block Pages 1 2) }
{}
