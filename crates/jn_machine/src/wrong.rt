//! Reports that no run gives.

ghost use Rattle.jn_machine.specs.Wrong.{IsNoPlainReport, IsNoReport, out_of_order, shown_too_soon, counted_twice, counted_none, a_message_told};

/// The answer of a later command stands before that of an earlier one, or what the end shows before the schedule's lines.
pub fn lines_out_of_order_are_no_report()
    ensures answers { IsNoReport out_of_order }
    ensures shows { IsNoReport shown_too_soon }
{}

/// The last line counts a commit too many, or one too few.
pub fn another_count_is_no_report()
    ensures more { IsNoReport counted_twice }
    ensures fewer { IsNoReport counted_none }
{}

/// A message is reported though none was asked for.
pub fn a_message_unasked_is_no_report()
    ensures { IsNoPlainReport a_message_told }
{}
