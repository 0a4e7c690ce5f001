//! Reports from new images: eight schedules with the only report that each has, whatever befalls it, and what is reported by none.

ghost use Rattle.std.specs.Prelude.{true, false};
ghost use Rattle.jn_report.specs.declared.line.EventRefusal.{EventRefusal};
ghost use Rattle.jn_report.specs.declared.line.Refusal.{Refusal};
ghost use Rattle.jn_report.specs.declared.line.Text.{Text};
ghost use Rattle.jn_report.specs.declared.line.Text.TheVariants.{RefusedEvent};
ghost use Rattle.jn_wrong.specs.NewImages.{IsOnly, IsNoneOfNew};
ghost use Rattle.jn_wrong.specs.Wrong.{begins, begun_report, quiet_report};
ghost use Rattle.jn_wrong.specs.Reports.{traced_report, settles_twice, two_begin, two_report, reads_and_aborts, read_report, opens_other, opened_report, shows_unmade, shown_report, begins_and_aborts, aborted_report};
ghost use Rattle.jn_wrong.specs.Others.{refused_by_client, refused_as_event, with_another, ended_with_another, commit_of_nobody, answered_later, one_for_two, aborted_for_another, committed_for_another, opened_another, answered_at_once, epoch_skipped, downs_swapped, ups_swapped, read_otherwise, show_tells, messages_swapped, thanked_too_soon};

/// From new images each whole run of these schedules reports exactly this, whatever befalls it.
pub fn reports_are_the_only_ones()
    ensures begins { IsOnly 1 false begins begun_report }
    ensures settles_twice { IsOnly 1 false settles_twice begun_report }
    ensures two_clients { IsOnly 1 false two_begin two_report }
    ensures reads { IsOnly 1 false reads_and_aborts read_report }
    ensures shows { IsOnly 1 false shows_unmade shown_report }
    ensures two_servers { IsOnly 2 false opens_other opened_report }
    ensures traced { IsOnly 1 true begins traced_report }
    ensures aborts { IsOnly 1 true begins_and_aborts aborted_report }
{}

/// Nothing is answered, although all settles.
pub fn a_report_that_answers_nothing_is_none()
    ensures { IsNoneOfNew 1 false begins quiet_report }
{}

/// A command is refused without a cause, by its client or as an event; or a show at a server that is up.
pub fn a_refusal_without_a_cause_is_none()
    ensures by_its_client { (refusal : Refusal) → IsNoneOfNew 1 false begins (refused_by_client refusal) }
    ensures as_an_event { (refusal : EventRefusal) → IsNoneOfNew 1 false begins (refused_as_event refusal) }
    ensures of_a_show { (refusal : EventRefusal) → IsNoneOfNew 1 false shows_unmade (show_tells (RefusedEvent refusal)) }
{}

/// A transaction commits that nobody began.
pub fn a_commit_of_nobody_is_none()
    ensures { IsNoneOfNew 1 false begins commit_of_nobody }
{}

/// One transaction is begun for two clients, a client is told of another's outcome, or another server is opened than its client named.
pub fn an_answer_for_another_is_none()
    ensures begun { IsNoneOfNew 1 false two_begin one_for_two }
    ensures aborted { IsNoneOfNew 1 false two_begin aborted_for_another }
    ensures committed { IsNoneOfNew 1 false two_begin committed_for_another }
    ensures opened { IsNoneOfNew 2 false opens_other opened_another }
{}

/// A transaction that aborts later is answered with bytes that nobody wrote.
pub fn other_bytes_before_an_abort_are_none()
    ensures { IsNoneOfNew 1 false reads_and_aborts read_otherwise }
{}

/// A show before anything has committed shows what was made as locked, or prints it, or anything else.
pub fn a_show_of_what_is_not_there_is_none()
    ensures { (text : Text) → IsNoneOfNew 1 false shows_unmade (show_tells text) }
{}

/// There is a line more: that a server came up, went down or was stopped, that a message was lost or ignored, that a work broke, that there is
/// a file, a page or a lock, that a fault was refused, or any other.
pub fn a_stray_line_is_none()
    ensures in_a_settle { (text : Text) → IsNoneOfNew 1 false begins (with_another text) }
    ensures at_the_end { (text : Text) → IsNoneOfNew 1 false begins (ended_with_another text) }
{}

/// A settle leaves a message waiting.
pub fn a_settle_that_leaves_a_message_is_none()
    ensures { IsNoneOfNew 1 false settles_twice answered_later }
{}

/// Messages have their lines out of order, or before what their step reports.
pub fn messages_out_of_place_are_none()
    ensures swapped { IsNoneOfNew 1 true begins messages_swapped }
    ensures too_soon { IsNoneOfNew 1 true begins_and_aborts thanked_too_soon }
{}

/// An answer stands at its command's own event, before anything is handed over.
pub fn an_answer_before_a_settle_is_none()
    ensures { IsNoneOfNew 1 false begins answered_at_once }
{}

/// A server comes up in another epoch than the next one.
pub fn a_skipped_epoch_is_none()
    ensures { IsNoneOfNew 1 false begins epoch_skipped }
{}

/// At the end the servers go down, or come up, in another order.
pub fn an_end_in_another_order_is_none()
    ensures down { IsNoneOfNew 2 false opens_other downs_swapped }
    ensures up { IsNoneOfNew 2 false opens_other ups_swapped }
{}
