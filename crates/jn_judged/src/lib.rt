//! When a line of a report is at fault: the rules that a report keeps, line by line, each by its number. No code judges
//! reports here; the laws say that no line is at fault exactly where the whole report keeps what a report promises.
#![tactic(auto)]

mod examples;
mod laws;

pub use examples::{
    a_report_of_its_commits_is_faultless, a_second_answer_is_at_fault,
    an_abort_without_a_cause_is_at_fault, an_answer_that_the_order_does_not_give_is_at_fault,
    what_is_shown_wrongly_is_at_fault,
};
pub use laws::{
    a_faulty_report_has_a_least_fault, a_report_has_one_least_fault,
    a_report_is_faultless_where_all_is_kept, answers_agree_line_by_line,
    answers_follow_line_by_line, causes_come_line_by_line, files_are_shown_line_by_line,
    outcomes_are_reported_line_by_line,
};
