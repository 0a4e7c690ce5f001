//! Short reports written by hand, and which line of them is at fault.

ghost use Rattle.std.specs.Prelude.{[], ◌∷◌};
ghost use Rattle.jn_order.specs.Files.{AllFiles, no_files};
ghost use Rattle.jn_serial.specs.Example.{made_and_removed, told_twice, opened_and_down, lost_after, refused_line};
ghost use Rattle.jn_judged.specs.Example.{made_twice, answered_then, there_already, made_again, file_line, count_line};
ghost use Rattle.jn_judged.specs.Faults.{IsFault, IsFaultless};

/// A file is made twice, and the second time is answered that it is there already.
pub fn a_report_of_its_commits_is_faultless()
    ensures { IsFaultless no_files made_twice (answered_then there_already (file_line ∷ count_line 1 ∷ [])) }
{}

/// A file that is there already is made again.
pub fn an_answer_that_the_order_does_not_give_is_at_fault()
    ensures { IsFault no_files made_twice (answered_then made_again (file_line ∷ count_line 1 ∷ [])) 3 10 }
{}

/// The end leaves out a file: the line one past the last is at fault. Or it prints a file that isn't there, or
/// counts a commit too many.
pub fn what_is_shown_wrongly_is_at_fault()
    ensures left_out { IsFault no_files made_twice (answered_then there_already (count_line 1 ∷ [])) 7 11 }
    ensures not_there { IsFault no_files [] (file_line ∷ count_line 0 ∷ []) 1 11 }
    ensures counted { IsFault no_files made_twice (answered_then there_already (file_line ∷ count_line 2 ∷ [])) 7 11 }
{}

/// A transaction is lost with a server that its client had refused to open.
pub fn an_abort_without_a_cause_is_at_fault()
    ensures { (files : AllFiles) → IsFault files opened_and_down (lost_after refused_line) 4 13 }
{}

/// A command is answered twice.
pub fn a_second_answer_is_at_fault()
    ensures { (files : AllFiles) → IsFault files made_and_removed told_twice 3 14 }
{}
