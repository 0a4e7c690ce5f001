//! A short transaction with a call.

ghost use Rattle.std.specs.Prelude.{◌≡◌, true};
ghost use Rattle.jn_order.specs.Files.{no_files};
ghost use Rattle.jn_replay.specs.Operations.{GivesAnswers};
ghost use Rattle.jn_calls.specs.Calls.{Fits};
ghost use Rattle.jn_unfolding.specs.Logs.{log_of, IsWhole};
ghost use Rattle.jn_unfolding.specs.Example.{one_byte, all_written, cut_short, two_done};

/// A file is made, and a byte is written to it. Two things are done, and a server without files gives their five operations
/// these answers.
pub fn a_write_counts_once()
    ensures whole { (fits : Fits one_byte) → IsWhole (log_of (all_written fits)) }
    ensures done { (fits : Fits one_byte) → (log_of (all_written fits)).done ≡ two_done }
    ensures answers { (fits : Fits one_byte) → GivesAnswers no_files (log_of (all_written fits)).operations }
{}

/// The same, but the call is given up before it has written block 0.
pub fn a_write_that_is_cut_short_is_not_whole()
    ensures { (fits : Fits one_byte) → (log_of (cut_short fits)).half_written ≡ true }
{}
