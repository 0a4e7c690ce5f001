//! What some words ask for, and what may be asked for.
ghost use Rattle.std.specs.Prelude.{◌≡◌, ◌<◌, ◌≤◌, ◌^◌, ◌↔◌, ℕ, List, [], ◌∷◌, Some, None, true, false, codes, length, replicate, option_map};
ghost use Rattle.clap.specs.Words.{Row, Text, fault_of, first_of, subcommand_of};
ghost use Rattle.jn_text.specs.Read.{IsNumberAt};
ghost use Rattle.jn_options.specs.Command.{program_app};
ghost use Rattle.jn_options.specs.Words.{IsCommandInRange, command_in, geometry_given, number_in, run_from};
ghost use Rattle.jn_options.specs.declared.asked.Command.{Command as ACommand};
ghost use Rattle.jn_options.specs.declared.asked.Command.TheVariants.{Node, Run, Trial};
ghost use Rattle.jn_options.specs.declared.asked.Opening.TheVariants.{New, Images};

/// A number is spelled as in a schedule: the whole word is the number that stands at its start.
pub fn numbers_are_those_of_schedules()
    ensures { (least most n : ℕ) (text : Text) → most < 2 ^ 64
        → (number_in least most text ≡ Some n) ↔ ((least ≤ n) × IsNumberAt text 0 most n (length text)) }
{}

/// Each number of a command is within its limits, each name has 1 to 100 bytes, and images that are
/// read aren't written over.
pub fn commands_are_within_limits()
    ensures { (words : List Text) (command : ACommand) → command_in words ≡ Some command → IsCommandInRange command }
{}

/// A run for which no name is given begins on new disks with the counts of pages that are given, and
/// no images are kept of it.
pub fn runs_without_names_are_on_new_disks()
    ensures { (words : List Text) (rows : List Row) → fault_of program_app words ≡ []
        → subcommand_of program_app words ≡ Some (codes "run", rows)
        → first_of (codes "in") rows ≡ None → first_of (codes "out") rows ≡ None
        → command_in words ≡ option_map Run (run_from rows (option_map New (geometry_given rows))) }
{}

/// Without options each has its default.
pub fn defaults_stand_alone()
    ensures { command_in (codes "juniper" ∷ codes "run" ∷ [])
        ≡ Some (Run (record {
          servers = 1;
          opening = New (record { pool = 32; heads = 16; leaves = 128 });
          closing = None;
          trace = false;
        })) }
{}

/// Options are read in any order, with their number in the next word or behind `=`.
pub fn options_are_read()
    ensures next_word { command_in (codes "juniper" ∷ codes "run" ∷ codes "--servers" ∷ codes "2" ∷ codes "--trace" ∷ [])
        ≡ Some (Run (record {
          servers = 2;
          opening = New (record { pool = 32; heads = 16; leaves = 128 });
          closing = None;
          trace = true;
        })) }
    ensures behind { command_in (codes "juniper" ∷ codes "run" ∷ codes "--trace" ∷ codes "--data=6" ∷ [])
        ≡ Some (Run (record {
          servers = 1;
          opening = New (record { pool = 32; heads = 16; leaves = 6 });
          closing = None;
          trace = true;
        })) }
{}

/// A run begins with the images of one name, and those of another are kept of it.
pub fn names_are_read()
    ensures both { command_in (codes "juniper" ∷ codes "run" ∷ codes "--out=b" ∷ codes "--servers=2" ∷ codes "--in" ∷ codes "a" ∷ [])
        ≡ Some (Run (record {
          servers = 2;
          opening = Images (codes "a");
          closing = Some (codes "b");
          trace = false;
        })) }
    ensures longest { command_in (codes "juniper" ∷ codes "run" ∷ codes "--in" ∷ replicate 100 97 ∷ [])
        ≡ Some (Run (record {
          servers = 1;
          opening = Images (replicate 100 97);
          closing = None;
          trace = false;
        })) }
{}

/// A trial has a seed and a count of events.
pub fn trials_are_read()
    ensures { command_in (codes "juniper" ∷ codes "trial" ∷ codes "7" ∷ codes "200" ∷ [])
        ≡ Some (Trial (record { seed = 7; events = 200 })) }
{}

/// A node has a server and two names, in any order.
pub fn nodes_are_read()
    ensures next_word { command_in (codes "juniper" ∷ codes "node" ∷ codes "3" ∷ codes "--in" ∷ codes "a" ∷ codes "--out" ∷ codes "b" ∷ [])
        ≡ Some (Node (record { server = record { 0 = 3 }; opening = codes "a"; closing = codes "b" })) }
    ensures any_order { command_in (codes "juniper" ∷ codes "node" ∷ codes "--out=b" ∷ codes "0" ∷ codes "--in=a" ∷ [])
        ≡ Some (Node (record { server = record { 0 = 0 }; opening = codes "a"; closing = codes "b" })) }
{}

/// Other words are refused: no command or another one, more words, help, an option that is given
/// twice, and a number that is missing, too large or begins with a zero.
pub fn other_words_are_refused()
    ensures no_words { command_in [] ≡ None }
    ensures no_command { command_in (codes "juniper" ∷ []) ≡ None }
    ensures other_command { command_in (codes "juniper" ∷ codes "ru" ∷ []) ≡ None }
    ensures more { command_in (codes "juniper" ∷ codes "run" ∷ codes "run" ∷ []) ≡ None }
    ensures help { command_in (codes "juniper" ∷ codes "run" ∷ codes "--help" ∷ []) ≡ None }
    ensures version { command_in (codes "juniper" ∷ codes "--version" ∷ []) ≡ None }
    ensures twice { command_in (codes "juniper" ∷ codes "run" ∷ codes "--trace" ∷ codes "--trace" ∷ []) ≡ None }
    ensures missing { command_in (codes "juniper" ∷ codes "run" ∷ codes "--servers" ∷ []) ≡ None }
    ensures too_large { command_in (codes "juniper" ∷ codes "run" ∷ codes "--servers=9" ∷ []) ≡ None }
    ensures zero_first { command_in (codes "juniper" ∷ codes "run" ∷ codes "--servers" ∷ codes "08" ∷ []) ≡ None }
{}

/// Names are refused where a count of pages stands beside the images that have them, where images
/// that are read would be written over, and where a name is empty or has more than 100 bytes.
pub fn other_names_are_refused()
    ensures pool { command_in (codes "juniper" ∷ codes "run" ∷ codes "--in=a" ∷ codes "--pool=1" ∷ []) ≡ None }
    ensures heads { command_in (codes "juniper" ∷ codes "run" ∷ codes "--heads=1" ∷ codes "--in=a" ∷ []) ≡ None }
    ensures leaves { command_in (codes "juniper" ∷ codes "run" ∷ codes "--in=a" ∷ codes "--data=1" ∷ []) ≡ None }
    ensures same { command_in (codes "juniper" ∷ codes "run" ∷ codes "--in=a" ∷ codes "--out=a" ∷ []) ≡ None }
    ensures empty { command_in (codes "juniper" ∷ codes "run" ∷ codes "--out=" ∷ []) ≡ None }
    ensures too_long { command_in (codes "juniper" ∷ codes "run" ∷ codes "--out" ∷ replicate 101 97 ∷ []) ≡ None }
{}

/// A trial is refused with no events or too many, with a seed that is too large, and where a number is
/// missing or one too many stands.
pub fn other_trials_are_refused()
    ensures no_events { command_in (codes "juniper" ∷ codes "trial" ∷ codes "7" ∷ codes "0" ∷ []) ≡ None }
    ensures many_events { command_in (codes "juniper" ∷ codes "trial" ∷ codes "7" ∷ codes "100001" ∷ []) ≡ None }
    ensures large_seed { command_in (codes "juniper" ∷ codes "trial" ∷ codes "18446744073709551616" ∷ codes "1" ∷ []) ≡ None }
    ensures missing { command_in (codes "juniper" ∷ codes "trial" ∷ codes "7" ∷ []) ≡ None }
    ensures more { command_in (codes "juniper" ∷ codes "trial" ∷ codes "7" ∷ codes "200" ∷ codes "1" ∷ []) ≡ None }
{}

/// A node is refused without a server or with one past 7, without a name or with one name for both, and where an option is given
/// twice or is one of another command.
pub fn other_nodes_are_refused()
    ensures no_server { command_in (codes "juniper" ∷ codes "node" ∷ codes "--in=a" ∷ codes "--out=b" ∷ []) ≡ None }
    ensures large_server { command_in (codes "juniper" ∷ codes "node" ∷ codes "8" ∷ codes "--in=a" ∷ codes "--out=b" ∷ []) ≡ None }
    ensures zero_first { command_in (codes "juniper" ∷ codes "node" ∷ codes "01" ∷ codes "--in=a" ∷ codes "--out=b" ∷ []) ≡ None }
    ensures more { command_in (codes "juniper" ∷ codes "node" ∷ codes "0" ∷ codes "1" ∷ codes "--in=a" ∷ codes "--out=b" ∷ []) ≡ None }
    ensures no_opening { command_in (codes "juniper" ∷ codes "node" ∷ codes "0" ∷ codes "--out=b" ∷ []) ≡ None }
    ensures no_closing { command_in (codes "juniper" ∷ codes "node" ∷ codes "0" ∷ codes "--in=a" ∷ []) ≡ None }
    ensures same { command_in (codes "juniper" ∷ codes "node" ∷ codes "0" ∷ codes "--in=a" ∷ codes "--out=a" ∷ []) ≡ None }
    ensures empty { command_in (codes "juniper" ∷ codes "node" ∷ codes "0" ∷ codes "--in=" ∷ codes "--out=b" ∷ []) ≡ None }
    ensures too_long { command_in (codes "juniper" ∷ codes "node" ∷ codes "0" ∷ codes "--in=a" ∷ codes "--out" ∷ replicate 101 97 ∷ []) ≡ None }
    ensures twice { command_in (codes "juniper" ∷ codes "node" ∷ codes "0" ∷ codes "--in=a" ∷ codes "--in=c" ∷ codes "--out=b" ∷ []) ≡ None }
    ensures other { command_in (codes "juniper" ∷ codes "node" ∷ codes "0" ∷ codes "--in=a" ∷ codes "--out=b" ∷ codes "--trace" ∷ []) ≡ None }
{}
