//! The words that the program is called with, as a command.
//!
//! They are the program's name and one of three commands. `run` has options in any order, each at most
//! once: `--servers`, `--pool`, `--heads` and `--data`, each with a number, `--in` and `--out`, each
//! with a name, and `--trace`. `trial` has two numbers, a seed and how many events there are. `node` has
//! the number of a server, and `--in` and `--out`, each once with a name.
#![tactic(auto)]

mod asked;
mod command;
mod laws;
mod name;
mod read;

pub use asked::{Command, Geometry, Node, Opening, Options, Trial};
pub use laws::{
    commands_are_within_limits, defaults_stand_alone, names_are_read, nodes_are_read,
    numbers_are_those_of_schedules, options_are_read, other_names_are_refused,
    other_nodes_are_refused, other_trials_are_refused, other_words_are_refused,
    runs_without_names_are_on_new_disks, trials_are_read,
};
pub use name::Name;
pub use read::read_command;
