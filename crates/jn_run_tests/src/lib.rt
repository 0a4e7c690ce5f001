//! Whole runs, for tests and measurements: the lines of a schedule in a world, whether they meet each definition of what a report
//! must be, and how the top call ends on the same schedule. Its tests are schedules of two servers, and tables of stops and faults:
//! one commit across two servers, and four of a file with map pages, each stopped at each device call of it and of the restart behind
//! that; each call of source, sink and keeper that fails; and one server on a stream. And the image of one server by itself is loaded, examined and saved.
#![tactic(auto)]

mod calling;
mod driving;
#[cfg(test)]
mod images;
mod judging;
#[cfg(test)]
mod map_stops;
#[cfg(test)]
mod nodes;
#[cfg(test)]
mod schedules;
#[cfg(test)]
mod stops;

pub use calling::{Call, Failing, Images, ending_of, first_images};
pub use driving::{Servers, lines_of, parsed};
pub use judging::{Definition, first_broken, text_of};
