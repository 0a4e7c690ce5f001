//! The schedule of a trial, made of a seed; and schedules as text.
#![tactic(auto)]

mod draws;
mod event;
mod schedule;
mod text;
mod word;

pub use draws::draws_are_in_range;
pub use schedule::{TrialEvents, drawn_events_are_in_range};
pub use text::text_of;
