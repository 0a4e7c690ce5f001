//! Tests of the sources, sinks and keepers, of frames, and of what the program doesn't ask for. All else that comes in and goes out it shows by itself:
//! `.ci/program`, `.ci/schedules`, `rows/` and `examples/`.
#![tactic(auto)]

#[cfg(test)]
mod frames;
#[cfg(test)]
mod host;
#[cfg(test)]
mod locks;
#[cfg(test)]
mod unasked;
