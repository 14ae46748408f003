//! Runs over the pool: the scripts that a run plays, how it plays them, and what its history owes to them.
//!
//! [`prepare_traces`] opens a pool and takes all memory that playing needs; [`play_traces`] plays the scripts over it side by side, and
//! closes it. [`drill_scripts`] makes the scripts of a drill.
#![tactic(auto)]

mod drill;
pub mod laws;
mod play;

pub use drill::drill_scripts;
pub use play::{PlayedTraces, PreparedTraces, play_traces, prepare_traces};

#[cfg(test)]
mod tests;
