//! Players: from the script of a trace to the calls of one process, and from these to its tally.
//!
//! `specs/` says what the tally of a script is, by the refusals of its slots, and which calls of a process
//! fit a script. [`play_plain`] plays scripts one after the other over one plain pool.
#![tactic(auto)]

mod plain;
mod tally;

pub use plain::play_plain;
pub use tally::Tally;
