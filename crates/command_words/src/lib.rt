//! The words of a command line, and the command that they ask for.
//!
//! The second word names the command. `clap` reads it and the words after it as one simple command without
//! subcommands, help or version. `specs/` says what a command line means, in `clap`'s own words, and
//! [`read_words`] answers exactly that.
#![tactic(auto)]

mod asked;
mod command;
mod drill_words;
mod fault;
mod number;
mod options;
mod play_words;
mod read;
mod store_words;

pub use command::{Command, Drill, FileNames, MOST_CALLS, Play, Store};
pub use drill_words::read_drill;
pub use fault::WordsFault;
pub use read::read_words;

#[cfg(test)]
mod tests;
