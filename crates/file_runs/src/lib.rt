//! Runs of programs that read files: how each file is read in its language, how a run ends, and the line that says so.
//!
//! `specs/` says what is known of the outside before a run and after it, and when the reading of files ends.
#![tactic(auto)]

mod ending;
mod line;
mod reading;
mod telling;

pub use ending::Ending;
pub use line::{LONGEST_LINE, Line, push_number};
pub use reading::{Language, ReadFile, read_files};
pub use telling::{LONGEST_NAME, tell};
