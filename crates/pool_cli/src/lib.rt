//! The program as one call over any files, sinks and gates: words in, a text and a status out.
#![tactic(auto)]

mod commands;
mod ending;
mod gates;
mod languages;
mod printing;
mod program;
mod replies;
mod report;
mod scripts;
mod shape;

pub use ending::Ended;
pub use file_runs::Ending;
pub use gates::{MOST_PROCESSES, open_gates};
pub use program::run;

#[cfg(test)]
mod tests;
