//! The outside: files that are read, a sink that is written to, and the words of the command line.
//!
//! [`Files`] and [`Sink`] say by their ghost members what is known of the outside: how often it failed, and,
//! where an implementation tells them, its bytes. [`MemoryFiles`] and [`MemorySink`] stand in memory and tell
//! all; [`RealFiles`] and [`StdSink`] reach the system and tell nothing but their counts and what reads answered.
#![tactic(auto)]

mod answers;
mod command_line;
mod counts;
mod files;
mod memory_files;
mod memory_sink;
mod reads;
mod real;
mod sink;
mod write;

pub use command_line::{NoWords, words};
pub use files::{Failed, Files};
pub use memory_files::{MemoryFiles, MemorySource};
pub use memory_sink::MemorySink;
pub use reads::Reads;
pub use real::{RealFiles, StdSink, StdStream, StreamSink};
pub use sink::Sink;
pub use write::write_whole;

#[cfg(test)]
mod tests;
