//! Schedules: which process makes which step, one after the other; and what the machine of the allocator answers to one.
//!
//! [`read_schedule`] reads a schedule from a file. [`replay`] makes its events with the machine itself, a [`CoreRun`], step by
//! step, and notes each answer that isn't a mere step of a transfer. [`write_replay`] writes the notes, the state's number, the
//! shared stack and what each process keeps. `specs/` says what a line means, which line is the first bad one, and what a replay is.
//!
//! [`CoreRun`]: interleaving_core::CoreRun
#![tactic(auto)]

mod fault;
mod line;
mod made;
mod notes;
mod numbers;
mod reading;
mod replaying;
mod schedule;
mod source;
mod text;

pub use fault::ReplayFault;
pub use interleaving_core::{Call, Event, Happened};
pub use line::Said;
pub use line_text::TextFault as ScheduleFault;
pub use notes::Note;
pub use replaying::{Replayed, replay};
pub use schedule::{Repeat, RepeatList, Schedule};
pub use source::read_schedule;
pub use text::write_replay;

#[cfg(test)]
mod tests;
