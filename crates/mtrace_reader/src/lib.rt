//! Trace files: from the bytes of a file to the operations of its lines, and from these to the steps that
//! a player makes. Traces are also made of a seed.
//!
//! The form of a trace is taken after glibc's mtrace. `specs/` says what a line means, by cases on its
//! words, and what a list of bytes reads as; the code meets these definitions.
#![tactic(auto)]

pub mod laws;
mod line;
mod made;
mod reading;
mod source;
mod steps;
mod trace;
mod value;
mod walk;

pub use line_text::{Meaning, TextFault as TraceFault};
pub use made::{MOST_CALLS, make_trace};
pub use source::read_trace;
pub use steps::{Script, Step, StepList};
pub use trace::{Operation, OperationList, Trace};
pub use walk::script;
