//! Store scripts: from the bytes of a file to its commands, and from these to the replies that a store gives.
//!
//! A store keeps records by their keys. `specs/` says what a line of a script means, by cases on its words, which slot each
//! key has, and what a store replies where some of its puts are refused; the code meets these definitions.
#![tactic(auto)]

mod answered;
mod command;
pub mod laws;
mod line;
mod quad;
mod reading;
mod record;
mod replies;
mod slots;
mod source;
mod text;

pub use answered::Answered;
pub use command::{Command, CommandList, StoreScript};
pub use line::Request;
pub use line_text::{Meaning, TextFault as ScriptFault};
pub use quad::Quad;
pub use record::Record;
pub use replies::answers;
pub use source::read_script;
pub use text::write_replies;

#[cfg(test)]
mod tests;
