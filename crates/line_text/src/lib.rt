//! Texts that are read line by line: the bounded reading of a source, its lines, their words and the numbers of these.
//!
//! What a line means is up to the crates above. `specs/` says how bytes are cut, and what is answered to a text whatever
//! its lines mean; the code meets these definitions.
#![tactic(auto)]

mod cutting;
mod fault;
mod listed;
mod meaning;
mod numbers;
mod source;
mod words;

pub use cutting::split_line;
pub use fault::TextFault;
pub use listed::Listed;
pub use meaning::Meaning;
pub use numbers::number;
pub use source::{PieceKeeper, read_source};
pub use words::{split_first_word, split_last_word};
