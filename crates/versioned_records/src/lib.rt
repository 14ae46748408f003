//! Records of the shared stack: their words, loaded and stored one a step.
//!
//! A record is written word by word, each with the number of the state that it is for, before the exchange that makes
//! it current. So a reader that finds its own number in each word has one state whole, and one that finds a higher
//! number knows that the state has moved on. A [`RecordCursor`] says which load or store comes next, for whoever runs a
//! transfer; a [`RecordReader`] and a [`RecordWriter`] make those steps, and keep the words of a whole record.
#![tactic(auto)]

mod cursor;
mod reader;
mod writer;

pub use cursor::RecordCursor;
pub use pool_table::{PoolSeat, PoolTable};
pub use reader::{ReadStep, RecordReader};
pub use writer::{RecordWriter, WriteStep};
