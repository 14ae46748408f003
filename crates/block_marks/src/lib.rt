//! A mark for each block of a pool, a bit each: which blocks somebody holds.
//!
//! [`Marks`] takes its memory when it is made. To ask, to set and to clear a mark takes one word.
#![tactic(auto)]

mod marks;
#[cfg(test)]
mod tests;

pub use marks::Marks;
