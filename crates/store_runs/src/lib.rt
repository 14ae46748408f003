//! Runs of store scripts over a pool of their own, and what the history of a run owes to them.
//!
//! [`prepare_stores`] opens a pool and takes all memory that playing needs, and [`play_stores`] plays scripts over it side by side and
//! closes it.
#![tactic(auto)]

pub mod laws;
mod play;

pub use play::{PlayedStores, PreparedStores, play_stores, prepare_stores};

#[cfg(test)]
mod tests;
