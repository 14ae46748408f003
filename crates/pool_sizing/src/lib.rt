//! How large a pool has to be.
//!
//! [`enough_batches`] answers with how many batches no pool ever refuses a block, [`memory`] what an open pool takes,
//! and [`opening_memory`] what it takes to open one.
#![tactic(auto)]

mod batches;
mod bytes;
pub mod laws;

pub use batches::enough_batches;
pub use bytes::{memory, opening_memory};

#[cfg(test)]
mod tests;
