//! A pass together with its pool and a mark for each block that it holds: what a caller without proofs can use.
//!
//! What the pool's calls require of a caller is tested here: that the pass holds the block, that the index is one of a
//! data word, and that the pass has transfers left. Any number may be given.
#![tactic(auto)]

mod member;
mod opening;
#[cfg(test)]
mod tests;

pub use member::{Freeing, Getting, Member, WordFault};
pub use opening::{OpenFault, open};
