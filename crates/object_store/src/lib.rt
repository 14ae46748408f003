//! Records in the blocks of a pool.
//!
//! A [`Store`] puts values of one type into blocks, one a block. An [`Object`] is a value that was put. While its pass holds
//! it, the pass knows the first words of its block as those of the value.
#![tactic(auto)]

mod object;
mod store;
mod words;

pub use object::{Object, Put};
pub use store::Store;
