//! The numbers of a pool, and the words that it stands in.
//!
//! A [`Shape`] is the numbers of a pool, all within their limits. A pool of that shape stands in one table
//! of words. Each word has a [`WordName`], and `specs/Names.antt` has the one function from a name to its
//! place. No layer above computes a place. [`Tagged`], [`Announced`] and [`Reply`] say what is packed into
//! a word. The module [`laws`] has what holds of names, places and packed words.
#![tactic(auto)]

mod announced;
mod fault;
pub mod laws;
mod name;
mod reply;
mod shape;
mod tagged;

pub use announced::{Announced, Wish};
pub use fault::ShapeFault;
pub use name::WordName;
pub use reply::Reply;
pub use shape::Shape;
pub use tagged::Tagged;

#[cfg(test)]
mod tests;
