//! The seats of a pool's processes: all of them are made at the opening, and one takes in the others at the end.
//!
//! [`open_seats`] makes a table of the opening words and the seat of each process. They are joined by
//! `pool_table::join_seats`, one after another; [`laws`] say what a seat knows that has taken in all others.
#![tactic(auto)]

pub mod laws;
mod opening;

pub use opening::open_seats;
