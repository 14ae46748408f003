//! Which pool a program needs, by the traces of its allocations.
//!
//! [`fit`] answers, for each size of blocks and each quantum, the fewest batches with which a pool refuses nothing that the
//! traces ask for, whatever their processes do at once, and what that pool takes.
#![tactic(auto)]

mod choice;
mod classes;
mod fitting;
pub mod laws;
mod moves;
mod peak;
mod rows;
mod sizes;
mod tide;

pub use choice::{Choice, choose};
pub use classes::{SizeClass, size_classes};
pub use fitting::{Table, fit};
pub use moves::{Move, MoveList, trace_moves};
pub use peak::peak_without_refusals;
pub use rows::{EnoughPool, QuantumRow, quantum_row};
pub use sizes::{SizeRow, size_row};

#[cfg(test)]
mod tests;
