//! A pool of blocks that processes allocate and free in constant time, whatever other processes do.
//!
//! A [`Pool`] holds the blocks and is shared; each process has a [`Pass`] with which it calls. An
//! [`allocate`](Pool::allocate) or a [`free`](Pool::free) makes at most a quantum of steps of its process's pending
//! transfer of a whole batch and one step of its own. The calls of all passes stand in one legal history.
#![tactic(auto)]

mod calling;
mod closing;
pub mod laws;
mod opening;
mod pass;
mod pool;
mod process;
mod search;
#[cfg(test)]
mod tests;

pub use closing::Settled;
pub use pass::{Block, Pass};
pub use pool::{Answer, Pool};
