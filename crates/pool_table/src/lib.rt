//! The words of a pool under the machine's invariant, and one function that makes each step.
//!
//! A [`PoolTable`] holds the words, and a [`PoolSeat`] for each process steps on them. The rule ([`PoolRule`]) is
//! the invariant of `interleaving_core`: it holds between any two steps of any seats. [`act`] makes every step of a
//! transfer or a call, whichever it is: its contract says which word it is on, what it met, and what the seat knows
//! afterwards.
#![tactic(auto)]

mod about;
mod acting;
mod facts;
pub mod laws;
mod moving;
mod opening;
mod rule;
mod seats;

pub use about::About;
pub use acting::act;
pub use facts::SeatFacts;
pub use moving::about_of;
pub use opening::open_table;
pub use rule::{PoolRule, PoolSeat, PoolTable};
pub use seats::{join_seats, next_seat};
