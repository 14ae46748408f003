//! How processes help each other: what holds of announcements, of the two tries of a transfer and of replies
//! in the machine of transfers, between any two steps.
//!
//! The parts are records in `specs/Parts.antt`, each with what it says in words. The module [`laws`] has that
//! the opening meets them, that every step of every process keeps them, and what follows: two tries are
//! enough, and the reply that a transfer loads in the end is the one that was settled when it was applied.
#![tactic(auto)]

pub mod laws;
