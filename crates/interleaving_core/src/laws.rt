//! What holds of every run of the machine. Each law is the contract of a call that does nothing.

pub mod calls;
pub mod invariant;
pub mod labels;
pub mod moving;
pub mod states;
pub mod steps;
pub mod transfers;
pub mod turns;
