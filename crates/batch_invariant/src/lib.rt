//! The batches that transfers move, between any two steps.
//!
//! A batch is named by its head. The transfer of a process has at most one batch in transit: until it is
//! applied the one that it gives, then the one that its reply brings (`specs/Places.antt`). The module
//! [`laws`] has that beginnings and steps of transfers keep the batches of their process, and that a change of
//! the state moves batches between what is in transit and the content alone. Where each block is, and so each
//! batch, `chain_invariant` says.
#![tactic(auto)]

pub mod laws;
