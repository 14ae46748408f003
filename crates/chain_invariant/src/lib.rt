//! Where each block of the pool is, between any two steps of any processes.
//!
//! A batch is a chain of blocks by their next words, named by its head, and so is the current list of a
//! process. Each block is at exactly one place: in a current list, in a batch (a spare, one in transit, or one
//! of the shared stack), or held by a process. `specs/Chains.antt` says so by one equation for every number
//! that may count for a block. The module [`laws`] has that the opening meets it, that transfers and the own
//! steps of processes keep it, and what follows.
#![tactic(auto)]

pub mod laws;
