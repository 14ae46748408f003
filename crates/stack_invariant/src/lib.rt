//! The invariant of the shared stack: all that holds of the words and of the views of the machine of transfers,
//! between any two steps.
//!
//! Its parts are gathered in `specs/Stack.antt`; each has a crate of its own. The module [`laws`] has that the
//! opening meets it, that every step of every process keeps it, and what it gives. Two of the laws are the
//! promise of the machine: a transfer is applied once its two tries are over, and the content of the stack is
//! what the words show, which only an exchange of the state changes.
#![tactic(auto)]

pub mod laws;
