//! One legal history of all calls, and why a refusal is legal.
//!
//! It speaks of no words: only of what each process has counted, of its entries, and of the history that they
//! all fit. The facts are gathered in `specs/Holds.antt`; the module [`laws`] has that the opening meets them,
//! that steps, exchanges and entries keep them, and what follows for the held blocks.
#![tactic(auto)]

pub mod laws;
