//! What holds of the words and of all views of the machine of transfers, between any two steps: the parts that
//! speak of the state, of the records and of the number of states.
//!
//! The invariant is a record of parts in `specs/Invariant.antt`, each with what it says in words. The module
//! [`laws`] has that the opening meets it and that every step of every process keeps it. Three crates over this
//! one have the other parts: slots (`slot_invariant`), announcements, two tries and settled replies
//! (`helping_invariant`), and the draft of a try (`draft_invariant`); `stack_invariant` gathers all of them.
#![tactic(auto)]

pub mod laws;
