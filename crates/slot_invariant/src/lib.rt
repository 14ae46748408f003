//! What holds of the slots, between any two steps of the machine of transfers.
//!
//! A slot below the base of the present state holds that state's content, and a slot that the state's overlay
//! covers does so once its tag is the state's number (`specs/Slots.antt`). The module [`laws`] has that this
//! holds at the opening and that every step of every process keeps it.
#![tactic(auto)]

pub mod laws;
