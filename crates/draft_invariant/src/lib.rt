//! What a process drafts in a try: that it is the next state, and that all its numbers are in range.
//!
//! This is the part "draft of a try" of the invariant of the machine of transfers. Its facts are gathered in
//! `specs/Holding.antt`. The module [`laws`] has that the opening meets it, that every step of every process keeps
//! it, and what it gives.
#![tactic(auto)]

pub mod laws;
