//! Rules over the words of a table, before there is a table.
//!
//! A rule is a fact about the words and about what each seat knows, its view. Each step of a seat has to
//! keep it. `specs/` says what a step owes to a rule and what it tells the seat that made it; `proofs/` has
//! what follows. A machine of plain data implements [`WordRule`] and needs to know nothing of tables.
#![tactic(auto)]

mod rule;

pub use rule::{LearnAbout, SeatRule, WordRule};
