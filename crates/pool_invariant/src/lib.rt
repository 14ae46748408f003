//! What a process keeps for its private pool, and how many steps a transfer takes.
//!
//! The facts are all of one process. They are gathered in `specs/Holds.antt`: those that hold whatever way the
//! process uses its pool, and those of one that makes transfers alone, outside any call. The module [`laws`] has
//! that they hold at the opening, that beginnings and steps keep them, and what follows.
#![tactic(auto)]

pub mod laws;
