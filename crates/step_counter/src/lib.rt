//! Counted steps: how many steps on shared words a call has made.
//!
//! A caller hands [`Steps`] to each call that makes steps, and each step ticks once. What keeps the number
//! is the caller's choice: [`Kept`] keeps it in a word, to be read, and [`Quiet`] keeps it in clauses alone,
//! so that counting costs nothing at run time. A bound on steps is proved once, for every [`Ledger`].
#![tactic(auto)]

mod kept;
mod ledger;
mod quiet;
mod steps;
#[cfg(test)]
mod tests;

pub use kept::Kept;
pub use ledger::Ledger;
pub use quiet::Quiet;
pub use steps::Steps;
