//! The machine of the transfers of whole batches between private pools and one shared stack.
//!
//! Each process moves a batch by announcing its wish and then trying, at most twice, to install a new state
//! that has every pending wish applied; so a process that stops is helped by the others. The design follows
//! Blelloch and Wei (2020) for the pools, and the helping of Fatourou and Kallimanis (P-Sim, 2011).
//!
//! The machine is pure data. A [`TransferView`] is what one process knows of the transfers. Its [`Action`]
//! names the one word that its next step is on; `meet` says what the view becomes once that step met a word;
//! [`step_transfer`] makes the whole step on a list of words. `specs/` has the definitions that these are
//! proved equal to.
#![tactic(auto)]

mod action;
mod kind;
pub mod laws;
mod loaded;
mod opening;
mod stage;
mod step;
#[cfg(test)]
mod tests;
mod transfer;
mod try_draft;
mod try_steps;

pub use action::Action;
pub use kind::Kind;
pub use loaded::Loaded;
pub use opening::opening_words;
pub use stage::{NextStep, Stage, TryStep};
pub use step::{act, can_step, step_transfer};
pub use transfer::TransferView;
pub use try_draft::{TryDraft, is_pending};
