//! The machine of the allocator: any number of processes at one table of words, one step after another.
//!
//! A [`CoreRun`] holds the words, the view of each process and who holds each block, at the end of a run from the
//! opening. A turn is one step of one process: [`CoreRun::move_one`] makes one of a transfer outside any call,
//! [`CoreRun::event`] one of a call. [`core_step`] makes the next step of one process on words that other processes
//! share; it goes on from what [`begin_transfer`] or a call began. `specs/Invariant.antt` gathers the parts of the
//! invariant that the crates below keep: the opening meets it, and each turn keeps it, with the history that the run
//! made. [`laws`] says what follows for every run.
#![tactic(auto)]

mod content;
mod kept;
pub mod laws;
mod run;
mod step;
#[cfg(test)]
mod tests;
mod turn;

pub use pool_machine::{
    Call, CallStage, CallView, Event, Happened, Heads, Phase, PoolView, ProcessView, Way,
    begin_transfer,
};
pub use run::CoreRun;
pub use step::core_step;
pub use transfer_machine::{
    Kind, Loaded, NextStep, Stage, TransferView, TryDraft, TryStep, opening_words,
};
