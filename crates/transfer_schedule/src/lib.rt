//! The numbers of a private pool, and when it moves a batch to or from the shared stack.
//!
//! A process keeps a current list of blocks, a few spare batches and at most one pending transfer of a batch.
//! A [`Plan`] counts them. Each call of the pool begins a transfer where one is due, makes a quantum of steps
//! of the pending one, and then takes or gives one block. `specs/` says what each of these does to the
//! numbers; [`laws`] says what follows for every list of calls: a transfer ends before it is needed, few
//! batches are kept, and a refusal comes only soon after a take that found nothing.
#![tactic(auto)]

mod call;
pub mod laws;
mod own_step;
mod pending;
mod plan;
#[cfg(test)]
mod tests;

pub use call::{OwnStep, PlannedAnswer, PlannedCall};
pub use own_step::{Source, Target};
pub use pending::Pending;
pub use plan::Plan;
