//! The machine of a pool: the private pools and the calls of a process, step by step.
//!
//! A [`ProcessView`] is what one process knows: its part of the transfers, its private pool, and its calls. A
//! call is an allocate, a free, or a read or write of a data word. An allocate or a free first makes steps of
//! the pending transfer, at most a quantum of them, and then its own step; a read or a write has its own step
//! alone. [`begin_call`] begins a call, and [`step_call`] makes one step of it on a list of words. A process
//! that makes no calls may use transfers alone: [`begin_transfer`] begins one, and [`step_words`] makes a step
//! of it. `specs/` has the definitions that these are proved equal to.
#![tactic(auto)]

mod answer;
mod begin;
mod call;
mod conditions;
mod event;
mod heads;
pub mod laws;
mod own;
mod phase;
mod ready;
mod step;
#[cfg(test)]
mod tests;
mod view;

pub use answer::OwnAnswer;
pub use begin::{before_call, begin_call, begin_transfer, choose, newest};
pub use call::{Call, CallStage, CallView, Way};
pub use conditions::{may_call, may_move};
pub use event::{Event, Happened};
pub use heads::Heads;
pub use own::{
    first_block, follower, next_block, own_action, own_answer, own_kind, own_meet, put_block,
    take_head,
};
pub use phase::Phase;
pub use ready::{can_begin, can_step_call};
pub use step::{call_action, call_answer, call_meet, step_call, step_words};
pub use view::{PoolView, ProcessView};
