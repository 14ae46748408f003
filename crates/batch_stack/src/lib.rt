//! The running transfer: a process takes a whole batch from the shared stack, or gives one to it, step by step.
//!
//! A [`Transfer`] is the machine's own part of a transfer, which its process runs over a seat of the table. Each
//! [`step`](Transfer::step) is the machine's next step of that process, whether it makes transfers alone or in calls.
//! Other processes may stop or go on as they like: the transfer ends within its bound.
#![tactic(auto)]

mod progress;
mod transfer;

pub use progress::Progress;
pub use transfer::Transfer;
