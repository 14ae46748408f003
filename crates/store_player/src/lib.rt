//! Players of store scripts: the process of a pass keeps the records of a script in blocks of the pool.
//!
//! [`play_store`] plays one script with one pass, while other passes of the pool may be used in other threads. A gate is told of
//! each call that gets or frees a block, before it. [`StorePlayer`] does so for the calls of [`pass_players`], which play the
//! scripts of all processes.
#![tactic(auto)]

mod one;
mod player;
mod putting;
mod taking;

pub use one::play_store;
pub use player::{AnswerList, StorePlayer};
