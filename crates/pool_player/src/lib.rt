//! Players of traces: the process of a pass plays a script, and tells a gate of each call before it makes it.
//!
//! [`play_one`] plays one script with one pass, while other passes of the pool may be used in other threads.
//! [`TracePlayer`] does so for the calls of [`pass_players`], which play the scripts of all processes.
#![tactic(auto)]

mod allocating;
mod freeing;
pub mod laws;
mod one;
mod player;

pub use one::play_one;
pub use player::TracePlayer;
