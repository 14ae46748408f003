//! Players over a pool: each process of it plays a script of its own with its pass, and tells a gate of its own of each call before it
//! makes it.
//!
//! A kind of script implements [`Player`], and who is told a [`Gate`]. [`prepare`] takes all memory that playing needs, and
//! [`prepare_pool`] opens the pool before; [`play`] plays the scripts then, in threads of their own, and closes the pool.
#![tactic(auto)]

mod gate;
mod player;
mod players;
mod playing;
mod preparing;
mod slots;

pub use gate::{Gate, OpenGate, Told};
pub use player::Player;
pub use playing::{Played, play};
pub use preparing::{Prepared, prepare, prepare_pool};
pub use slots::empty_slots;
