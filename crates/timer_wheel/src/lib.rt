//! A hashed timer wheel whose timers stand in blocks of a pool.
//!
//! A [`Wheel`] keeps the timers of one process: each is a record of four words in a block of its own. After opening no call
//! takes memory. What is due at a moment stands in one of the wheel's lists, so a tick looks at the timers of one list alone.
#![tactic(auto)]

mod chain;
mod changes;
mod key;
mod record;
mod steps;
mod table;
#[cfg(test)]
mod tests;
mod wheel;

pub use key::{Key, Started};
pub use record::TimerRecord;
pub use wheel::Wheel;
