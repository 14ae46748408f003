//! Words that threads share, changed in counted atomic steps under a rule.
//!
//! A [`WordTable`] owns the words. A [`WordSeat`] is what steps on them: one call is one atomic step of one
//! word, one tick of the caller's [`Steps`](step_counter::Steps), and one move of the seat, whose view learns
//! as the rule says. A step has to keep the rule whatever the words and the other views are by then, and
//! tells its caller what it met. No step takes memory or waits.
#![tactic(auto)]

mod plays;
pub mod rising;
mod seat;
mod seats;
mod table;
#[cfg(test)]
mod tests;

pub use seat::WordSeat;
pub use table::WordTable;
pub use word_rule::{LearnAbout, SeatRule, WordRule};
