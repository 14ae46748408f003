//! Tables whose rule asks nothing, and one whose word never falls.

mod always;
mod rising;
