//! Size classes: up to eight rising sizes, and the class of a size.
//!
//! A [`ClassSet`] is read of a text of rising sizes. It tells for each size the first class that is large enough.
#![tactic(auto)]

mod class_set;

pub use class_set::ClassSet;
