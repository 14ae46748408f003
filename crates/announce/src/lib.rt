//! Announcements: what each process wishes of the shared stack, in one word of its own that all others load.
//!
//! A transfer begins with one store of the announcement, which raises the age of its process: [`announce_take`] and
//! [`announce_give`]. Whoever makes a try loads the announcements of all processes, one a step, and applies the
//! pending ones: an [`AnnounceReader`] goes through them in order. [`store_of_announcement`] and
//! [`load_of_announcement`] say which store and which load that is, for whoever runs a transfer.
#![tactic(auto)]

mod load;
mod reader;
mod store;

pub use load::load_of_announcement;
pub use reader::AnnounceReader;
pub use store::{announce_give, announce_take, store_of_announcement};
