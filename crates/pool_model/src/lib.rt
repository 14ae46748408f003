//! What a pool of blocks is, before any way to run one.
//!
//! An [`Entry`] is one call of `allocate` or `free` as a history records it. `specs/` says what a history
//! is, which blocks are held after it, and which histories are legal. [`PlainPool`] is the smallest pool
//! that keeps such a history: one thread, a counter and a list.
#![tactic(auto)]

mod entry;
mod memory;
mod plain_pool;

pub use entry::Entry;
pub use memory::NoMemory;
pub use plain_pool::PlainPool;
