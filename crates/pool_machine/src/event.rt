// One step of a process, and what happened in it.
use crate::call::Call;
use pool_model::Entry;
use transfer_machine::Kind;

/// One step of a process: the next one of its call, or the first of this call where it is in none.
#[derive(Clone, Copy, Debug, PartialEq, Eq, Hash)]
pub struct Event {
    /// The process.
    pub by: u32,
    /// What it calls for where it is between two calls.
    pub call: Call,
}

/// What happened in a step.
#[derive(Clone, Copy, Debug, PartialEq, Eq, Hash)]
pub enum Happened {
    /// A step of a transfer.
    Step(Kind),
    /// The last step of an allocate or a free, and its entry.
    Ended { kind: Kind, entry: Entry },
    /// The step of a read, and the word that it loaded.
    Loaded(u64),
    /// The step of a write.
    Stored,
    /// Nothing.
    Ignored,
}
