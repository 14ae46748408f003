// Calls of a pool, as its plan sees them.
use crate::own_step::{Source, Target};

/// What a call is for.
#[derive(Clone, Copy, Debug, PartialEq, Eq, Hash)]
pub enum OwnStep {
    /// `allocate`, which takes a block.
    Allocate,
    /// `free`, which gives one back.
    Free,
}

/// One call of a pool, as its plan sees it.
#[derive(Clone, Copy, Debug, PartialEq, Eq, Hash)]
pub struct PlannedCall {
    /// How many steps of the pending transfer the call makes.
    pub steps: u32,
    /// Whether the transfer moved a batch, where it ends in this call.
    pub end: Option<bool>,
    /// What the call does last.
    pub own: OwnStep,
}

/// What the own step of a call met.
#[derive(Clone, Copy, Debug, PartialEq, Eq, Hash)]
pub enum PlannedAnswer {
    /// An `allocate`, and where its block came from.
    Took(Source),
    /// A `free`, and where its block went.
    Gave(Target),
}
