// What a player does with a trace.

use line_text::Listed;

/// One step of a script. A slot is a place for one block, numbered from 0.
#[derive(Clone, Copy, Debug, PartialEq, Eq, Hash)]
pub enum Step {
    /// Allocate a block for the slot.
    Place { slot: u32 },
    /// Free the block of the slot.
    Leave { slot: u32 },
}

/// Steps in their order. Contracts see the list.
pub type StepList = Listed<Step>;

/// What a player does with a trace, and what the trace says besides.
#[derive(Debug, Drop)]
pub struct Script {
    pub steps: StepList,
    /// How many slots the script places.
    pub news: u32,
    /// How many allocations were larger than a block.
    pub big: u64,
    /// How many allocations and resizes failed.
    pub failed: u64,
    /// How many releases named no live address.
    pub stray: u64,
    /// How many allocations named a live address.
    pub twice: u64,
    /// 1 where the trace was cut, else 0.
    pub cut: u64,
}
