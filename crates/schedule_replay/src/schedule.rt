// What a schedule says: its shape and its events.

use interleaving_core::Event;
use line_text::Listed;

/// An event that a line repeats.
#[derive(Clone, Copy, Debug, PartialEq, Eq, Hash)]
pub struct Repeat {
    /// The line, counted from 1.
    pub line: u64,
    /// How many times the event is made, 1 to 65536.
    pub count: u32,
    pub event: Event,
}

/// Events in the order of their lines. Contracts see the list.
pub type RepeatList = Listed<Repeat>;

/// What a schedule says as a whole.
#[derive(Debug, Drop)]
pub struct Schedule {
    /// The processes, the batches, the data words of a block and the quantum, which need not be those of a pool.
    pub shape: [u32; 4],
    pub lines: RepeatList,
    /// How many bytes were read.
    pub bytes: u64,
}
