// What a trace file says.

use line_text::Listed;

/// What one line of a trace says.
#[derive(Clone, Copy, Debug, PartialEq, Eq, Hash)]
pub enum Operation {
    /// A block of `size` bytes was allocated at `address`, by an allocation or a resize.
    New { address: u64, size: u64 },
    /// The block at `address` was given up, by a free or a resize.
    Release { address: u64 },
    /// A resize failed.
    Failed,
}

/// Operations in the order of their lines. Contracts see the list.
pub type OperationList = Listed<Operation>;

/// What a trace file says as a whole.
#[derive(Debug, Drop)]
pub struct Trace {
    pub operations: OperationList,
    /// Whether the file ended within a line that says nothing by itself.
    pub cut: bool,
    /// How many bytes were read.
    pub bytes: u64,
}
