/// One call of `allocate` or `free`, as a history records it: who called, and how it was answered.
#[derive(Clone, Copy, Debug, PartialEq, Eq, Hash)]
pub enum Entry {
    /// Process `by` allocated, and was given `block`.
    Got { by: u32, block: u32 },
    /// Process `by` freed `block`.
    Back { by: u32, block: u32 },
    /// Process `by` allocated, and was refused.
    Dry { by: u32 },
}
