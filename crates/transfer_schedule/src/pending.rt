/// What a process has pending on the shared stack: at most one transfer of a whole batch.
#[derive(Clone, Copy, Debug, PartialEq, Eq, Hash)]
pub enum Pending {
    /// Nothing is pending.
    Idle,
    /// A take: one batch comes from the stack.
    Taking,
    /// A give: one batch goes to the stack. It has left the spares already.
    Giving,
}
