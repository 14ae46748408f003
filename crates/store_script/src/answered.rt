// What a store answers to a command.

use crate::Quad;

/// What a store answers to a command.
#[derive(Clone, Copy, Debug, PartialEq, Eq, Hash)]
pub enum Answered {
    /// It is done.
    Done,
    /// There is no block for the numbers; nothing changed.
    Full,
    /// The key has no numbers; nothing changed.
    Absent,
    /// The key has numbers already; nothing changed.
    There,
    /// The numbers of the key.
    Value { key: u64, value: Quad },
}
