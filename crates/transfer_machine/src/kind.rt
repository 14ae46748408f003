/// The kinds of step. Each is on one word.
#[derive(Clone, Copy, Debug, PartialEq, Eq, Hash)]
pub enum Kind {
    /// Announce: store the own announcement.
    K1,
    /// Load the state at the beginning of a try.
    K2,
    /// Load a word of the loaded state's record.
    K3,
    /// Load a covered slot.
    K4,
    /// Exchange a covered slot for what the overlay has there.
    K5,
    /// Load an announcement.
    K6,
    /// Load the slot of a batch that a pending take gets.
    K7,
    /// Store a word of the own next record.
    K8,
    /// Exchange the state.
    K9,
    /// Load the state at the end of a transfer.
    K10,
    /// Load the own reply.
    K11,
    /// Load the next word of the block that `allocate` answers.
    K12,
    /// Store the next word of the block that `free` puts before the current list.
    K13,
    /// Load the state where `allocate` is refused.
    K14,
    /// Load a data word of a held block.
    K15,
    /// Store a data word of a held block.
    K16,
    /// Make a seat.
    K17,
    /// Join a seat to another.
    K18,
    /// The load after a join.
    K19,
}
