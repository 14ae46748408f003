// What a store script says: its commands, each with the slot of its key.

use crate::Quad;
use line_text::Listed;

/// What a player does to the key of a slot. A slot is a place for one record, numbered from 0 in the order in which the
/// keys first occur.
#[derive(Clone, Copy, Debug, PartialEq, Eq, Hash)]
pub enum Command {
    /// Keep these numbers for a key that has none.
    Put {
        key: u64,
        slot: u32,
        value: Quad,
    },
    /// Tell the numbers of a key.
    Get {
        key: u64,
        slot: u32,
    },
    /// Change the number at this index, 0 to 3, of a key.
    Set {
        key: u64,
        slot: u32,
        index: u32,
        value: u64,
    },
    /// Forget a key and its numbers.
    Del {
        key: u64,
        slot: u32,
    },
}

/// Commands in the order of their lines. Contracts see the list.
pub type CommandList = Listed<Command>;

/// What a store script says as a whole.
#[derive(Debug, Drop)]
pub struct StoreScript {
    pub commands: CommandList,
    /// How many keys the commands name.
    pub slots: u32,
    /// How many bytes were read.
    pub bytes: u64,
}
