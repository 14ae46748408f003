/// The name of one word of a table.
#[derive(Clone, Copy, Debug, PartialEq, Eq, Hash)]
pub enum WordName {
    /// The state: which record is the current one.
    State,
    /// The announcement of a process.
    Announcement { process: u32 },
    /// Word `index` of record `row`.
    RecordWord { row: u32, index: u32 },
    /// A slot of the shared stack.
    Slot { slot: u32 },
    /// The next word of a block.
    Next { block: u32 },
    /// Data word `index` of a block.
    Data { block: u32, index: u32 },
}
