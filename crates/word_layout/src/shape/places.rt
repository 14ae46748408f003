// The places of the words. Every call here is `place` at one name.
ghost use Rattle.std.specs.Prelude.{◌≡◌, ◌+◌, ◌*◌, ◌<◌, ◌≤◌, ◌^◌};
ghost use Rattle.word_layout.specs.Sizes.{blocks, most_blocks};
ghost use Rattle.word_layout.specs.Names.{place, InRange, table_words, records, record_words, slots_start, nexts_start, data_start};

use crate::name::WordName;
use crate::shape::Shape;

impl Shape {
    /// How many words the table has, fewer than 2^26.
    #[tactic(auto, unfolding(crate::specs::Names::table_words))]
    pub fn table_words(&self) -> u32
        ensures words { result ≡ table_words self.now }
        ensures small { result < 2 ^ 26 }
    {
        self.data_start() + self.blocks() * self.words
    }

    /// The place of the word with this name.
    #[inline(always)]
    pub fn place(&self, name: WordName) -> u32
        requires { InRange self.now name }
        ensures place { result ≡ place self.now name }
        ensures within { result < table_words self.now }
    {
        match name {
            WordName::State => self.state_place(),
            WordName::Announcement { process } => self.announce_place(process),
            WordName::RecordWord { row, index } => self.record_place(row, index),
            WordName::Slot { slot } => self.slot_place(slot),
            WordName::Next { block } => self.next_place(block),
            WordName::Data { block, index } => self.data_place(block, index),
        }
    }

    /// The place of the state.
    #[tactic(auto, unfolding(crate::specs::Names::place))]
    #[inline(always)]
    pub fn state_place(&self) -> u32
        ensures place { result ≡ place self.now WordName.State }
        ensures within { result < table_words self.now }
    {
        0
    }

    /// The place of the announcement of a process.
    #[tactic(auto, unfolding(crate::specs::Names::place))]
    #[inline(always)]
    pub fn announce_place(&self, process: u32) -> u32
        requires { process < self.now.processes }
        ensures place { result ≡ place self.now (WordName.Announcement process) }
        ensures within { result < table_words self.now }
    {
        let _ = &self.processes;
        1 + process
    }

    /// The place of word `index` of record `row`.
    #[tactic(auto, unfolding(crate::specs::Names::place))]
    #[inline(always)]
    pub fn record_place(&self, row: u32, index: u32) -> u32
        requires row { row < records self.now }
        requires index { index < record_words self.now }
        ensures place { result ≡ place self.now (WordName.RecordWord row index) }
        ensures within { result < table_words self.now }
    {
        1 + self.processes + (row * self.record_words() + index)
    }

    /// The place of a slot.
    #[tactic(auto, unfolding(crate::specs::Names::place))]
    #[inline(always)]
    pub fn slot_place(&self, slot: u32) -> u32
        requires { slot < self.now.batches }
        ensures place { result ≡ place self.now (WordName.Slot slot) }
        ensures within { result < table_words self.now }
    {
        self.slots_start() + slot
    }

    /// The place of the next word of a block.
    #[tactic(auto, unfolding(crate::specs::Names::place))]
    #[inline(always)]
    pub fn next_place(&self, block: u32) -> u32
        requires { block < blocks self.now }
        ensures place { result ≡ place self.now (WordName.Next block) }
        ensures within { result < table_words self.now }
    {
        self.nexts_start() + block
    }

    /// The place of data word `index` of a block.
    #[tactic(auto, unfolding(crate::specs::Names::place))]
    #[inline(always)]
    pub fn data_place(&self, block: u32, index: u32) -> u32
        requires block { block < blocks self.now }
        requires index { index < self.now.words }
        ensures place { result ≡ place self.now (WordName.Data block index) }
        ensures within { result < table_words self.now }
    {
        self.data_start() + (block * self.words + index)
    }

    /// How many words a record has: the base, the overlay's length, the overlay, and a reply a process.
    #[inline]
    pub fn record_words(&self) -> u32
        ensures words { result ≡ record_words self.now }
        ensures small { result ≤ 66 }
    {
        2 * self.processes + 2
    }

    /// Where the slots begin.
    #[inline]
    fn slots_start(&self) -> u32
        ensures start { result ≡ slots_start self.now }
        ensures small { result < 2 ^ 13 }
        ensures few_batches { self.now.batches ≤ 2 ^ 21 }
    {
        self.first_slot
    }

    /// Where the next words begin.
    #[inline]
    fn nexts_start(&self) -> u32
        ensures start { result ≡ nexts_start self.now }
        ensures small { result < 2 ^ 22 }
        ensures few_blocks { blocks self.now ≤ most_blocks }
    {
        self.first_next
    }

    /// Where the data words begin.
    #[inline]
    fn data_start(&self) -> u32
        ensures start { result ≡ data_start self.now }
        ensures small { result < 2 ^ 23 }
    {
        self.first_data
    }
}
