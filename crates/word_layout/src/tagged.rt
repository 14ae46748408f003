// Words with a tag.
ghost use Rattle.std.specs.Prelude.{◌≡◌, ◌<◌};
ghost use Rattle.word_layout.specs.Packing.{value_limit, tag_limit, tagged, tag_of, value_of};

/// A word with a tag and a value: the state, the words of records and the slots are such words.
#[derive(Clone, Copy, Debug, PartialEq, Eq, Hash)]
pub struct Tagged;

impl Tagged {
    /// A value is below this: the tag stands above it.
    pub const VALUE_LIMIT: u32 = 1 << 24;

    /// A tag is below this.
    pub const TAG_LIMIT: u64 = 1 << 40;

    /// The word with this tag, below 2^40, and this value, below 2^24.
    #[tactic(auto, unfolding(crate::specs::Packing::tagged))]
    pub fn pack(tag: u64, value: u32) -> u64
        requires tag { tag < tag_limit }
        requires value { value < value_limit }
        ensures { result ≡ tagged tag value }
    {
        tag * u64::from(Tagged::VALUE_LIMIT) + u64::from(value)
    }

    /// The tag of a word.
    #[tactic(auto, unfolding(crate::specs::Packing::tag_of))]
    pub fn tag(word: u64) -> u64
        ensures tag { result ≡ tag_of word }
        ensures small { result < tag_limit }
    {
        word / u64::from(Tagged::VALUE_LIMIT)
    }

    /// The value of a word.
    #[tactic(auto, unfolding(crate::specs::Packing::value_of))]
    pub fn value(word: u64) -> u32
        ensures value { result ≡ value_of word }
        ensures small { result < value_limit }
    {
        (word % u64::from(Tagged::VALUE_LIMIT)) as u32
    }
}
