// Values that are kept in data words.
ghost use Rattle.std.specs.Prelude.{◌≡◌, ◌≤◌, ℕ, List, length, slice_index};

/// A value that is kept in the data words of one block.
pub trait Record: Sized {
    /// How many words a value takes, at most 8.
    const WORDS: u32;

    ghost WORDS: { ℕ };

    /// The words of a value: 8, of which those from `WORDS` on are 0.
    ghost words_of: { Self → List ℕ };

    /// The value that words say.
    ghost value_of: { List ℕ → Self };

    /// The words of the value.
    fn to_words(&self) -> [u64; 8]
        ensures { result ≡ words_of self.now };

    /// The value of these words.
    fn from_words(words: &[u64; 8]) -> Self
        ensures { result ≡ value_of words.now };

    ghost few: { WORDS ≤ 8 };

    ghost eight: { (it : Self) → length (words_of it) ≡ 8 };

    ghost rest_is_zero: { (it : Self) (place : ℕ) → WORDS ≤ place → slice_index (words_of it) place ≡ 0 };

    ghost reads_back: { (it : Self) → value_of (words_of it) ≡ it };
}
