// The numbers that words spell: addresses and sizes.
ghost use Rattle.std.specs.Prelude.{◌≡◌};
ghost use Rattle.mtrace_reader.specs.Value.{address_of, size_of, hexadecimal_of};

use line_text::number;

/// The most digits of a number in base 16.
const MOST_DIGITS: usize = 16;

/// The number of a word of the form `0x` and 1 to 16 digits.
fn hexadecimal(word: &[u8]) -> Option<u64>
    ensures { result ≡ hexadecimal_of word.now }
{
    number(word.strip_prefix(b"0x")?, 16, MOST_DIGITS)
}

/// The address that a word spells.
pub(crate) fn address(word: &[u8]) -> Option<u64>
    ensures { result ≡ address_of word.now }
{
    if word == b"(nil)".as_slice() {
        Some(0)
    } else {
        hexadecimal(word)
    }
}

/// The size that a word spells.
pub(crate) fn size(word: &[u8]) -> Option<u64>
    ensures { result ≡ size_of word.now }
{
    if word == b"0".as_slice() {
        Some(0)
    } else {
        hexadecimal(word)
    }
}
