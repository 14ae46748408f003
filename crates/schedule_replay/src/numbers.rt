// The numbers of a line.
ghost use Rattle.std.specs.Prelude.{◌≡◌, option_map};
ghost use Rattle.line_text.specs.Words.{words};
ghost use Rattle.schedule_replay.specs.Numbers.{few, number_of, numbers_of};

use arrayvec::ArrayVec;
use line_text::{number, split_first_word};

/// The most digits of a number.
const MOST_DIGITS: usize = 20;

/// The most numbers behind the first words of a line.
pub(crate) const MOST_NUMBERS: usize = 4;

/// The number that a word spells.
pub(crate) fn word_number(word: &[u8]) -> Option<u64>
    ensures { result ≡ number_of word.now }
{
    number(word, 10, MOST_DIGITS)
}

/// The numbers that a line's words spell, at most four. `None` where a word spells none, or there are more.
pub(crate) fn numbers(line: &[u8]) -> Option<ArrayVec<u64, MOST_NUMBERS>>
    ensures { option_map (λ numbers. numbers.items) result ≡ few (numbers_of (words line.now)) }
{
    let mut numbers = ArrayVec::new();
    let mut rest = line;
    while let Some((word, after)) = split_first_word(rest) {
        let number = word_number(word)?;
        if numbers.is_full() {
            return None;
        }
        numbers.push(number);
        rest = after;
    }
    Some(numbers)
}
