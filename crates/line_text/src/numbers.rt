// The numbers that words write.
ghost use Rattle.std.specs.Prelude.{◌≡◌, ◌+◌, ◌*◌, ◌^◌, ◌<◌, ◌≤◌};
ghost use Rattle.std.specs.Option.{SomeIff};
ghost use Rattle.line_text.specs.Number.{number_of_digits, number_of_word};

/// The number with one digit more. `None` where that isn't below 2^64.
fn with_digit(number: u64, base: u32, digit: u32) -> Option<u64>
    ensures { SomeIff result (number * base + digit < 2 ^ 64) (number * base + digit) }
{
    number
        .checked_mul(u64::from(base))?
        .checked_add(u64::from(digit))
}

/// The number that digits of a base write. `None` where a byte isn't a digit, or the number isn't below 2^64.
fn number_of_digits(digits: &[u8], base: u32) -> Option<u64>
    requires two { 2 ≤ base }
    requires letters { base ≤ 36 }
    ensures { result ≡ number_of_digits base digits.now }
{
    let mut number = 0;
    for digit in digits {
        let value = char::from(*digit).to_digit(base)?;
        number = with_digit(number, base, value)?;
    }
    Some(number)
}

/// The number below 2^64 that a word of 1 to `most` digits of a base writes, letters of either case. `None` where the word
/// writes none.
pub fn number(word: &[u8], base: u32, most: usize) -> Option<u64>
    requires two { 2 ≤ base }
    requires letters { base ≤ 36 }
    ensures { result ≡ number_of_word base most word.now }
{
    if word.is_empty() || word.len() > most {
        return None;
    }
    number_of_digits(word, base)
}
