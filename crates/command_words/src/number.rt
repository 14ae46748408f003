// A number of the command line.
ghost use Rattle.std.specs.Prelude.{◌≡◌};
ghost use Rattle.command_words.specs.Number.{is_decimal, number_of};

/// Reads a text of decimal digits alone as a number below 2^64. None where the text is no such number, as
/// the empty text, `+10` and 18446744073709551616.
pub(crate) fn read_number(text: &str) -> Option<u64>
    ensures { result ≡ number_of 64 text.now }
{
    if !has_digits_alone(text) {
        return None;
    }
    text.parse().ok()
}

fn has_digits_alone(text: &str) -> bool
    ensures { result ≡ is_decimal text.now }
{
    text.bytes().all(|byte| byte.is_ascii_digit())
}
