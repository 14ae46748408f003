// What one line of a trace means, read in place.
ghost use Rattle.std.specs.Prelude.{◌≡◌, reverse, if◌then◌else◌, None};
ghost use Rattle.line_text.specs.Words.{words};
ghost use Rattle.mtrace_reader.specs.Words.{none_or_begins_with};
ghost use Rattle.mtrace_reader.specs.Value.{address_of, size_of};
ghost use Rattle.mtrace_reader.specs.Line.{at_sign, said_by_sign, said_by_release, said_before, said_by, meaning_of};

use crate::Operation;
use crate::value::{address, size};
use line_text::{Meaning, split_first_word, split_last_word};

/// The byte that begins a line which is skipped.
const EQUALS_SIGN: u8 = b'=';

/// The byte that begins the text of a caller, before the sign of an operation.
const AT_SIGN: u8 = b'@';

/// Whether a line has no word, or its first one begins with this byte.
fn is_empty_or_begins_with(line: &[u8], byte: u8) -> bool
    ensures { result ≡ none_or_begins_with byte (words line.now) }
{
    match split_first_word(line) {
        None => true,
        Some((word, _)) => word.first() == Some(&byte),
    }
}

/// The operation of a sign, an address and a size.
fn operation_with_size(sign: &[u8], address_word: &[u8], size_word: &[u8]) -> Option<Operation>
    ensures { result ≡ said_by_sign sign.now (address_of address_word.now) (size_of size_word.now) }
{
    let address = address(address_word)?;
    let size = size(size_word)?;
    if sign == b"+".as_slice() || sign == b">".as_slice() {
        Some(Operation::New { address, size })
    } else if sign == b"!".as_slice() {
        Some(Operation::Failed)
    } else {
        None
    }
}

/// The operation of a line whose last two words are an address and a size.
fn operation_before(line: &[u8], address_word: &[u8], size_word: &[u8]) -> Option<Operation>
    ensures { result ≡ said_before (reverse (words line.now)) address_word.now size_word.now }
{
    let (caller, sign) = split_last_word(line)?;
    if !is_empty_or_begins_with(caller, AT_SIGN) {
        return None;
    }
    operation_with_size(sign, address_word, size_word)
}

/// The operation of a line that a release's sign and this word end.
fn release(caller: &[u8], address_word: &[u8]) -> Option<Operation>
    ensures { result ≡ said_by_release (reverse (words caller.now)) address_word.now }
{
    if !is_empty_or_begins_with(caller, AT_SIGN) {
        return None;
    }
    let address = address(address_word)?;
    Some(Operation::Release { address })
}

/// The operation of a line that isn't skipped.
fn operation(line: &[u8]) -> Option<Operation>
    ensures { result ≡ said_by (reverse (words line.now)) }
{
    let (line, last) = split_last_word(line)?;
    let (line, second) = split_last_word(line)?;
    if second == b"-".as_slice() || second == b"<".as_slice() {
        release(line, last)
    } else {
        operation_before(line, second, last)
    }
}

/// What a line means, which stands here without the byte 10 that ends it.
pub(crate) fn read_line(line: &[u8]) -> Meaning<Operation>
    ensures { result ≡ meaning_of line.now }
{
    if is_empty_or_begins_with(line, EQUALS_SIGN) {
        return Meaning::Skipped;
    }
    match operation(line) {
        None => Meaning::Bad,
        Some(operation) => Meaning::Says(operation),
    }
}
