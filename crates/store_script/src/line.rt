// What one line of a store script means, read in place.
ghost use Rattle.std.specs.Prelude.{◌≡◌, option_map};
ghost use Rattle.line_text.specs.Words.{words};
ghost use Rattle.store_script.specs.Line.{numbers_of, said, said_of, said_of_one, said_of_three, said_of_five, meaning_of};
ghost use Rattle.store_script.specs.Numbers.{few};

use crate::{Command, Quad};
use arrayvec::ArrayVec;
use line_text::{Meaning, number, split_first_word};

/// What a line of a script asks for.
#[derive(Clone, Copy, Debug, PartialEq, Eq, Hash)]
pub enum Request {
    /// Keep these numbers for a key that has none.
    Put { key: u64, value: Quad },
    /// Tell the numbers of a key.
    Get { key: u64 },
    /// Change the number at this index, 0 to 3, of a key.
    Set { key: u64, index: u32, value: u64 },
    /// Forget a key and its numbers.
    Del { key: u64 },
}

impl Request {
    ghost use Rattle.store_script.specs.Script.{command_of, key_asked};

    /// The key that the request names.
    pub(crate) fn key(self) -> u64
        ensures { result ≡ key_asked self }
    {
        match self {
            Request::Put { key, .. }
            | Request::Get { key }
            | Request::Set { key, .. }
            | Request::Del { key } => key,
        }
    }

    /// The command of the request, where its key has this slot.
    pub(crate) fn with_slot(self, slot: u32) -> Command
        ensures { result ≡ command_of self slot }
    {
        match self {
            Request::Put { key, value } => Command::Put { key, slot, value },
            Request::Get { key } => Command::Get { key, slot },
            Request::Set { key, index, value } => Command::Set {
                key,
                slot,
                index,
                value,
            },
            Request::Del { key } => Command::Del { key, slot },
        }
    }
}

/// The most digits of a number.
const MOST_DIGITS: usize = 20;

/// The most numbers of a line.
const MOST_NUMBERS: usize = 5;

/// The first index that isn't one of a number of a value.
const INDEX_END: u64 = 4;

/// The numbers that a line's words spell, at most five. `None` where a word spells none, or there are more.
fn numbers(line: &[u8]) -> Option<ArrayVec<u64, MOST_NUMBERS>>
    ensures { option_map (λ numbers. numbers.items) result ≡ few (numbers_of (words line.now)) }
{
    let mut numbers = ArrayVec::new();
    let mut rest = line;
    while let Some((word, after)) = split_first_word(rest) {
        let number = number(word, 10, MOST_DIGITS)?;
        if numbers.is_full() {
            return None;
        }
        numbers.push(number);
        rest = after;
    }
    Some(numbers)
}

/// The request of a name and a key.
fn request_of_key(name: &[u8], key: u64) -> Option<Request>
    ensures { result ≡ said_of_one name.now key }
{
    if name == b"get".as_slice() {
        Some(Request::Get { key })
    } else if name == b"del".as_slice() {
        Some(Request::Del { key })
    } else {
        None
    }
}

/// The request of a name, a key, an index and a number.
fn request_at_index(name: &[u8], key: u64, index: u64, value: u64) -> Option<Request>
    ensures { result ≡ said_of_three name.now key index value }
{
    if name == b"set".as_slice() && index < INDEX_END {
        let index = index as u32;
        Some(Request::Set { key, index, value })
    } else {
        None
    }
}

/// The request of a name, a key and four numbers.
fn request_of_value(name: &[u8], key: u64, value: Quad) -> Option<Request>
    ensures { result ≡ said_of_five name.now key value }
{
    if name == b"put".as_slice() {
        Some(Request::Put { key, value })
    } else {
        None
    }
}

/// The request of a name and numbers.
fn request_with(name: &[u8], numbers: &[u64]) -> Option<Request>
    ensures { result ≡ said_of name.now numbers.now }
{
    match numbers {
        [key] => request_of_key(name, *key),
        [key, index, value] => request_at_index(name, *key, *index, *value),
        [key, a, b, c, d] => {
            let (a, b, c, d) = (*a, *b, *c, *d);
            request_of_value(name, *key, Quad { a, b, c, d })
        }
        _ => None,
    }
}

/// The request of a name and the line behind it.
fn read_request(name: &[u8], rest: &[u8]) -> Option<Request>
    ensures { result ≡ said name.now (numbers_of (words rest.now)) }
{
    let numbers = numbers(rest)?;
    request_with(name, numbers.as_slice())
}

/// What a line means, which stands here without the byte 10 that ends it.
pub(crate) fn read_line(line: &[u8]) -> Meaning<Request>
    ensures { result ≡ meaning_of line.now }
{
    let Some((name, rest)) = split_first_word(line) else {
        return Meaning::Skipped;
    };
    match read_request(name, rest) {
        None => Meaning::Bad,
        Some(request) => Meaning::Says(request),
    }
}
