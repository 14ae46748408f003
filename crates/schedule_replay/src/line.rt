// What one line of a schedule means, read in place.
ghost use Rattle.std.specs.Prelude.{◌≡◌};
ghost use Rattle.line_text.specs.Words.{words};
ghost use Rattle.schedule_replay.specs.Line.{call_of, call_of_none, call_of_one, call_of_two, call_of_three, meaning_of, repeat_of};
ghost use Rattle.schedule_replay.specs.Line.{said_of, said_repeat, said_shape, shape_of};

use crate::numbers::{numbers, word_number};
use interleaving_core::{Call, Event};
use line_text::{Meaning, split_first_word};

/// What a line of a schedule says.
#[derive(Clone, Copy, Debug, PartialEq, Eq, Hash)]
pub enum Said {
    /// These are the processes, the batches, the data words of a block and the quantum.
    Shape([u32; 4]),
    /// This event is made so many times.
    Repeats { count: u32, event: Event },
}

/// The first number that isn't one of a process, a block, an index or a shape.
const NUMBER_END: u64 = 1 << 32;

/// How often a line repeats its event at most.
const MOST_COUNT: u64 = 1 << 16;

/// The call of a name alone.
fn call_alone(name: &[u8]) -> Option<Call>
    ensures { result ≡ call_of_none name.now }
{
    if name == b"allocate".as_slice() {
        Some(Call::Allocate)
    } else if name == b"search".as_slice() {
        Some(Call::Search)
    } else {
        None
    }
}

/// The call of a name and a block.
fn call_of_block(name: &[u8], block: u64) -> Option<Call>
    ensures { result ≡ call_of_one name.now block }
{
    if name == b"free".as_slice() && block < NUMBER_END {
        let block = block as u32;
        Some(Call::Free { block })
    } else {
        None
    }
}

/// The call of a name, a block and an index.
fn call_at_index(name: &[u8], block: u64, index: u64) -> Option<Call>
    ensures { result ≡ call_of_two name.now block index }
{
    if name == b"read".as_slice() && block < NUMBER_END && index < NUMBER_END {
        let (block, index) = (block as u32, index as u32);
        Some(Call::Read { block, index })
    } else {
        None
    }
}

/// The call of a name, a block, an index and a value.
fn call_with_value(name: &[u8], block: u64, index: u64, value: u64) -> Option<Call>
    ensures { result ≡ call_of_three name.now block index value }
{
    if name == b"write".as_slice() && block < NUMBER_END && index < NUMBER_END {
        let (block, index) = (block as u32, index as u32);
        Some(Call::Write {
            block,
            index,
            value,
        })
    } else {
        None
    }
}

/// The call of a name and numbers.
fn call_of(name: &[u8], numbers: &[u64]) -> Option<Call>
    ensures { result ≡ call_of name.now numbers.now }
{
    match numbers {
        [] => call_alone(name),
        [block] => call_of_block(name, *block),
        [block, index] => call_at_index(name, *block, *index),
        [block, index, value] => call_with_value(name, *block, *index, *value),
        _ => None,
    }
}

/// The shape of four numbers.
fn shape_of(numbers: &[u64]) -> Option<Said>
    ensures { result ≡ shape_of numbers.now }
{
    match numbers {
        [processes, batches, words, quantum]
            if *processes < NUMBER_END
                && *batches < NUMBER_END
                && *words < NUMBER_END
                && *quantum < NUMBER_END => {
            let (processes, batches) = (*processes as u32, *batches as u32);
            let (words, quantum) = (*words as u32, *quantum as u32);
            Some(Said::Shape([processes, batches, words, quantum]))
        }
        _ => None,
    }
}

/// A call of a process that is repeated so many times.
fn repeat_of(count: u64, by: u64, call: Call) -> Option<Said>
    ensures { result ≡ repeat_of count by call }
{
    if 0 < count && count <= MOST_COUNT && by < NUMBER_END {
        let (count, by) = (count as u32, by as u32);
        let event = Event { by, call };
        Some(Said::Repeats { count, event })
    } else {
        None
    }
}

/// What a line says whose first word is a count, by that and the line behind it.
fn read_repeat(count: &[u8], rest: &[u8]) -> Option<Said>
    ensures { result ≡ said_repeat count.now (words rest.now) }
{
    let count = word_number(count)?;
    let (by, rest) = split_first_word(rest)?;
    let by = word_number(by)?;
    let (name, rest) = split_first_word(rest)?;
    let numbers = numbers(rest)?;
    let call = call_of(name, numbers.as_slice())?;
    repeat_of(count, by, call)
}

/// What a line says by its first word and the line behind it.
fn read_said(first: &[u8], rest: &[u8]) -> Option<Said>
    ensures { result ≡ said_of first.now (words rest.now) }
{
    if first == b"shape".as_slice() {
        let numbers = numbers(rest)?;
        shape_of(numbers.as_slice())
    } else {
        read_repeat(first, rest)
    }
}

/// What a line means, which stands here without the byte 10 that ends it.
pub(crate) fn read_line(line: &[u8]) -> Meaning<Said>
    ensures { result ≡ meaning_of line.now }
{
    let Some((first, rest)) = split_first_word(line) else {
        return Meaning::Skipped;
    };
    match read_said(first, rest) {
        None => Meaning::Bad,
        Some(said) => Meaning::Says(said),
    }
}
