// The content of the shared stack, read off the words.
ghost use Rattle.std.specs.Prelude.{◌≡◌, ◌<◌, ◌≤◌, ◌^◌, length, IfOk};
ghost use Rattle.word_layout.specs.Names.{InRange, table_words, word_at};
ghost use Rattle.word_layout.specs.Packing.{value_limit, value_of};
ghost use Rattle.transfer_machine.specs.Words.{current_record, stack, stack_at, stack_base, stack_height, first_of};
ghost use Rattle.interleaving_core.specs.Content.{SaysContent};

use pool_model::NoMemory;
use std::alloc::Global;
use word_layout::{Shape, Tagged, WordName};

/// The heads of the batches in the shared stack, from the bottom: the slots below the base, then the overlay of
/// the current record. The only error is want of memory.
pub fn stack_of(alloc: Global, words: &[u64], shape: &Shape) -> Result<Vec<u32>, NoMemory>
    requires { SaysContent shape.now words.now }
    ensures { IfOk result (λ heads. heads.items ≡ stack shape.now words.now) }
{
    let height = height_of(words, shape);
    let mut heads = Vec::with_capacity(alloc, height as usize)?;
    for place in 0..height {
        heads.push(head_at(words, shape, place))?;
    }
    Ok(heads)
}

/// How many batches the stack has.
fn height_of(words: &[u64], shape: &Shape) -> u32
    requires { SaysContent shape.now words.now }
    ensures { result ≡ stack_height shape.now words.now }
{
    let row = row_of(words, shape);
    value_at(words, shape, WordName::RecordWord { row, index: 0 })
        + value_at(words, shape, WordName::RecordWord { row, index: 1 })
}

/// The head of the batch at a place of the stack.
fn head_at(words: &[u64], shape: &Shape, place: u32) -> u32
    requires says { SaysContent shape.now words.now }
    requires low { place < stack_height shape.now words.now }
    ensures { result ≡ stack_at shape.now words.now place }
{
    prove!(shape.processes() <= 32);
    let row = row_of(words, shape);
    let base = value_at(words, shape, WordName::RecordWord { row, index: 0 });
    if place < base {
        value_at(words, shape, WordName::Slot { slot: place })
    } else {
        value_at(
            words,
            shape,
            WordName::RecordWord {
                row,
                index: 2 + (place - base),
            },
        )
    }
}

/// The current record.
pub fn row_of(words: &[u64], shape: &Shape) -> u32
    requires { length words.now ≡ table_words shape.now }
    ensures { result ≡ current_record shape.now words.now }
{
    value_at(words, shape, WordName::State)
}

/// The word with that name.
#[tactic(auto, unfolding(word_layout::specs::Names::word_at))]
pub fn whole_at(words: &[u64], shape: &Shape, name: WordName) -> u64
    requires whole { length words.now ≡ table_words shape.now }
    requires within { InRange shape.now name }
    ensures { result ≡ word_at shape.now words.now name }
{
    words[shape.place(name) as usize]
}

/// The value of the word with that name.
#[tactic(auto, unfolding(word_layout::specs::Names::word_at))]
pub fn value_at(words: &[u64], shape: &Shape, name: WordName) -> u32
    requires whole { length words.now ≡ table_words shape.now }
    requires within { InRange shape.now name }
    ensures value { result ≡ value_of (word_at shape.now words.now name) }
    ensures small { result < value_limit }
{
    Tagged::value(words[shape.place(name) as usize])
}
