// The words of the opening.
ghost use Rattle.std.specs.Prelude.{◌≡◌, ◌*◌, ◌<◌, IfOk, length, replicate};
ghost use Rattle.word_layout.specs.Sizes.{blocks};
ghost use Rattle.word_layout.specs.Names.{InRange, table_words, set_word, record_words};
ghost use Rattle.transfer_machine.specs.Opening.{AreOpening, opening_word};
ghost use Rattle.transfer_machine.specs.Filling.{Fills, opening_record_below, slot_below, next_below};

use pool_model::NoMemory;
use std::alloc::Global;
use word_layout::{Shape, Tagged, WordName};

/// The words of a table at the opening: each process has a current list and a spare, and the stack has the
/// other batches. The only error is want of memory.
pub fn opening_words(alloc: Global, shape: &Shape) -> Result<Vec<u64>, NoMemory>
    ensures { IfOk result (λ words. AreOpening shape.now words.items) }
{
    let mut words = vec![in alloc; 0; shape.table_words() as usize]?;
    open(&mut words, shape);
    Ok(words)
}

/// Sets the words that aren't 0 at the opening.
fn open(words: &mut [u64], shape: &Shape)
    requires { words.old ≡ replicate (table_words shape.now) 0 }
    ensures { AreOpening shape.now words.new }
{
    set(words, shape, WordName::State);
    open_record(words, shape);
    open_slots(words, shape);
    open_chains(words, shape);
}

/// Sets a word to that of the opening.
#[tactic(auto, unfolding(word_layout::specs::Names::set_word))]
fn set(words: &mut [u64], shape: &Shape, name: WordName)
    requires whole { length words.old ≡ table_words shape.now }
    requires within { InRange shape.now name }
    ensures { words.new ≡ set_word shape.now words.old name (opening_word shape.now name) }
{
    let place = shape.place(name) as usize;
    words[place] = word_of(shape, name);
}

/// The word of that name at the opening.
#[tactic(auto, unfolding(word_layout::specs::Sizes::blocks))]
fn word_of(shape: &Shape, name: WordName) -> u64
    requires { InRange shape.now name }
    ensures { result ≡ opening_word shape.now name }
{
    let current = 2 * shape.processes();
    let base = shape.batches() - current;
    match name {
        WordName::State => Tagged::pack(1, current),
        WordName::RecordWord { row, index } => {
            if row != current {
                0
            } else if index == 0 {
                Tagged::pack(1, base)
            } else {
                Tagged::pack(1, 0)
            }
        }
        WordName::Slot { slot } => {
            if slot < base {
                head_of(shape, current + slot)
            } else {
                0
            }
        }
        WordName::Next { block } => {
            if block % shape.length() == shape.length() - 1 {
                0
            } else {
                u64::from(block) + 2
            }
        }
        WordName::Announcement { .. } | WordName::Data { .. } => 0,
    }
}

/// The head of a batch.
#[tactic(auto, unfolding(word_layout::specs::Sizes::blocks), using(crate::proofs::Filled::head_within))]
fn head_of(shape: &Shape, batch: u32) -> u64
    requires { batch < shape.now.batches }
    ensures { result ≡ batch * shape.now.length }
{
    let blocks = shape.blocks();
    prove!(blocks <= Shape::MOST_BLOCKS);
    u64::from(batch * shape.length())
}

/// Sets the words of the opening record.
fn open_record(words: &mut [u64], shape: &Shape)
    requires { length words.old ≡ table_words shape.now }
    ensures { Fills shape.now (opening_record_below shape.now (record_words shape.now)) words.old words.new }
{
    let row = 2 * shape.processes();
    for index in 0..shape.record_words() {
        set(words, shape, WordName::RecordWord { row, index });
    }
}

/// Sets the slots.
fn open_slots(words: &mut [u64], shape: &Shape)
    requires { length words.old ≡ table_words shape.now }
    ensures { Fills shape.now (slot_below shape.now.batches) words.old words.new }
{
    for slot in 0..shape.batches() {
        set(words, shape, WordName::Slot { slot });
    }
}

/// Sets the next words: each batch is one chain.
fn open_chains(words: &mut [u64], shape: &Shape)
    requires { length words.old ≡ table_words shape.now }
    ensures { Fills shape.now (next_below (blocks shape.now)) words.old words.new }
{
    for block in 0..shape.blocks() {
        set(words, shape, WordName::Next { block });
    }
}
