//! A worked rule: one word that never falls.
//!
//! What a seat knows is what the word was after its last step. No view is above the word, so what a seat has
//! seen once is the least that it will ever meet. A step that could let the word fall isn't accepted.
ghost use Rattle.std.specs.Prelude.{◌≡◌, ◌≢◌, ◌+◌, ◌<◌, ◌≤◌, ◌^◌, IfOk, IfErr, OnOk, MatchResult};
ghost use Rattle.word_table.specs.Seats.{SameSeat, met_by};

use crate::{LearnAbout, WordRule, WordSeat, WordTable};
use pool_model::NoMemory;
use std::alloc::Global;
use step_counter::{Ledger, Steps};

/// The rule that the one word of a table never falls.
pub struct Rising;

impl WordRule for Rising {
    ghost use Rattle.std.specs.Prelude.{slice_index};
    ghost use Rattle.word_table.specs.Rising.{IsAboveAll};

    type View = u64;

    type Key = u64;

    ghost holds = { IsAboveAll };

    ghost first = { λ word. word };

    ghost learn = { λ words _ _. slice_index words 0 };
}

/// What a step that raises the word is about: `to` comes where the word is `from`.
#[derive(Drop)]
struct Rise {
    from: u64,
    to: u64,
}

impl LearnAbout<u64, Rise> for Rising {
    ghost use Rattle.std.specs.Prelude.{slice_index};
    ghost use Rattle.word_rule.specs.Moves.{exchanged};

    ghost learn_about = { λ rise words _ _. exchanged rise.from rise.to (slice_index words 0) };
}

/// A table of one word, and its first seat, which has met that word.
///
/// `Err` for want of memory only.
pub fn open(alloc: Global, word: u64) -> Result<(WordTable<Rising>, WordSeat<Rising>), NoMemory>
    ensures words { IfOk result (λ opened. opened.0.words ≡ 1) }
    ensures seat { IfOk result (λ opened. opened.1.table ≡ opened.0) }
    ensures seen { IfOk result (λ opened. opened.1.view ≡ word) }
{
    let mut words = Vec::new(alloc);
    words.push(word)?;
    WordTable::open(alloc, words, &word)
}

/// Loads the word, which is at least what the seat met before.
pub fn look<L: Ledger>(
    table: &WordTable<Rising>,
    seat: &mut WordSeat<Rising>,
    steps: &mut Steps<L>,
) -> u64
    requires seat { seat.old.table ≡ table.now }
    requires word { 0 < table.now.words }
    requires steps { steps.old + 1 < 2 ^ 64 }
    ensures seat { SameSeat seat.old seat.new }
    ensures steps { steps.new ≡ steps.old + 1 }
    ensures seen { seat.new.view ≡ result }
    ensures risen { seat.old.view ≤ result }
{
    table.load(seat, 0, steps)
}

/// Raises the word where it is `from`, and answers the word that it met. After `Ok` the seat knows that the word
/// is at least `to`; after `Err` it knows what it met.
pub fn raise<L: Ledger>(
    table: &WordTable<Rising>,
    seat: &mut WordSeat<Rising>,
    from: u64,
    to: u64,
    steps: &mut Steps<L>,
) -> Result<u64, u64>
    requires rises { from ≤ to }
    requires seat { seat.old.table ≡ table.now }
    requires word { 0 < table.now.words }
    requires steps { steps.old + 1 < 2 ^ 64 }
    ensures seat { SameSeat seat.old seat.new }
    ensures steps { steps.new ≡ steps.old + 1 }
    ensures answer { MatchResult result (λ word. word ≡ from) (λ word. word ≢ from) }
    ensures raised { OnOk result (seat.new.view ≡ to) }
    ensures missed { IfErr result (λ word. seat.new.view ≡ word) }
    ensures risen { seat.old.view ≤ met_by result }
{
    table.compare_exchange_with(seat, 0, from, to, &Rise { from, to }, steps)
}
