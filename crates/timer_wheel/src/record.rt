// The record of a timer in its block.
ghost use Rattle.std.specs.Prelude.{refl, [], ◌∷◌, slice_index};
ghost use Rattle.std.proofs.Common.{lit≤};
ghost use Rattle.store_script.specs.Words4.{rest_is_zero};

use store_script::Record;

/// What stands in the block of a running timer.
#[derive(Clone, Copy, Debug, PartialEq, Eq)]
pub struct TimerRecord {
    /// The moment at which it is due.
    pub due: u64,
    /// Which start it was, from 0.
    pub number: u64,
    /// What it hands out.
    pub payload: u64,
    /// The link to the timer behind it in its list.
    pub next: u64,
}

impl Record for TimerRecord {
    const WORDS: u32 = 4;

    ghost WORDS = { 4 };

    ghost words_of = { λ timer. timer.due ∷ timer.number ∷ timer.payload ∷ timer.next ∷ 0 ∷ 0 ∷ 0 ∷ 0 ∷ [] };

    ghost value_of = { λ words. record {
      due = slice_index words 0;
      number = slice_index words 1;
      payload = slice_index words 2;
      next = slice_index words 3;
    } };

    ghost few = { lit≤ tt };

    ghost eight = { λ _. refl };

    ghost rest_is_zero = { λ timer. rest_is_zero timer.due timer.number timer.payload timer.next };

    ghost reads_back = { λ _. refl };

    fn to_words(&self) -> [u64; 8] {
        [self.due, self.number, self.payload, self.next, 0, 0, 0, 0]
    }

    fn from_words(words: &[u64; 8]) -> TimerRecord {
        TimerRecord {
            due: words[0],
            number: words[1],
            payload: words[2],
            next: words[3],
        }
    }
}
