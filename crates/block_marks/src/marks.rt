// Marks, a bit each.
ghost use Rattle.std.specs.Prelude.{◌≡◌, ◌≢◌, ℕ, ◌<◌, ◌↔◌, IsTrue, IfOk};
ghost use Rattle.block_marks.specs.Marked.{Has};

use std::alloc::{AllocError, Global};
use std::marker::Model;

/// How many words nothing uses behind the marks, so that what lies behind them is in other cache lines: marks of different
/// threads are made one after the other, and each call of a thread changes one.
const WORDS_APART: usize = 16;

/// Marks on the numbers below a bound. Clauses see the bound and which numbers are marked.
#[derive(Drop)]
pub struct Marks {
    bound: u32,
    words: Vec<u64>,
}

impl Model for Marks {
    ghost use Rattle.std.specs.Prelude.{◌*◌, ◌≤◌, length};
    ghost use Rattle.block_marks.specs.Marked.{Marked};

    ghost Value = { Marked };

    ghost view = { λ marks. record { bound = marks.bound; words = marks.words.items } };

    ghost invariant = { λ marks. marks.bound ≤ 64 * length marks.words.items };
}

impl Marks {
    /// Numbers below this bound, none of them marked. All memory is taken here.
    pub fn new(alloc: Global, bound: u32) -> Result<Marks, AllocError>
        ensures bound { IfOk result (λ marks. marks.bound ≡ bound) }
        ensures none { IfOk result (λ marks. (number : ℕ) → Has marks number → ⊥) }
    {
        let words = Vec::from_elem(alloc, 0, bound.div_ceil(64) as usize + WORDS_APART)?;
        Ok(Marks { bound, words })
    }

    /// Whether this number is marked. One that isn't below the bound never is.
    #[inline]
    pub fn has(&self, number: u32) -> bool
        ensures { IsTrue result ↔ Has self.now number }
    {
        number < self.bound && (self.words[(number / 64) as usize] >> (number % 64)) & 1 == 1
    }

    /// Marks this number. All others stay.
    #[inline]
    pub fn set(&mut self, number: u32)
        requires { number < self.old.bound }
        ensures bound { self.new.bound ≡ self.old.bound }
        ensures marked { Has self.new number }
        ensures others { (other : ℕ) → other ≢ number → Has self.new other ↔ Has self.old other }
    {
        self.words[(number / 64) as usize] |= 1 << (number % 64);
    }

    /// Takes the mark off this number. All others stay.
    #[inline]
    pub fn clear(&mut self, number: u32)
        requires { number < self.old.bound }
        ensures bound { self.new.bound ≡ self.old.bound }
        ensures marked { Has self.new number → ⊥ }
        ensures others { (other : ℕ) → other ≢ number → Has self.new other ↔ Has self.old other }
    {
        self.words[(number / 64) as usize] &= !(1 << (number % 64));
    }
}
