//! A ledger that a program can read: its number is a word.

ghost use Rattle.std.specs.Prelude.{◌≡◌};

use crate::Ledger;
use std::marker::Model;

/// A ledger that keeps its number in a word.
#[derive(Debug, Drop)]
pub struct Kept {
    number: u64,
}

impl Model for Kept {
    ghost use Rattle.std.specs.Prelude.{ℕ};

    ghost Value = { ℕ };

    ghost view = { λ ledger. ledger.number };
}

impl Kept {
    /// A ledger that stands at 0.
    pub fn new() -> Kept
        ensures { result ≡ 0 }
    {
        Kept { number: 0 }
    }

    /// The number of steps so far.
    pub(crate) fn number(&self) -> u64
        ensures { result ≡ self.now }
    {
        self.number
    }
}

impl Default for Kept {
    ghost is_default = { λ ledger. ledger ≡ 0 };

    fn default() -> Kept {
        Kept::new()
    }
}

impl Ledger for Kept {
    ghost count = { λ ledger. ledger };

    fn tick(&mut self) {
        self.number += 1;
    }
}
