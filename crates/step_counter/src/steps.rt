//! The counter that counted steps take with them.

ghost use Rattle.std.specs.Prelude.{◌≡◌, ◌+◌, ◌-◌, ◌<◌, ◌^◌};

use crate::{Kept, Ledger};
use std::marker::Model;

/// The steps made so far, counted by a ledger. Clauses see their number.
#[derive(Debug, Drop)]
pub struct Steps<L: Ledger> {
    ledger: L,
}

impl<L: Ledger> Model for Steps<L> {
    ghost use Rattle.std.specs.Prelude.{ℕ};

    ghost Value = { ℕ };

    ghost view = { λ steps. L.count steps.ledger };
}

impl<L: Ledger> Steps<L> {
    /// Goes on from where the ledger stands.
    pub fn new(ledger: L) -> Steps<L>
        ensures { result ≡ L.count ledger }
    {
        Steps { ledger }
    }

    /// Counts one step more.
    pub fn tick(&mut self)
        requires room { self.old < 2 ^ 64 - 1 }
        ensures counted { self.new ≡ self.old + 1 }
    {
        self.ledger.tick();
    }
}

impl Steps<Kept> {
    /// The number of steps so far.
    pub fn count(&self) -> u64
        ensures { result ≡ self.now }
    {
        self.ledger.number()
    }
}
