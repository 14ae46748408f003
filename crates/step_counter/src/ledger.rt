//! What a ledger is, with a word or without.

ghost use Rattle.std.specs.Prelude.{◌≡◌, ◌+◌, ◌-◌, ◌<◌, ◌^◌, ℕ};

/// What counts steps. Clauses see a ledger as the number that it stands at.
pub trait Ledger {
    // The number of steps so far.
    ghost count: { Self → ℕ };

    /// Counts one step more. The number stays below 2^64.
    fn tick(&mut self)
        requires room { count self.old < 2 ^ 64 - 1 }
        ensures counted { count self.new ≡ count self.old + 1 };
}
