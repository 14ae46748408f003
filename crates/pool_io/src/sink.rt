// A sink as a writer sees it: the bytes that it took, and how often it failed.
ghost use Rattle.std.specs.Prelude.{◌≡◌, ◌-◌, ◌<◌, ◌≤◌, ℕ, List, Option, length, take, IfOk, OnOk, OnErr, IsOkAnd};
ghost use Rattle.pool_io.specs.Counts.{HasRisen};
ghost use Rattle.pool_io.specs.Told.{GrowsBy};

use crate::Failed;

/// What takes bytes, some of a piece at a time.
pub trait Sink {
    /// How many calls failed. A count that stands at `u64::MAX` stays there.
    ghost faults: { Self → ℕ };

    /// The bytes so far, where they are told.
    ghost written: { Self → Option (List ℕ) };

    /// The next so many bytes are taken, and no call fails before they are.
    ghost takes: { Self → ℕ → Type 0 } = { λ _ _. ⊥ };

    /// Takes the first bytes of a piece, and answers how many: at least one where the piece has one. Fails
    /// where the outside does, and then took none.
    fn write(&mut self, bytes: &[u8]) -> Result<usize, Failed>
        ensures fits { IfOk result (λ count. count ≤ length bytes.now) }
        ensures some { IfOk result (λ count. 0 < length bytes.now → 0 < count) }
        ensures grown { IfOk result (λ count.
            GrowsBy (written self.old) (written self.new) (take count bytes.now)) }
        ensures kept { OnErr result (written self.new ≡ written self.old) }

        ensures never_falls { faults self.old ≤ faults self.new }
        ensures failed { OnErr result (HasRisen (faults self.old) (faults self.new)) }
        ensures no_fault { OnOk result (faults self.new ≡ faults self.old) }

        ensures sure { (room : ℕ) → takes self.old room → length bytes.now ≤ room →
            IsOkAnd result (λ count. takes self.new (room - count)) };
}
