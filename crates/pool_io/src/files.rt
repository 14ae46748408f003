// Files as a reader sees them: what a name holds, what a source has left, and how often a call failed.
ghost use Rattle.std.specs.Prelude.{◌≡◌, ◌+◌, ◌-◌, ◌^◌, ◌<◌, ◌≤◌, ℕ, List, [], ◌∷◌, ◌++◌, Option, length, take, IfOk, OnOk, OnErr, IsOk};
ghost use Rattle.std.specs.Prelude.{IsSome};
ghost use Rattle.std.specs.Result.{result_ok};
ghost use Rattle.pool_io.specs.Counts.{HasRisen};
ghost use Rattle.pool_io.specs.Told.{HandsOut, IsAtEnd};

use std::error::Error;
use std::fmt;

/// The outside failed: a file that can't be opened or read, a sink that doesn't take what it is given.
#[derive(Clone, Copy, Debug, PartialEq, Eq, Hash)]
pub struct Failed;

impl fmt::Display for Failed {
    fn fmt<W: fmt::Write>(&self, f: &mut fmt::Formatter<W>) -> fmt::Result {
        f.write_str("failed")
    }
}

impl Error for Failed {}

/// Files that are opened by name and read piece by piece.
///
/// Whatever a call does, also where it fails, each name keeps its bytes, told or not.
pub trait Files {
    /// An open file, with the place up to which it was read.
    type Source: Drop;

    /// How many calls failed. A count that stands at `u64::MAX` stays there.
    ghost faults: { Self → ℕ };

    /// How many files were opened, those that couldn't be opened among them.
    ghost opens: { Self → ℕ };

    /// The bytes of a name, where they are told.
    ghost told: { Self → List ℕ → Option (List ℕ) };

    /// The bytes that a source has left, where they are told.
    ghost left: { Self → Self.Source → Option (List ℕ) };

    /// The answers of all reads so far, in their order: how many bytes each gave, none where it failed.
    ghost reads: { Self → List (Option ℕ) };

    /// From here on no read fails, nor an open of a name whose bytes are told.
    ghost reliable: { Self → Type 0 } = { λ _. ⊥ };

    /// Opens the file of a name, at its first byte. Fails where the outside does.
    fn open(&mut self, name: &str) -> Result<Self::Source, Failed>
        requires { opens self.old < 2 ^ 64 - 1 }

        ensures source { IfOk result (λ source. left self.new source ≡ told self.old name.now) }
        ensures names { told self.new ≡ told self.old }
        ensures opens { opens self.new ≡ opens self.old + 1 }
        ensures reads { reads self.new ≡ reads self.old }

        ensures never_falls { faults self.old ≤ faults self.new }
        ensures failed { OnErr result (HasRisen (faults self.old) (faults self.new)) }
        ensures no_fault { OnOk result (faults self.new ≡ faults self.old) }

        ensures reliable { reliable self.old → reliable self.new }
        ensures sure { reliable self.old → IsSome (told self.old name.now) → IsOk result };

    /// Reads the next bytes of a source into the front of a buffer, and answers how many there are: at least
    /// one, or 0 at the end, where the buffer has a place. Fails where the outside does.
    fn read(&mut self, source: &mut Self::Source, buffer: &mut [u8]) -> Result<usize, Failed>
        ensures fits { IfOk result (λ count. count ≤ length buffer.new) }
        ensures next { IfOk result (λ count.
            HandsOut (left self.old source.old) (left self.new source.new) (take count buffer.new)) }
        ensures end { IfOk result (λ count.
            count ≡ 0 → 0 < length buffer.new → IsAtEnd (left self.old source.old)) }
        ensures names { told self.new ≡ told self.old }
        ensures opens { opens self.new ≡ opens self.old }
        ensures reads { reads self.new ≡ reads self.old ++ result_ok result ∷ [] }

        ensures never_falls { faults self.old ≤ faults self.new }
        ensures failed { OnErr result (HasRisen (faults self.old) (faults self.new)) }
        ensures no_fault { OnOk result (faults self.new ≡ faults self.old) }

        ensures reliable { reliable self.old → reliable self.new }
        ensures sure { reliable self.old → IsOk result };
}
