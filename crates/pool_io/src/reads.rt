// The answers of reads, which clauses alone see.
ghost use Rattle.std.specs.Prelude.{◌≡◌, ◌++◌, ◌∷◌, []};

use std::marker::Model;
use std::snapshot::Snapshot;
use std::{fmt, mem};

/// The answers of all reads so far, in their order: how many bytes each gave, or none where it failed.
///
/// Clauses alone see them: it has no bytes, and to note an answer costs nothing.
#[cycle(reads)]
#[derive(Drop)]
pub struct Reads {
    last: Snapshot<Link>,
}

#[cycle(reads)]
#[derive(Drop)]
enum Link {
    None,
    After(Reads, Option<usize>),
}

impl Model for Reads {
    ghost use Rattle.std.specs.Prelude.{ℕ, List, Option, length};

    ghost Value = { List (Option ℕ) };

    ghost use Rattle.pool_io.specs.Links.{answers};

    ghost view = { λ reads. answers reads.last.value };

    ghost size = { length };

    ghost use Rattle.std.proofs.Common.{arith, length-append};

    ghost size_decreases = { λ a h. Prim.grind (arith, length-append) };
}

impl Reads {
    /// No read so far.
    pub fn new() -> Reads
        ensures { result ≡ [] }
    {
        Reads {
            last: Snapshot::of(&Link::None),
        }
    }

    /// Notes the answer of one read more: how many bytes it gave, or none.
    pub(crate) fn note(&mut self, answer: Option<usize>)
        ensures { self.new ≡ self.old ++ answer ∷ [] }
    {
        let before = mem::replace(self, Reads::new());
        *self = Reads {
            last: Snapshot::of(&Link::After(before, answer)),
        };
    }
}

impl Default for Reads {
    ghost is_default = { λ reads. reads ≡ [] };

    fn default() -> Reads {
        Reads::new()
    }
}

impl fmt::Debug for Reads {
    fn fmt<W: fmt::Write>(&self, f: &mut fmt::Formatter<W>) -> fmt::Result {
        f.write_str("Reads")
    }
}
