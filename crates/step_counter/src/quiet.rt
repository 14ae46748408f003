//! A ledger that costs nothing at run time, since only proofs see its number.

ghost use Rattle.std.specs.Prelude.{◌≡◌};

use crate::Ledger;
use std::marker::Model;
use std::snapshot::Snapshot;
use std::{fmt, mem};

/// A ledger that keeps its number in clauses alone: it has no bytes, and a tick costs nothing.
///
/// A proof sees a chain of rungs, one for each tick, and the number is how high the chain reaches. No rung
/// is there at run time, since a snapshot has no bytes.
#[cycle(quiet)]
#[derive(Drop)]
pub struct Quiet {
    top: Snapshot<Rung>,
}

#[cycle(quiet)]
#[derive(Drop)]
enum Rung {
    Bottom,
    Above(Quiet),
}

impl Model for Quiet {
    ghost use Rattle.std.specs.Prelude.{ℕ};

    ghost Value = { ℕ };

    ghost use Rattle.step_counter.specs.Rungs.{height};

    ghost view = { λ ledger. height ledger.top.value };

    ghost size = { λ number. number };

    ghost use Rattle.std.proofs.Common.{arith};

    ghost size_decreases = { λ a h. Prim.grind arith };
}

impl Quiet {
    /// A ledger that stands at 0.
    pub fn new() -> Quiet
        ensures { result ≡ 0 }
    {
        Quiet {
            top: Snapshot::of(&Rung::Bottom),
        }
    }
}

impl Default for Quiet {
    ghost is_default = { λ ledger. ledger ≡ 0 };

    fn default() -> Quiet {
        Quiet::new()
    }
}

impl fmt::Debug for Quiet {
    fn fmt<W: fmt::Write>(&self, f: &mut fmt::Formatter<W>) -> fmt::Result {
        f.write_str("Quiet")
    }
}

impl Ledger for Quiet {
    ghost count = { λ ledger. ledger };

    fn tick(&mut self) {
        let before = mem::replace(self, Quiet::new());
        *self = Quiet {
            top: Snapshot::of(&Rung::Above(before)),
        };
    }
}
