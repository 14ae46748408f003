// What became of a wheel's timers since it was opened, which clauses alone see.
ghost use Rattle.std.specs.Prelude.{◌≡◌, ◌++◌, ◌∷◌, []};

use std::marker::Model;
use std::snapshot::Snapshot;
use std::{fmt, mem};

/// A timer that was started, and the place that it got.
#[derive(Clone, Copy, Debug, PartialEq, Eq)]
pub(crate) struct Placed {
    pub(crate) number: u64,
    pub(crate) due: u64,
    pub(crate) payload: u64,
    pub(crate) place: u32,
}

/// A timer began to run, or the one with a number runs no more.
#[derive(Clone, Copy, Debug, PartialEq, Eq)]
pub(crate) enum Change {
    Began(Placed),
    Ended(u64),
}

/// All changes so far, in their order.
///
/// Clauses alone see them: it has no bytes, and to note a change costs nothing.
#[cycle(changes)]
#[derive(Drop)]
pub(crate) struct Changes {
    last: Snapshot<Link>,
}

#[cycle(changes)]
#[derive(Drop)]
enum Link {
    None,
    After(Changes, Change),
}

impl Model for Changes {
    ghost use Rattle.std.specs.Prelude.{List, length};
    ghost use Rattle.timer_wheel.specs.declared.changes.Change.{Change};

    ghost Value = { List Change };

    ghost use Rattle.timer_wheel.specs.Links.{changes_of};

    ghost view = { λ changes. changes_of changes.last.value };

    ghost size = { length };

    ghost use Rattle.std.proofs.Common.{arith, length-append};

    ghost size_decreases = { λ a h. Prim.grind (arith, length-append) };
}

impl Changes {
    /// No change so far.
    pub(crate) fn new() -> Changes
        ensures { result ≡ [] }
    {
        Changes {
            last: Snapshot::of(&Link::None),
        }
    }

    /// Notes one change more.
    pub(crate) fn note(&mut self, change: Change)
        ensures { self.new ≡ self.old ++ change ∷ [] }
    {
        let before = mem::replace(self, Changes::new());
        *self = Changes {
            last: Snapshot::of(&Link::After(before, change)),
        };
    }
}

impl fmt::Debug for Changes {
    fn fmt<W: fmt::Write>(&self, f: &mut fmt::Formatter<W>) -> fmt::Result {
        f.write_str("Changes")
    }
}
