// A gate that a player tells of its calls.
ghost use Rattle.std.specs.Prelude.{◌≡◌, ◌++◌, ◌∷◌, [], List};
ghost use Rattle.pass_players.specs.Moments.{Moment, moment_of};

use block_pool::Pass;
use std::marker::Model;
use std::snapshot::Snapshot;
use std::{fmt, mem};

/// Is told of each allocate and each free that a player makes, before the player makes it. It may hold the player back.
///
/// A player owns its gate while it plays. What the gate was told is a list of moments, each of the pass that it was told with: its
/// process, its own entries and how many steps it had made. Telling is the one way to add to that list, so a player that doesn't know
/// which gate it has can tell of no moment at which its pass didn't stand.
pub trait Gate: Drop {
    /// The moments that it was told of, in their order.
    ghost told: { Self → List Moment };

    /// The process of the pass is about to make a call that gets or frees a block.
    fn tell(&mut self, pass: &Pass)
        ensures { told self.new ≡ told self.old ++ moment_of pass.now ∷ [] };
}

/// The moments that a gate was told of, in their order.
///
/// Clauses alone see them: it has no bytes, and to note a moment costs nothing.
#[cycle(told)]
#[derive(Drop)]
pub struct Told {
    last: Snapshot<Link>,
}

#[cycle(told)]
#[derive(Drop)]
enum Link {
    None,
    After(Told, Snapshot<Pass>),
}

impl Model for Told {
    ghost use Rattle.std.specs.Prelude.{List, length};
    ghost use Rattle.pass_players.specs.Moments.{Moment};

    ghost Value = { List Moment };

    ghost use Rattle.pass_players.specs.Links.{moments};

    ghost view = { λ told. moments told.last.value };

    ghost size = { length };

    ghost use Rattle.std.proofs.Common.{arith, length-append};

    ghost size_decreases = { λ a h. Prim.grind (arith, length-append) };
}

impl Told {
    /// No moment so far.
    pub fn new() -> Told
        ensures { result ≡ [] }
    {
        Told {
            last: Snapshot::of(&Link::None),
        }
    }

    /// Notes one moment more: the pass as it stands.
    pub fn note(&mut self, pass: &Pass)
        ensures { self.new ≡ self.old ++ moment_of pass.now ∷ [] }
    {
        let before = mem::replace(self, Told::new());
        *self = Told {
            last: Snapshot::of(&Link::After(before, Snapshot::of(pass))),
        };
    }
}

impl Default for Told {
    ghost is_default = { λ told. told ≡ [] };

    fn default() -> Told {
        Told::new()
    }
}

impl fmt::Debug for Told {
    fn fmt<W: fmt::Write>(&self, f: &mut fmt::Formatter<W>) -> fmt::Result {
        f.write_str("Told")
    }
}

/// A gate that holds nobody back.
#[derive(Drop)]
pub struct OpenGate {
    told: Told,
}

impl OpenGate {
    /// A gate that was told of nothing.
    pub fn new() -> OpenGate
        ensures { result.told ≡ [] }
    {
        OpenGate { told: Told::new() }
    }
}

impl Gate for OpenGate {
    ghost told = { λ gate. gate.told };

    fn tell(&mut self, pass: &Pass) {
        self.told.note(pass);
    }
}
