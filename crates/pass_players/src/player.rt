// Who plays a script.
ghost use Rattle.std.specs.Prelude.{◌≡◌, ℕ, IfOk};
ghost use Rattle.word_layout.specs.Sizes.{Sizes};
ghost use Rattle.pass_players.specs.Playing.{Course, MayPlay, PlayedOnce};

use crate::Gate;
use block_pool::{Pass, Pool};
use pool_model::NoMemory;
use std::alloc::Global;

/// Plays one script of its kind, with a pass that it is lent. What it needs besides is made before, so that playing takes no memory.
pub trait Player: Drop {
    /// What is played.
    type Script;

    /// What playing leaves besides the pass.
    type Outcome;

    // The script is well formed, and a pool of these sizes has what it needs.
    ghost suits: { Sizes → Self.Script → Type 0 };

    // The script makes so many calls at most.
    ghost most_calls: { Self.Script → ℕ };

    // The player was made for this script, and has played nothing.
    ghost is_ready: { Self.Script → Self → Type 0 };

    // What the player leaves, as it stands.
    ghost outcome: { Self → Self.Outcome };

    // A process that plays the script may take this course and leave this.
    ghost fits: { Course → Self.Script → Self.Outcome → Type 0 };

    /// A player that is ready for the script. Its only error is want of memory.
    fn new(alloc: Global, script: &Self::Script) -> Result<Self, NoMemory>
        ensures { IfOk result (is_ready script.now) };

    /// Plays the script with a pass of the pool. The gate is told of each call of the pool that gets or frees a block, before it.
    /// It takes no memory and waits for nobody.
    fn play<G: Gate>(&mut self, pool: &Pool, pass: &mut Pass, script: &Self::Script, gate: &mut G)
        requires may { MayPlay suits most_calls pool.now pass.old script.now }
        requires ready { is_ready script.now self.old }
        ensures { PlayedOnce fits (G.told gate.old) (G.told gate.new) script.now pass.old pass.new (outcome self.new) };

    /// What it leaves. Takes no memory.
    fn into_outcome(self) -> Self::Outcome
        ensures { result ≡ outcome self };
}
