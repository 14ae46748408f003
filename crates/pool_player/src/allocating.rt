// An allocate that a gate is told of before it is made.
ghost use Rattle.std.specs.Prelude.{◌≡◌, ℕ, ◌<◌, Contains};
ghost use Rattle.word_layout.specs.Packing.{most_age};
ghost use Rattle.block_pool.specs.Calls.{entry_of};
ghost use Rattle.block_pool.specs.Passing.{IsOf};
ghost use Rattle.block_pool.specs.declared.pool.Answer.TheVariants.{Got};
ghost use Rattle.pool_player.specs.Calling.{ToldCall};

use block_pool::{Answer, Pass, Pool};
use pass_players::Gate;
use step_counter::{Quiet, Steps};

/// Makes an allocate, and tells the gate of it before.
#[tactic(auto, using(crate::proofs::Calling::told_call))]
pub(crate) fn allocate<G: Gate>(pool: &Pool, pass: &mut Pass, gate: &mut G) -> Answer
    requires pool { IsOf pool.now pass.old }
    requires age { pass.old.age < most_age pool.now.sizes }
    ensures calls { ToldCall (entry_of pass.old.number result) (G.told gate.old) (G.told gate.new) pass.old pass.new }
    ensures free { (block : ℕ) → result ≡ Got block → Contains pass.old.held block → ⊥ }
{
    let _quantum = pool.shape().quantum();
    gate.tell(pass);
    pool.allocate(pass, &mut Steps::new(Quiet::new()))
}
