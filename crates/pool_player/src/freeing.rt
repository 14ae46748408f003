// A free that a gate is told of before it is made.
ghost use Rattle.std.specs.Prelude.{◌<◌, Contains};
ghost use Rattle.word_layout.specs.Packing.{most_age};
ghost use Rattle.pool_model.specs.declared.entry.Entry.TheVariants.{Back};
ghost use Rattle.block_pool.specs.Passing.{IsOf};
ghost use Rattle.pool_player.specs.Calling.{ToldCall};

use block_pool::{Block, Pass, Pool};
use pass_players::Gate;
use step_counter::{Quiet, Steps};

/// Makes a free, and tells the gate of it before.
#[tactic(auto, using(crate::proofs::Calling::told_call))]
pub(crate) fn free<G: Gate>(pool: &Pool, pass: &mut Pass, block: Block, gate: &mut G)
    requires pool { IsOf pool.now pass.old }
    requires age { pass.old.age < most_age pool.now.sizes }
    requires held { Contains pass.old.held block }
    ensures { ToldCall (Back pass.old.number block) (G.told gate.old) (G.told gate.new) pass.old pass.new }
{
    let _quantum = pool.shape().quantum();
    gate.tell(pass);
    pool.free(pass, block, &mut Steps::new(Quiet::new()));
}
