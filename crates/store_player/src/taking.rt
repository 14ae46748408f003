// A take that a gate is told of before it is made.
ghost use Rattle.std.specs.Prelude.{◌≡◌, ◌≤◌, ◌++◌, ◌∷◌, []};
ghost use Rattle.pool_model.specs.declared.entry.Entry.TheVariants.{Back};
ghost use Rattle.block_pool.specs.Passing.{HasAge, IsOf};
ghost use Rattle.object_store.specs.Calls.{KeepsOthers};
ghost use Rattle.object_store.specs.Objects.{HoldsWords};
ghost use Rattle.pass_players.specs.Moments.{moment_of};
ghost use Rattle.store_player.specs.Playing.{Does, quad_words};

use block_pool::{Pass, Pool};
use object_store::{Object, Store};
use pass_players::Gate;
use step_counter::{Quiet, Steps};
use store_script::Quad;

/// Tells the gate of a take, and makes it.
pub(crate) fn take<G: Gate>(
    pool: &Pool,
    pass: &mut Pass,
    object: Object<Quad>,
    gate: &mut G,
) -> Quad
    requires pool { IsOf pool.now pass.old }
    requires words { 4 ≤ pool.now.sizes.words }
    requires age { HasAge pass.old }
    requires object { HoldsWords 4 (quad_words object.value) object.block pass.old }
    ensures value { result ≡ object.value }
    ensures calls { Does (Back pass.old.number object.block) 5 pass.old pass.new }
    ensures others { KeepsOthers object.block pass.old pass.new }
    ensures told { G.told gate.new ≡ G.told gate.old ++ moment_of pass.old ∷ [] }
{
    gate.tell(pass);
    let _quantum = pool.shape().quantum();
    Store::new(pool).take(pass, object, &mut Steps::new(Quiet::new()))
}
