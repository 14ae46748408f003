// A put that a gate is told of before it is made.
ghost use Rattle.std.specs.Prelude.{◌≡◌, ◌≤◌, ◌++◌, ◌∷◌, []};
ghost use Rattle.block_pool.specs.Calls.{entry_of};
ghost use Rattle.block_pool.specs.Passing.{HasAge, IsOf};
ghost use Rattle.object_store.specs.Calls.{answer_of};
ghost use Rattle.object_store.specs.Putting.{IsPut, least_of_put};
ghost use Rattle.pass_players.specs.Moments.{moment_of};
ghost use Rattle.store_player.specs.Playing.{Does, quad_words};

use block_pool::{Pass, Pool};
use object_store::{Put, Store};
use pass_players::Gate;
use step_counter::{Quiet, Steps};
use store_script::Quad;

/// Tells the gate of a put, and makes it.
pub(crate) fn put<G: Gate>(pool: &Pool, pass: &mut Pass, value: Quad, gate: &mut G) -> Put<Quad>
    requires pool { IsOf pool.now pass.old }
    requires words { 4 ≤ pool.now.sizes.words }
    requires age { HasAge pass.old }
    ensures calls { Does (entry_of pass.old.number (answer_of result)) (least_of_put 4 result) pass.old pass.new }
    ensures put { IsPut 4 quad_words value pass.old pass.new result }
    ensures told { G.told gate.new ≡ G.told gate.old ++ moment_of pass.old ∷ [] }
{
    gate.tell(pass);
    let _quantum = pool.shape().quantum();
    Store::new(pool).put(pass, value, &mut Steps::new(Quiet::new()))
}
