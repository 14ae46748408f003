// Store scripts that are played over a pool of their own.
ghost use Rattle.std.specs.Prelude.{◌≡◌, ◌≤◌, length, map, IfOk};
ghost use Rattle.std.specs.List.{All};
ghost use Rattle.store_runs.specs.Playable.{IsPlayable};
ghost use Rattle.store_runs.specs.Ready.{IsReady, sizes_in};
ghost use Rattle.store_runs.specs.Settled.{IsSettledBy};

use pass_players::{Gate, Played, Prepared, play, prepare_pool};
use pool_model::NoMemory;
use std::alloc::Global;
use std::thread::Threads;
use store_player::{AnswerList, StorePlayer};
use store_script::StoreScript;
use word_layout::Shape;

/// Players of store scripts that are ready, over a pool of their own.
pub type PreparedStores<G> = Prepared<StorePlayer, AnswerList, G>;

/// What a pool leaves whose processes played a store script each: the outcomes are the answers to the scripts.
pub type PlayedStores<G> = Played<AnswerList, G>;

/// Opens a pool of this shape, and makes ready for each script the process of its place, with the room in which they play and
/// give back as many gates as these. No gate is told of anything.
///
/// Its only error is want of memory.
pub fn prepare_stores<G: Gate>(
    alloc: Global,
    shape: &Shape,
    scripts: &[StoreScript],
    gates: &[G],
) -> Result<PreparedStores<G>, NoMemory>
    requires words { 4 ≤ shape.now.words }
    requires one_each { length scripts.now ≡ shape.now.processes }
    requires playable { All IsPlayable scripts.now }
    ensures ready { IfOk result (IsReady scripts.now (length gates.now)) }
    ensures shape { IfOk result (λ prepared. sizes_in prepared ≡ shape.now) }
{
    let _age = shape.most_age();
    prepare_pool::<StorePlayer, G>(alloc, shape, scripts, gates)
}

/// Plays each script by the process of its place, in a thread of its own where one can be had, and closes the pool. It takes no
/// memory and can't fail.
///
/// The answers are those that the one history of the closed pool gives; with more blocks than the processes may withhold and
/// keys are present at most, they follow from the scripts alone. Each command takes a step for each word that it reads or
/// writes, and one that makes a call of the pool takes one more and at most a quantum of others. Process `k` tells gate `k` of
/// each such call before it; further gates are told of nothing.
pub fn play_stores<R: Threads + Sync, G: Gate + Send>(
    rt: &R,
    prepared: PreparedStores<G>,
    scripts: &[StoreScript],
    gates: Vec<G>,
) -> PlayedStores<G>
    requires ready { IsReady scripts.now (length gates.items) prepared }
    requires gates { length scripts.now ≤ length gates.items }
    ensures { IsSettledBy (map G.told gates.items) (map G.told result.gates.items) (sizes_in prepared) scripts.now
        result.outcomes.items result.settled }
{
    play::<R, StorePlayer, G>(rt, prepared, scripts, gates)
}
