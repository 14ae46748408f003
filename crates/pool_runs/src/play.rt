// Scripts that are played over a pool of their own.
ghost use Rattle.std.specs.Prelude.{◌≡◌, ◌≤◌, length, map, IfOk};
ghost use Rattle.std.specs.List.{All};
ghost use Rattle.pool_runs.specs.Playable.{IsPlayable};
ghost use Rattle.pool_runs.specs.Ready.{IsReady, sizes_in};
ghost use Rattle.pool_runs.specs.Settled.{IsSettledBy};

use mtrace_reader::Script;
use pass_players::{Gate, Played, Prepared, play, prepare_pool};
use pool_model::NoMemory;
use pool_player::TracePlayer;
use std::alloc::Global;
use std::thread::Threads;
use trace_player::Tally;
use word_layout::Shape;

/// Players of traces that are ready, over a pool of their own.
pub type PreparedTraces<G> = Prepared<TracePlayer, Tally, G>;

/// What a pool leaves whose processes played a trace's script each: the outcomes are the tallies of the scripts.
pub type PlayedTraces<G> = Played<Tally, G>;

/// Opens a pool of this shape, and makes the process of each place ready for its script, with the room in which they play and give back
/// as many gates as these. No gate is told of anything.
///
/// Its only error is want of memory.
pub fn prepare_traces<G: Gate>(
    alloc: Global,
    shape: &Shape,
    scripts: &[Script],
    gates: &[G],
) -> Result<PreparedTraces<G>, NoMemory>
    requires one_each { length scripts.now ≡ shape.now.processes }
    requires playable { All IsPlayable scripts.now }
    ensures ready { IfOk result (IsReady scripts.now (length gates.now)) }
    ensures shape { IfOk result (λ prepared. sizes_in prepared ≡ shape.now) }
{
    let _age = shape.most_age();
    prepare_pool::<TracePlayer, G>(alloc, shape, scripts, gates)
}

/// Plays each script by the process of its place, in a thread of its own where one can be had, and closes the pool. It takes no memory
/// and can't fail.
///
/// The tallies are those of the one history that closing gives; with more blocks than the processes may withhold and the scripts hold
/// at most, they follow from the scripts alone. Each call of process `k` makes at most a quantum of steps and one, and process `k` tells
/// gate `k` of it before.
pub fn play_traces<R: Threads + Sync, G: Gate + Send>(
    rt: &R,
    prepared: PreparedTraces<G>,
    scripts: &[Script],
    gates: Vec<G>,
) -> PlayedTraces<G>
    requires ready { IsReady scripts.now (length gates.items) prepared }
    requires gates { length scripts.now ≤ length gates.items }
    ensures { IsSettledBy (map G.told gates.items) (map G.told result.gates.items) (sizes_in prepared) scripts.now
        result.outcomes.items result.settled }
{
    play::<R, TracePlayer, G>(rt, prepared, scripts, gates)
}
