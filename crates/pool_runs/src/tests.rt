// A drill over a pool of its own, and over one that was opened before.
ghost use Rattle.std.specs.Prelude.{◌≡◌, IfOk, length};
ghost use Rattle.std.specs.List.{All};
ghost use Rattle.pool_runs.specs.Playable.{IsPlayable};

use crate::{PlayedTraces, drill_scripts, play_traces, prepare_traces};
use block_pool::Pool;
use mtrace_reader::Script;
use pass_players::{OpenGate, play, prepare};
use pool_model::NoMemory;
use pool_player::TracePlayer;
use std::alloc::Global;
use std::test::Fail;
use std::thread::Threads;
use word_layout::Shape;

/// So many open gates.
fn open_gates(alloc: Global, count: usize) -> Result<Vec<OpenGate>, NoMemory>
    ensures { IfOk result (λ gates. length gates.items ≡ count) }
{
    let mut gates = Vec::with_capacity(alloc, count)?;
    for _gate in 0..count {
        gates.push(OpenGate::new())?;
    }
    Ok(gates)
}

/// Plays scripts over a pool that this opens.
fn play_own<R: Threads + Sync>(
    rt: &R,
    alloc: Global,
    shape: &Shape,
    scripts: &[Script],
) -> Result<PlayedTraces<OpenGate>, NoMemory>
    requires one_each { length scripts.now ≡ shape.now.processes }
    requires playable { All IsPlayable scripts.now }
{
    let gates = open_gates(alloc, scripts.len())?;
    let prepared = prepare_traces(alloc, shape, scripts, gates.as_slice())?;
    Ok(play_traces(rt, prepared, scripts, gates))
}

/// Plays scripts with the passes of a pool that was opened before.
fn play_opened<R: Threads + Sync>(
    rt: &R,
    alloc: Global,
    shape: &Shape,
    scripts: &[Script],
) -> Result<PlayedTraces<OpenGate>, NoMemory>
    requires one_each { length scripts.now ≡ shape.now.processes }
    requires playable { All IsPlayable scripts.now }
{
    let _age = shape.most_age();
    let gates = open_gates(alloc, scripts.len())?;
    let (pool, passes) = Pool::open(alloc, shape)?;
    let prepared = prepare::<TracePlayer, OpenGate>(
        alloc,
        pool,
        passes,
        scripts,
        gates.as_slice(),
    )?;
    Ok(play::<R, TracePlayer, OpenGate>(rt, prepared, scripts, gates))
}

/// Four made traces of 100 calls. 256 batches have more blocks than the slack and than they hold at once.
#[test]
fn a_drill_has_the_same_tallies_over_both(rt: HostRuntime) -> Result<(), Fail> {
    let alloc = rt.alloc();
    let shape = Shape::new(4, 256, 0)?;
    let scripts = drill_scripts(alloc, 1, 100, 4)?;
    if scripts.len() != 4 {
        panic!(rt; "there is a script for each process");
    }
    let own = play_own(&rt, alloc, &shape, &scripts)?;
    let opened = play_opened(&rt, alloc, &shape, &scripts)?;
    assert_eq!(rt; own.outcomes.as_slice(), opened.outcomes.as_slice());
    assert_eq!(rt; own.outcomes.len(), 4);
    Ok(())
}
