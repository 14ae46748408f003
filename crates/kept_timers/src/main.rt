//! Two threads keep timers in the blocks of one pool, each with a wheel of its own.
#![tactic(auto)]

ghost use Rattle.std.specs.Prelude.{◌≡◌, ℕ, ◌+◌, ◌*◌, ◌<◌, ◌≤◌, ◌∷◌, [], All, IfSome, Some, length, slice_index_or};
ghost use Rattle.block_pool.specs.Calls.{SamePass};
ghost use Rattle.block_pool.specs.Passing.{Passed};
ghost use Rattle.block_pool.specs.Fresh.{IsFresh};

use block_pool::{Pass, Pool};
use object_store::Store;
use std::alloc::Global;
use std::io;
use std::process::ExitCode;
use std::sync::atomic::{AtomicU64, Ordering};
use std::thread::{Threads, for_each_mut};
use step_counter::{Quiet, Steps};
use timer_wheel::{Started, Wheel};
use word_layout::Shape;

/// What came of three timers.
#[derive(Clone, Copy, Debug, PartialEq, Eq)]
struct Rang {
    /// The payload of the one that was stopped.
    stopped: Option<u64>,
    /// How many payloads the first tick handed out.
    first: u32,
    /// How many the second one did.
    second: u32,
    /// What it handed out, and a 0 behind.
    payloads: [u64; 3],
}

/// Starts three timers, two of them for the second tick, stops the one for the first, and makes two ticks. Their payloads are
/// ten times the number of the process, one more and two more. None where there is no memory for the wheel, or no block.
fn ring(alloc: Global, pool: &Pool, pass: &mut Pass) -> Option<Rang>
    requires pass { IsFresh pool.now pass.old }
    requires words { 4 ≤ pool.now.sizes.words }
    ensures pass { SamePass pass.old pass.new }
    ensures stopped { IfSome result (λ rang. rang.stopped ≡ Some (10 * pass.old.number + 1)) }
    ensures first { IfSome result (λ rang. rang.first ≡ 0) }
    ensures second { IfSome result (λ rang. rang.second ≡ 2) }
    ensures payloads { IfSome result (λ rang. rang.payloads
        ≡ (10 * pass.old.number) ∷ (10 * pass.old.number + 2) ∷ 0 ∷ []) }
    ensures none_left { IfSome result (λ _. length pass.new.held ≡ length pass.old.held) }
{
    // A quantum is at most 16, so the counter of steps has room; no pass is too old after six calls.
    let _quantum = pool.shape().quantum();
    let _age = pool.shape().most_age();
    let payload = 10 * pass.number() as u64;
    let store = Store::new(pool);
    let mut steps = Steps::new(Quiet::new());
    let Ok(mut wheel) = Wheel::open(alloc, 4, 3) else {
        return None;
    };
    let Started::Running(_early) = wheel.start(&store, pass, 2, payload, &mut steps) else {
        return None;
    };
    let Started::Running(key) = wheel.start(&store, pass, 1, payload + 1, &mut steps) else {
        return None;
    };
    let Started::Running(_late) = wheel.start(&store, pass, 2, payload + 2, &mut steps) else {
        return None;
    };
    let stopped = wheel.stop(&store, pass, key, &mut steps);
    let mut payloads = [0; 3];
    let first = wheel.tick(&store, pass, &mut payloads, &mut steps);
    let second = wheel.tick(&store, pass, &mut payloads, &mut steps);
    Some(Rang {
        stopped,
        first,
        second,
        payloads,
    })
}

/// Adds what the ticks of three timers hand out to a sum.
fn ring_and_add(alloc: Global, pool: &Pool, pass: &mut Pass, sum: &AtomicU64)
    requires pass { IsFresh pool.now pass.old }
    requires words { 4 ≤ pool.now.sizes.words }
    ensures pass { SamePass pass.old pass.new }
{
    if let Some(rang) = ring(alloc, pool, pass) {
        for payload in rang.payloads {
            sum.fetch_add(payload, Ordering::SeqCst);
        }
    }
}

/// Each process keeps its timers, on a thread of its own where one can be had. Sums up all payloads that were handed out.
fn ring_each<R: Threads + Sync>(
    rt: &R,
    alloc: Global,
    pool: &Pool,
    passes: &mut [Pass],
    sum: &AtomicU64,
)
    requires passes { All (IsFresh pool.now) passes.old }
    requires words { 4 ≤ pool.now.sizes.words }
    ensures many { length passes.new ≡ length passes.old }
    ensures same { (k : ℕ) (d : Passed) → k < length passes.old
        → SamePass (slice_index_or passes.old k d) (slice_index_or passes.new k d) }
{
    for_each_mut(
        rt,
        passes,
        2,
        &|_, pass| {
            ring_and_add(alloc, pool, pass, sum);
        },
    );
}

fn main(rt: HostRuntime) -> io::Result<ExitCode> {
    // Two processes, four batches of blocks, four data words in a block.
    let Ok(shape) = Shape::new(2, 4, 4) else {
        return Ok(ExitCode::FAILURE);
    };
    let Ok((pool, mut passes)) = Pool::open(rt.alloc(), &shape) else {
        return Ok(ExitCode::FAILURE);
    };
    let sum = AtomicU64::new(0);
    ring_each(&rt, rt.alloc(), &pool, passes.as_mut_slice(), &sum);
    let settled = pool.finish(passes);
    println!(rt;
        "sum {}, held {}",
        sum.load(Ordering::SeqCst),
        settled.held()
    )?;
    Ok(ExitCode::SUCCESS)
}
