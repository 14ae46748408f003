//! Two threads keep records of a type of their own in the blocks of one pool, which is closed then.
#![tactic(auto)]

ghost use Rattle.std.specs.Prelude.{◌≡◌, ℕ, ◌<◌, ◌≤◌, All, IfSome, length, slice_index_or};
ghost use Rattle.block_pool.specs.Calls.{SamePass};
ghost use Rattle.block_pool.specs.Passing.{Passed};
ghost use Rattle.block_pool.specs.Fresh.{IsFresh};

mod point;

use crate::point::Point;
use block_pool::{Pass, Pool};
use object_store::{Put, Store};
use std::io;
use std::process::ExitCode;
use std::sync::atomic::{AtomicU64, Ordering};
use std::thread::{Threads, for_each_mut};
use step_counter::{Quiet, Steps};
use word_layout::Shape;

/// Keeps a point in a block, moves it there, and takes it out again. None where the pool has no block.
fn keep(pool: &Pool, pass: &mut Pass) -> Option<Point>
    requires pass { IsFresh pool.now pass.old }
    requires words { 2 ≤ pool.now.sizes.words }
    ensures pass { SamePass pass.old pass.new }
    ensures moved { IfSome result (λ point. point ≡ record { x = 3; y = 4 }) }
{
    // A quantum is at most 16, so the counter of steps has room.
    let _quantum = pool.shape().quantum();
    let _age = pool.shape().most_age();
    let store = Store::new(pool);
    let mut steps = Steps::new(Quiet::new());
    let Put::Stored(mut object) = store.put(pass, Point { x: 1, y: 2 }, &mut steps) else {
        return None;
    };
    store.set(pass, &mut object, &Point { x: 3, y: 4 }, &mut steps);
    Some(store.take(pass, object, &mut steps))
}

/// Each process keeps a point, on a thread of its own where one can be had. Sums up the numbers of all points.
fn keep_each<R: Threads + Sync>(rt: &R, pool: &Pool, passes: &mut [Pass], sum: &AtomicU64)
    requires passes { All (IsFresh pool.now) passes.old }
    requires words { 2 ≤ pool.now.sizes.words }
    ensures many { length passes.new ≡ length passes.old }
    ensures same { (k : ℕ) (d : Passed) → k < length passes.old
        → SamePass (slice_index_or passes.old k d) (slice_index_or passes.new k d) }
{
    for_each_mut(
        rt,
        passes,
        2,
        &|_, pass| {
            if let Some(point) = keep(pool, pass) {
                sum.fetch_add(point.x + point.y, Ordering::SeqCst);
            }
        },
    );
}

fn main(rt: HostRuntime) -> io::Result<ExitCode> {
    // Two processes, four batches of blocks, two data words in a block.
    let Ok(shape) = Shape::new(2, 4, 2) else {
        return Ok(ExitCode::FAILURE);
    };
    let Ok((pool, mut passes)) = Pool::open(rt.alloc(), &shape) else {
        return Ok(ExitCode::FAILURE);
    };
    let sum = AtomicU64::new(0);
    keep_each(&rt, &pool, passes.as_mut_slice(), &sum);
    let settled = pool.finish(passes);
    println!(rt;
        "sum {}, held {}",
        sum.load(Ordering::SeqCst),
        settled.held()
    )?;
    Ok(ExitCode::SUCCESS)
}
