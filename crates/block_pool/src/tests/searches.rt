// Searches of one pass: which block each gets, and in how many steps.
ghost use Rattle.std.specs.Prelude.{ℕ, ◌+◌, ◌<◌, ◌≤◌, ◌^◌, Contains};
ghost use Rattle.block_pool.specs.Passing.{IsOf};
ghost use Rattle.block_pool.specs.Calls.{SamePass};

use super::get_first;
use crate::{Answer, Pass, Pool};
use std::alloc::Global;
use std::process::Abort;
use std::test::Fail;
use step_counter::{Kept, Steps};
use word_layout::Shape;

/// Searches once: the block that it gets, if any, and how many steps it makes.
fn search(
    rt: &impl Abort,
    pool: &Pool,
    pass: &mut Pass,
    steps: &mut Steps<Kept>,
) -> (Option<u32>, u64)
    requires pass { IsOf pool.now pass.old }
    requires room { steps.old + 2000 < 2 ^ 64 }
    ensures pass { SamePass pass.old pass.new }
    ensures steps { steps.new ≤ steps.old + 2000 }
    ensures held { (block : ℕ) → Contains pass.old.held block → Contains pass.new.held block }
{
    prove!(pool.shape().processes() <= 32);
    assert!(rt; pass.age() < pool.shape().most_age());
    let before = steps.count();
    let block = match pool.search(pass, steps) {
        Answer::Got(block) => Some(block.number()),
        Answer::Dry => None,
    };
    (block, steps.count() - before)
}

#[test]
fn a_search_is_refused_where_all_are_held(rt: HostRuntime) -> Result<(), Fail> {
    let Ok(shape) = Shape::new(1, 2, 0) else {
        panic!(rt; "a process and 2 batches are refused");
    };
    let (pool, mut passes) = Pool::open(rt.alloc(), &shape)?;
    let mut steps = Steps::new(Kept::new());
    let pass = &mut passes[0];
    get_first(&rt, &pool, pass, 8, &mut steps);
    assert_eq!(rt; search(&rt, &pool, pass, &mut steps).0, None);
    let last = pass.block(7);
    assert!(rt; pass.has_age());
    pool.free(pass, last, &mut steps);
    assert_eq!(rt; search(&rt, &pool, pass, &mut steps).0, Some(7));
    Ok(())
}

/// How many steps a search makes after so many allocates, each with one step of the take that the first one began.
fn steps_after(rt: &impl Abort, alloc: Global, calls: u32) -> Result<u64, Fail>
    requires { calls < 31 }
{
    let Ok(shape) = Shape::with_quantum(1, 10, 0, 1) else {
        panic!(rt; "a process and 10 batches are refused");
    };
    let (pool, mut passes) = Pool::open(alloc, &shape)?;
    let mut steps = Steps::new(Kept::new());
    let pass = &mut passes[0];
    get_first(rt, &pool, pass, calls, &mut steps);
    Ok(search(rt, &pool, pass, &mut steps).1)
}

#[test]
fn a_search_makes_the_steps_that_are_left(rt: HostRuntime) -> Result<(), Fail> {
    // A lone take of one process has fifteen steps, and each search its own one.
    for calls in 0..16 {
        assert_eq!(rt;
            steps_after(&rt, rt.alloc(), calls)?,
            u64::from(16 - calls),
            "{calls} calls"
        );
    }
    Ok(())
}
