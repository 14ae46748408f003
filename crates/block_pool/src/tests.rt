// Whole pools on one thread: which block each call gets, and in how many steps.
ghost use Rattle.std.specs.Prelude.{ℕ, ◌+◌, ◌*◌, ◌<◌, ◌≤◌, ◌^◌, Contains, IfSome, length};
ghost use Rattle.block_pool.specs.Passing.{IsOf};
ghost use Rattle.block_pool.specs.Calls.{SamePass};

use crate::{Answer, Pass, Pool};
use std::alloc::Global;
use std::process::Abort;
use std::test::Fail;
use step_counter::{Kept, Steps};
use word_layout::Shape;

mod searches;

/// Allocates once: the block that it gets, if any, and how many steps it makes.
fn allocate(
    rt: &impl Abort,
    pool: &Pool,
    pass: &mut Pass,
    steps: &mut Steps<Kept>,
) -> (Option<u32>, u64)
    requires pass { IsOf pool.now pass.old }
    requires quantum { pass.old.sizes.quantum ≤ 16 }
    requires room { steps.old + 17 < 2 ^ 64 }
    ensures pass { SamePass pass.old pass.new }
    ensures steps { steps.new ≤ steps.old + 17 }
    ensures got { IfSome result.0 (λ block. Contains pass.new.held block) }
    ensures held { (block : ℕ) → Contains pass.old.held block → Contains pass.new.held block }
{
    assert!(rt; pass.has_age());
    let before = steps.count();
    let block = match pool.allocate(pass, steps) {
        Answer::Got(block) => Some(block.number()),
        Answer::Dry => None,
    };
    (block, steps.count() - before)
}

/// Gets the first so many blocks, in the order of their numbers.
fn get_first(rt: &impl Abort, pool: &Pool, pass: &mut Pass, count: u32, steps: &mut Steps<Kept>)
    requires pass { IsOf pool.now pass.old }
    requires quantum { pass.old.sizes.quantum ≤ 16 }
    requires room { steps.old + 17 * count + 17 < 2 ^ 64 }
    ensures pass { SamePass pass.old pass.new }
    ensures steps { steps.new ≤ steps.old + 17 * count }
    ensures held { (block : ℕ) → block < count → Contains pass.new.held block }
{
    for block in 0..count {
        assert_eq!(rt; allocate(rt, pool, pass, steps).0, Some(block));
    }
}

/// Gets these blocks in turn, each in so many steps.
fn get_each(
    rt: &impl Abort,
    pool: &Pool,
    pass: &mut Pass,
    wanted: &[(u32, u64)],
    steps: &mut Steps<Kept>,
)
    requires pass { IsOf pool.now pass.old }
    requires quantum { pass.old.sizes.quantum ≤ 16 }
    requires room { steps.old + 17 * length wanted.now + 17 < 2 ^ 64 }
    ensures { SamePass pass.old pass.new }
{
    for (block, made) in wanted {
        assert_eq!(rt; allocate(rt, pool, pass, steps), (Some(*block), *made));
    }
}

#[test]
fn one_pass_of_two_gets_half(rt: HostRuntime) -> Result<(), Fail> {
    let Ok(shape) = Shape::new(2, 4, 0) else {
        panic!(rt; "2 processes and 4 batches are refused");
    };
    let (pool, mut passes) = Pool::open(rt.alloc(), &shape)?;
    let mut steps = Steps::new(Kept::new());
    let pass = &mut passes[0];
    get_first(&rt, &pool, pass, 12, &mut steps);
    assert_eq!(rt; allocate(&rt, &pool, pass, &mut steps).0, None);
    let fourth = pass.block(3);
    assert!(rt; pass.has_age());
    pool.free(pass, fourth, &mut steps);
    assert_eq!(rt; allocate(&rt, &pool, pass, &mut steps).0, Some(3));
    assert_eq!(rt; pass.holding(), 12);
    let settled = pool.finish(passes);
    assert_eq!(rt; (settled.processes(), settled.held()), (2, 12));
    Ok(())
}

/// Opens a pool of one process and ten batches, and gets these blocks in turn, each in so many steps.
fn get_of_ten_batches(
    rt: &impl Abort,
    alloc: Global,
    quantum: u32,
    wanted: &[(u32, u64)],
) -> Result<(), Fail>
    requires { length wanted.now ≤ 5 }
{
    let Ok(shape) = Shape::with_quantum(1, 10, 0, quantum) else {
        panic!(rt; "a process and 10 batches are refused");
    };
    let (pool, mut passes) = Pool::open(alloc, &shape)?;
    let mut steps = Steps::new(Kept::new());
    let pass = &mut passes[0];
    get_each(rt, &pool, pass, wanted, &mut steps);
    let settled = pool.finish(passes);
    assert_eq!(rt; settled.held() as usize, wanted.len(), "quantum {quantum}");
    Ok(())
}

#[test]
fn first_blocks_and_their_steps(rt: HostRuntime) -> Result<(), Fail> {
    // The batch that is taken in the first two calls is used before the spare of the opening.
    get_of_ten_batches(
        &rt,
        rt.alloc(),
        8,
        &[(0, 9), (1, 8), (2, 1), (3, 1), (36, 1)],
    )?;
    get_of_ten_batches(&rt, rt.alloc(), 16, &[(0, 16), (1, 1), (18, 1), (19, 16)])
}

#[test]
fn a_refused_opening_leaves_nothing(rt: HostRuntime) -> Result<(), Fail> {
    let Ok(shape) = Shape::new(2, 4, 0) else {
        panic!(rt; "2 processes and 4 batches are refused");
    };
    // `checks/openings` lets each allocation of the two openings fail in turn, and counts what is left on the heap.
    let _ = Pool::open(rt.alloc(), &shape);
    let (pool, passes) = Pool::open(rt.alloc(), &shape)?;
    let settled = pool.finish(passes);
    assert_eq!(rt; (settled.processes(), settled.held()), (2, 0));
    Ok(())
}
