//! Counts the steps of the calls of a wheel with 100,000 running timers, over 4096 lists and over one.
//!
//! The timers are due at the moments 1 to 100,000. It prints a line for each number of lists: the most steps of a start, those
//! of the first tick, of a stop with the right place, and of one with the place of another timer.
#![tactic(auto)]

ghost use Rattle.std.specs.Prelude.{◌≡◌, ◌+◌, ◌≤◌, ◌<◌, ◌^◌, length};
ghost use Rattle.block_pool.specs.Calls.{SamePass};
ghost use Rattle.block_pool.specs.Passing.{IsOf};
ghost use Rattle.timer_wheel.specs.Views.{HoldsAll};

use block_pool::{Pass, Pool};
use object_store::Store;
use std::alloc::Global;
use std::io;
use std::process::ExitCode;
use step_counter::{Kept, Steps};
use timer_wheel::{Key, Started, Wheel};
use word_layout::Shape;

/// How many timers run.
const TIMERS: u32 = 100_000;

/// Of so many batches there are as many blocks.
const BATCHES: u32 = 25_000;

/// The number of lists of the wheel that is measured.
const LISTS: u32 = 4_096;

/// The steps that were counted.
#[derive(Clone, Copy, Debug, PartialEq, Eq)]
struct Counted {
    /// The most of a start.
    start: u64,
    /// Those of the first tick.
    tick: u64,
    /// Those of a stop with the key that its start gave.
    stop: u64,
    /// Those of a stop with a key whose place is another timer's.
    search: u64,
}

/// Starts a timer, and answers its key and the steps that this took.
fn start(pool: &Pool, pass: &mut Pass, wheel: &mut Wheel, delay: u64) -> Option<(Key, u64)>
    requires pass { IsOf pool.now pass.old }
    requires words { 4 ≤ pool.now.sizes.words }
    requires holds { HoldsAll wheel.old.objects pass.old }
    requires few { wheel.old.timers.started + 1 < 2 ^ 64 }
    ensures pass { SamePass pass.old pass.new }
    ensures holds { HoldsAll wheel.new.objects pass.new }
    ensures started { wheel.new.timers.started ≤ wheel.old.timers.started + 1 }
{
    if !pass.has_age() || delay < 1 || delay > u64::MAX - wheel.now() {
        return None;
    }
    let _quantum = pool.shape().quantum();
    let mut steps = Steps::new(Kept::new());
    match wheel.start(&Store::new(pool), pass, delay, delay, &mut steps) {
        Started::Crowded => None,
        Started::Full => None,
        Started::Running(key) => Some((key, steps.count())),
    }
}

/// Starts all timers, notes their keys, and answers the most steps of a start.
fn start_all(pool: &Pool, pass: &mut Pass, wheel: &mut Wheel, keys: &mut Vec<Key>) -> Option<u64>
    requires pass { IsOf pool.now pass.old }
    requires words { 4 ≤ pool.now.sizes.words }
    requires holds { HoldsAll wheel.old.objects pass.old }
    requires opened { wheel.old.timers.started ≡ 0 }
    ensures pass { SamePass pass.old pass.new }
    ensures holds { HoldsAll wheel.new.objects pass.new }
{
    let mut most = 0;
    for number in 0..TIMERS {
        let (key, steps) = start(pool, pass, wheel, number as u64 + 1)?;
        keys.push(key).ok()?;
        if steps > most {
            most = steps;
        }
    }
    Some(most)
}

/// Stops the timer with a key, and answers the steps that this took. None where no timer has it.
fn stop(pool: &Pool, pass: &mut Pass, wheel: &mut Wheel, key: Key) -> Option<u64>
    requires pass { IsOf pool.now pass.old }
    requires words { 4 ≤ pool.now.sizes.words }
    requires holds { HoldsAll wheel.old.objects pass.old }
    ensures pass { SamePass pass.old pass.new }
    ensures holds { HoldsAll wheel.new.objects pass.new }
{
    if !pass.has_age() {
        return None;
    }
    let _quantum = pool.shape().quantum();
    let _running = wheel.running();
    let mut steps = Steps::new(Kept::new());
    match wheel.stop(&Store::new(pool), pass, key, &mut steps) {
        None => None,
        Some(_payload) => Some(steps.count()),
    }
}

/// Stops the timer with a key, and the one that was started right behind the first half with a key whose place is another's.
/// It answers the steps of both.
fn stop_two(pool: &Pool, pass: &mut Pass, wheel: &mut Wheel, key: Key) -> Option<(u64, u64)>
    requires pass { IsOf pool.now pass.old }
    requires words { 4 ≤ pool.now.sizes.words }
    requires holds { HoldsAll wheel.old.objects pass.old }
{
    let right = stop(pool, pass, wheel, key)?;
    let other = Key {
        number: (TIMERS / 2 + 1) as u64,
        place: 1,
    };
    let search = stop(pool, pass, wheel, other)?;
    Some((right, search))
}

/// Makes a tick, and answers the steps that this took.
fn tick(pool: &Pool, pass: &mut Pass, wheel: &mut Wheel, out: &mut [u64]) -> Option<u64>
    requires pass { IsOf pool.now pass.old }
    requires words { 4 ≤ pool.now.sizes.words }
    requires holds { HoldsAll wheel.old.objects pass.old }
    ensures pass { SamePass pass.old pass.new }
    ensures holds { HoldsAll wheel.new.objects pass.new }
{
    let running = wheel.running();
    if running as usize > out.len() || wheel.now() == u64::MAX || pass.age() > TIMERS as u64 {
        return None;
    }
    let _age = pool.shape().most_age();
    let _quantum = pool.shape().quantum();
    let mut steps = Steps::new(Kept::new());
    wheel.tick(&Store::new(pool), pass, out, &mut steps);
    Some(steps.count())
}

/// Counts the steps of the calls on a wheel with so many lists. None for want of memory.
fn count(alloc: Global, lists: u32) -> Option<Counted>
    requires some_list { 1 ≤ lists }
    requires few_lists { lists ≤ 4096 }
{
    let Ok(shape) = Shape::new(1, BATCHES, 4) else {
        return None;
    };
    let Ok((pool, mut passes)) = Pool::open(alloc, &shape) else {
        return None;
    };
    let Ok(mut wheel) = Wheel::open(alloc, lists, TIMERS) else {
        return None;
    };
    let mut keys = Vec::with_capacity(alloc, TIMERS as usize).ok()?;
    let mut out = vec![in alloc; 0; TIMERS as usize].ok()?;
    let pass = &mut passes[0];
    let start = start_all(&pool, pass, &mut wheel, &mut keys)?;
    let tick = tick(&pool, pass, &mut wheel, out.as_mut_slice())?;
    let middle = *keys.get(TIMERS as usize / 2)?;
    let (stop, search) = stop_two(&pool, pass, &mut wheel, middle)?;
    Some(Counted {
        start,
        tick,
        stop,
        search,
    })
}

fn main(rt: HostRuntime) -> io::Result<ExitCode> {
    println!(rt; "lists, start, tick, stop, stop with another place")?;
    for lists in [LISTS, 1] {
        let Some(counted) = count(rt.alloc(), lists) else {
            return Ok(ExitCode::FAILURE);
        };
        let Counted {
            start,
            tick,
            stop,
            search,
        } = counted;
        println!(rt; "{lists}, {start}, {tick}, {stop}, {search}")?;
    }
    Ok(ExitCode::SUCCESS)
}
