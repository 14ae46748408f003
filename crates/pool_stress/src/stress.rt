// All processes of a pool, side by side.
ghost use Rattle.std.specs.Prelude.{All};
ghost use Rattle.block_pool.specs.Passing.{IsOf};
ghost use Rattle.pool_stress.specs.Order.{StayInOrder};

use crate::owners::Owners;
use crate::settings::Settings;
use crate::stopping::Stop;
use crate::turns::{Work, drain, play};
use block_pool::{Pass, Pool};
use pool_model::NoMemory;
use std::alloc::Global;
use std::thread;
use std::thread::{Threads, join_mut};
use word_layout::Shape;

#[cfg(test)]
mod tests;

/// What was seen. The first five numbers are to be 0.
#[derive(Clone, Copy)]
pub(crate) struct Report {
    /// How many blocks went to a second owner, or weren't of the pool.
    pub(crate) wrong: u64,
    /// How many calls took more steps than they may.
    pub(crate) long: u64,
    /// How many blocks nobody could get, beside the five batches that each stopped process may withhold.
    pub(crate) lost: u64,
    /// By how much the blocks that the closed pool counts are others than those that have an owner.
    pub(crate) miscounted: u64,
    /// How many stopped processes went on before the others were done.
    pub(crate) late: u64,
    /// How many allocates and searches were refused.
    pub(crate) refused: u64,
    /// How many searches there were.
    pub(crate) searched: u64,
}

impl Report {
    /// Whether nothing was seen that mustn't be.
    pub(crate) fn is_clean(&self) -> bool {
        self.wrong == 0
            && self.long == 0
            && self.lost == 0
            && self.miscounted == 0
            && self.late == 0
    }
}

/// The processes of these passes play, each on a thread of its own where one can be had, and those that have a stop do.
fn play_each<R: Threads + Sync>(
    rt: &R,
    pool: &Pool,
    work: Work<'_>,
    stops: &[Stop],
    passes: &mut [Pass],
)
    requires { All (IsOf pool.now) passes.old }
    ensures { StayInOrder passes.old passes.new }
{
    let threads = passes.len().max(1);
    thread::for_each_mut(
        rt,
        passes,
        threads,
        &|place, pass| { play(pool, pass, work, stops.get(place)) },
    );
}

/// One process after the other gets all blocks that it can.
fn drain_once<R: Threads + Sync>(rt: &R, pool: &Pool, owners: &Owners, passes: &mut [Pass])
    requires { All (IsOf pool.now) passes.old }
    ensures { StayInOrder passes.old passes.new }
{
    thread::for_each_mut(rt, passes, 1, &|_, pass| drain(pool, pass, owners));
}

/// One process after the other gets all blocks that it can, and so twice, since a transfer that is pending when its process
/// is done may take a batch for it that a later one gives.
fn drain_each<R: Threads + Sync>(rt: &R, pool: &Pool, owners: &Owners, passes: &mut [Pass])
    requires { All (IsOf pool.now) passes.old }
    ensures { StayInOrder passes.old passes.new }
{
    drain_once(rt, pool, owners, passes);
    drain_once(rt, pool, owners, passes);
}

/// How many blocks these processes may withhold at most, while they have stopped.
fn withheld(shape: &Shape, stops: &[Stop]) -> u64 {
    let mut blocks = 0u64;
    for stop in stops.iter() {
        blocks = blocks.saturating_add(5 * u64::from(shape.length()) + u64::from(stop.frees()));
    }
    blocks
}

/// These processes play and then get all blocks that they can, while others have stopped, which may go on then. How many
/// blocks nobody could get, beside those that the stopped ones may withhold.
fn play_beside<R: Threads + Sync>(rt: &R, pool: &Pool, work: Work<'_>, passes: &mut [Pass]) -> u64
    requires { All (IsOf pool.now) passes.old }
    ensures { StayInOrder passes.old passes.new }
{
    play_each(rt, pool, work, &[], passes);
    drain_each(rt, pool, work.owners, passes);
    let may_withhold = withheld(&pool.shape(), work.stops);
    let lost = work.owners.ownerless().saturating_sub(may_withhold);
    for stop in work.stops.iter() {
        stop.release();
    }
    lost
}

/// Some processes play, and stop at one of their steps until the others are done. How many blocks were lost to these.
fn play_both<R: Threads + Sync>(
    rt: &R,
    pool: &Pool,
    work: Work<'_>,
    stopping: &mut [Pass],
    others: &mut [Pass],
) -> u64
    requires stopping { All (IsOf pool.now) stopping.old }
    requires others { All (IsOf pool.now) others.old }
    ensures stopping { StayInOrder stopping.old stopping.new }
    ensures others { StayInOrder others.old others.new }
{
    let (_, lost) = join_mut(
        rt,
        &mut ||
            requires { All (IsOf pool.now) stopping.now }
        { play_each(rt, pool, work, work.stops, stopping) },
        &mut ||
            requires { All (IsOf pool.now) others.now }
        { play_beside(rt, pool, work, others) },
    );
    lost
}

/// All processes play, and then get all blocks that there are. How many were lost to those that went on while the first ones,
/// one for each stop, had stopped.
fn play_and_drain<R: Threads + Sync>(
    rt: &R,
    pool: &Pool,
    work: Work<'_>,
    passes: &mut [Pass],
) -> u64
    requires { All (IsOf pool.now) passes.old }
    ensures { StayInOrder passes.old passes.new }
{
    let (stopping, others) = passes.split_at_mut(work.stops.len().min(passes.len()));
    let lost = play_both(rt, pool, work, stopping, others);
    drain_each(rt, pool, work.owners, passes);
    lost
}

/// Plays as the settings say, with these stops. In the end the processes get all blocks that there are. `Err` for want of
/// memory only.
pub(crate) fn stress<R: Threads + Sync>(
    rt: &R,
    alloc: Global,
    settings: &Settings,
    stops: &[Stop],
) -> Result<Report, NoMemory> {
    let shape = settings.shape;
    let (pool, mut passes) = Pool::open(alloc, &shape)?;
    let owners = Owners::of_none(alloc, shape.blocks(), settings.lie)?;
    let work = Work {
        alloc,
        calls: settings.calls,
        seed: settings.seed,
        owners: &owners,
        stops,
    };
    let lost = play_and_drain(rt, &pool, work, passes.as_mut_slice());
    let settled = pool.finish(passes);
    Ok(reported(&owners, stops, lost, settled.held()))
}

/// What was seen, where so many blocks were lost beside stopped processes and the closed pool counts so many that are held.
fn reported(owners: &Owners, stops: &[Stop], lost: u64, held: u32) -> Report {
    let left = owners.ownerless();
    Report {
        wrong: owners.wrong(),
        long: owners.long(),
        lost: lost.max(left),
        miscounted: owners.owned().abs_diff(u64::from(held)),
        late: stops.iter().filter(|stop| stop.was_late()).count() as u64,
        refused: owners.refused(),
        searched: owners.searched(),
    }
}
