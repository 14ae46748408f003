// The turns of one process.
ghost use Rattle.std.specs.Prelude.{◌≡◌, ℕ, ◌<◌, None, IfOk, length, replicate};
ghost use Rattle.block_pool.specs.Passing.{HasAge, IsOf};
ghost use Rattle.block_pool.specs.Calls.{SamePass, Entered, WasFree, entry_of};
ghost use Rattle.block_pool.specs.declared.pool.Answer.TheVariants.{Got};
ghost use Rattle.pool_stress.specs.Calling.{HasRoom, MayCall};
ghost use Rattle.pool_stress.specs.Slots.{SlotsFit};

use crate::owners::Owners;
use crate::places::Places;
use crate::stopping::{Call, Stop, Stopping};
use block_pool::{Answer, Block, Pass, Pool};
use pool_model::NoMemory;
use std::alloc::Global;
use step_counter::{Kept, Ledger, Steps};
use word_layout::Shape;

/// What each process is to do.
#[derive(Clone, Copy)]
pub(crate) struct Work<'a> {
    pub(crate) alloc: Global,
    /// How many calls it makes.
    pub(crate) calls: u32,
    /// Makes the first process's places; those of each further one are made by the next number.
    pub(crate) seed: u64,
    pub(crate) owners: &'a Owners,
    /// Where the first processes stop. Each further one waits for that in the middle of its calls.
    pub(crate) stops: &'a [Stop],
}

/// So many slots without a block.
fn empty_slots(alloc: Global, count: u32) -> Result<Vec<Option<Block>>, NoMemory>
    ensures { IfOk result (λ slots. slots.items ≡ replicate count None) }
{
    let mut slots = Vec::with_capacity(alloc, count as usize)?;
    for _place in 0..count {
        slots.push(None)?;
    }
    Ok(slots)
}

/// Which call a process makes at a slot: it frees the block there, or gets one, by a search if it is to and may.
fn call_at(pass: &Pass, shape: &Shape, filled: bool, searches: bool) -> Call
    requires { shape.now ≡ pass.now.sizes }
    ensures { MayCall result pass.now }
{
    if filled {
        Call::Free
    } else if searches && pass.age() < shape.most_age() {
        Call::Search
    } else {
        Call::Allocate
    }
}

/// Gets a block by this call, which frees none.
fn get<L: Ledger>(pool: &Pool, pass: &mut Pass, call: Call, steps: &mut Steps<L>) -> Answer
    requires pool { IsOf pool.now pass.old }
    requires young { HasAge pass.old }
    requires call { MayCall call pass.old }
    requires room { HasRoom pass.old.sizes steps.old }
    ensures pass { SamePass pass.old pass.new }
    ensures entry { Entered (entry_of pass.old.number result) pass.old pass.new }
    ensures free { (block : ℕ) → result ≡ Got block → WasFree block pass.old pass.new }
{
    match call {
        Call::Search => pool.search(pass, steps),
        Call::Allocate | Call::Free => pool.allocate(pass, steps),
    }
}

/// Frees the block of a slot, or gets one into it where it has none. The owners hear of it.
fn turn<L: Ledger>(
    pool: &Pool,
    pass: &mut Pass,
    slots: &mut [Option<Block>],
    place: usize,
    call: Call,
    owners: &Owners,
    steps: &mut Steps<L>,
)
    requires pool { IsOf pool.now pass.old }
    requires young { HasAge pass.old }
    requires call { MayCall call pass.old }
    requires room { HasRoom pass.old.sizes steps.old }
    requires place { place < length slots.old }
    requires slots { SlotsFit pass.old.held slots.old }
    ensures pass { SamePass pass.old pass.new }
    ensures slots { SlotsFit pass.new.held slots.new }
{
    let owner = u64::from(pass.number()) + 1;
    match slots[place].take() {
        Some(block) => {
            owners.give(block.number(), owner);
            pool.free(pass, block, steps);
        }
        None => match get(pool, pass, call, steps) {
            Answer::Got(block) => {
                owners.get(block.number(), owner);
                slots[place] = Some(block);
            }
            Answer::Dry => owners.refuse(),
        },
    }
}

/// The same, and looks how many steps it took, also of a process that stops at one of them.
fn turn_slot(
    pool: &Pool,
    pass: &mut Pass,
    slots: &mut [Option<Block>],
    place: usize,
    searches: bool,
    owners: &Owners,
    stop: Option<&Stop>,
)
    requires pool { IsOf pool.now pass.old }
    requires young { HasAge pass.old }
    requires place { place < length slots.old }
    requires slots { SlotsFit pass.old.held slots.old }
    ensures pass { SamePass pass.old pass.new }
    ensures slots { SlotsFit pass.new.held slots.new }
{
    let shape = pool.shape();
    let _processes = shape.processes();
    let _quantum = shape.quantum();
    let call = call_at(pass, shape, slots[place].is_some(), searches);
    if matches!(call, Call::Search) {
        owners.search();
    }
    let most = call.most_steps(shape);
    match stop {
        Some(stop) => {
            let before = stop.begin(call);
            let mut steps = Steps::new(Stopping::new(stop));
            turn(pool, pass, slots, place, call, owners, &mut steps);
            owners.time(stop.end(before), most);
        }
        None => {
            let mut steps = Steps::new(Kept::new());
            turn(pool, pass, slots, place, call, owners, &mut steps);
            owners.time(steps.count(), most);
        }
    }
}

/// Waits until each process that is to stop has stopped, or has made all its calls.
fn await_each(stops: &[Stop]) {
    for stop in stops.iter() {
        stop.await_halt();
    }
}

/// Turns slots at random, again and again.
fn turn_slots(
    pool: &Pool,
    pass: &mut Pass,
    slots: &mut [Option<Block>],
    work: Work<'_>,
    stop: Option<&Stop>,
)
    requires pool { IsOf pool.now pass.old }
    requires some { 0 < length slots.old }
    requires slots { SlotsFit pass.old.held slots.old }
    ensures { SamePass pass.old pass.new }
{
    let mut places = Places::new(work.seed.wrapping_add(u64::from(pass.number())));
    for call in 0..work.calls {
        if !pass.has_age() {
            return;
        }
        if stop.is_none() && call == work.calls / 2 {
            await_each(work.stops);
        }
        let place = places.next(slots.len());
        let searches = places.searches();
        turn_slot(pool, pass, slots, place, searches, work.owners, stop);
    }
}

/// The calls of one process. It has slots for two of its parts of the blocks, so that all of them often want more than there are.
pub(crate) fn play(pool: &Pool, pass: &mut Pass, work: Work<'_>, stop: Option<&Stop>)
    requires { IsOf pool.now pass.old }
    ensures { SamePass pass.old pass.new }
{
    let count = 2 * (pool.shape().blocks() / pool.shape().processes()) + 1;
    match empty_slots(work.alloc, count) {
        Ok(mut slots) => turn_slots(pool, pass, slots.as_mut_slice(), work, stop),
        Err(NoMemory) => work.owners.err(),
    }
    if let Some(stop) = stop {
        stop.leave();
    }
}

/// Allocates a block that is kept. Whether there was one.
fn keep(pool: &Pool, pass: &mut Pass, owners: &Owners) -> bool
    requires pool { IsOf pool.now pass.old }
    requires young { HasAge pass.old }
    ensures pass { SamePass pass.old pass.new }
{
    let shape = pool.shape();
    let _quantum = shape.quantum();
    let most = Call::Allocate.most_steps(shape);
    let owner = u64::from(pass.number()) + 1;
    let mut steps = Steps::new(Kept::new());
    let answer = pool.allocate(pass, &mut steps);
    owners.time(steps.count(), most);
    match answer {
        Answer::Got(block) => {
            owners.get(block.number(), owner);
            true
        }
        Answer::Dry => false,
    }
}

/// Allocates and keeps what it gets, until it is refused in each of so many calls that its transfers have ended.
pub(crate) fn drain(pool: &Pool, pass: &mut Pass, owners: &Owners)
    requires { IsOf pool.now pass.old }
    ensures { SamePass pass.old pass.new }
{
    let enough = 2 * pool.shape().length();
    let mut refused = 0u32;
    for _call in 0..u32::MAX {
        if refused >= enough || !pass.has_age() {
            return;
        }
        let got = keep(pool, pass, owners);
        refused = if got { 0 } else { refused + 1 };
    }
}
