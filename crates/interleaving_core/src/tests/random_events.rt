use super::{event, holder, next_number};
use crate::{Call, CallStage, CoreRun, Event, Happened};
use pool_model::Entry;
use std::alloc::Global;
use std::process::Abort;
use std::test::Fail;
use word_layout::Shape;

/// No pool here has more blocks.
const MOST_BLOCKS: u32 = 96;

/// A plain set of held blocks: who holds each block, and the data word that was last written to it since.
#[derive(Debug, Drop)]
struct Held {
    holders: Vec<Option<u32>>,
    values: Vec<Option<u64>>,
}

/// Who holds a block by the set, if anyone.
fn held_by(held: &Held, block: u32) -> Option<u32> {
    held.holders.get(block as usize).copied().flatten()
}

/// A block is handed over, and nothing is known of its data word.
fn hand_over(rt: &impl Abort, held: &mut Held, block: u32, to: Option<u32>) {
    let place = block as usize;
    assert!(rt;
        place < held.holders.len() && place < held.values.len(),
        "{block}"
    );
    held.holders[place] = to;
    held.values[place] = None;
}

/// How many blocks a process holds.
fn count_of(held: &Held, by: u32) -> usize {
    held.holders
        .iter()
        .filter(|holder| **holder == Some(by))
        .count()
}

/// Whether a process may begin this call.
fn may_begin(held: &Held, event: Event) -> bool {
    match event.call {
        Call::Allocate | Call::Search => true,
        Call::Free { block } | Call::Read { block, .. } | Call::Write { block, .. } => {
            held_by(held, block) == Some(event.by)
        }
    }
}

/// Enters what happened in a step of this call of a process, and says whether it may happen. An allocate answers
/// a block that nobody holds; a process is refused only where it holds two batches or more; a read answers what
/// was last written.
fn enter(rt: &impl Abort, held: &mut Held, length: u32, event: Event, happened: Happened) -> bool {
    let by = event.by;
    match (event.call, happened) {
        (Call::Allocate | Call::Free { .. } | Call::Search, Happened::Step(_)) => true,
        (
            Call::Allocate | Call::Search,
            Happened::Ended {
                entry: Entry::Got { by: to, block },
                ..
            },
        ) => {
            let unheld = held_by(held, block).is_none();
            hand_over(rt, held, block, Some(by));
            to == by && unheld
        }
        (
            Call::Allocate | Call::Search,
            Happened::Ended {
                entry: Entry::Dry { by: to },
                ..
            },
        ) => { to == by && count_of(held, by) >= 2 * length as usize }
        (
            Call::Free { block },
            Happened::Ended {
                entry: Entry::Back {
                    by: from,
                    block: back,
                },
                ..
            },
        ) => {
            hand_over(rt, held, block, None);
            from == by && back == block
        }
        (Call::Read { block, .. }, Happened::Loaded(value)) => {
            let known = held.values.get(block as usize).copied().flatten();
            known.is_none() || known == Some(value)
        }
        (Call::Write { block, value, .. }, Happened::Stored) => {
            let place = block as usize;
            assert!(rt; place < held.values.len());
            held.values[place] = Some(value);
            true
        }
        _ => false,
    }
}

/// Whether the run says of each block the same holder as the set.
fn agree(rt: &impl Abort, run: &CoreRun, held: &Held) -> bool {
    for block in 0..run.shape().blocks() {
        if holder(rt, run, block) != held_by(held, block) {
            return false;
        }
    }
    true
}

/// A block that a process holds, the first from a random one on; or that random one.
fn some_block(held: &Held, by: u32, seed: &mut u32) -> u32 {
    let first = next_number(seed) % MOST_BLOCKS;
    for offset in 0..MOST_BLOCKS {
        let block = (first + offset) % MOST_BLOCKS;
        if held_by(held, block) == Some(by) {
            return block;
        }
    }
    first
}

/// A random event of one of three processes, mostly an allocate or a free, and the more frees where `frees` says so.
/// Some name a block that the process doesn't hold.
fn some_event(held: &Held, frees: bool, seed: &mut u32) -> Event {
    let by = next_number(seed) % 3;
    let block = some_block(held, by, seed);
    let call = match next_number(seed) % 16 {
        0 => Call::Read { block, index: 0 },
        1 => Call::Write {
            block,
            index: 0,
            value: u64::from(*seed),
        },
        2 => Call::Free {
            block: next_number(seed) % MOST_BLOCKS,
        },
        3 => Call::Search,
        number if (number < 6) != frees => Call::Free { block },
        _ => Call::Allocate,
    };
    Event { by, call }
}

/// Counts what happened, by its form: got, back, dry, loaded, stored, ignored.
fn note(counts: &mut [u32; 6], happened: Happened) {
    let form = match happened {
        Happened::Step(_) => return,
        Happened::Ended { entry, .. } => match entry {
            Entry::Got { .. } => 0,
            Entry::Back { .. } => 1,
            Entry::Dry { .. } => 2,
        },
        Happened::Loaded(_) => 3,
        Happened::Stored => 4,
        Happened::Ignored => 5,
    };
    counts[form] = counts[form].saturating_add(1);
}

/// Three processes make calls at random, for a while mostly allocates and for a while mostly frees, and each
/// answer is held against a plain set of held blocks.
fn make_events(
    rt: &impl Abort,
    alloc: Global,
    shape: &Shape,
    counts: &mut [u32; 6],
) -> Result<(), Fail> {
    let mut run = CoreRun::open(alloc, shape)?;
    let mut held = Held {
        holders: vec![in alloc; None; shape.blocks() as usize]?,
        values: vec![in alloc; None; shape.blocks() as usize]?,
    };
    let mut begun = [Call::Allocate; 3];
    let mut seed = 1;
    for count in 0..10000 {
        let next = some_event(&held, (count >> 11) % 2 == 1, &mut seed);
        assert!(rt; next.by < 3 && next.by < run.shape().processes());
        let between = run.view(next.by).calls.stage == CallStage::Between;
        let happened = event(rt, &mut run, next.by, next.call);
        note(counts, happened);
        if between && !may_begin(&held, next) {
            assert_eq!(rt; happened, Happened::Ignored, "{shape:?} {count} {next:?}");
            continue;
        }
        if between {
            begun[next.by as usize] = next.call;
        }
        let made = Event {
            by: next.by,
            call: begun[next.by as usize],
        };
        let allowed = enter(rt, &mut held, shape.length(), made, happened);
        assert!(rt;
            allowed && agree(rt, &run, &held),
            "{shape:?} {count} {made:?}: {happened:?}"
        );
    }
    Ok(())
}

#[test]
fn random_events(rt: HostRuntime) -> Result<(), Fail> {
    let mut counts = [0; 6];
    for (batches, quantum) in [(6, 8), (12, 8), (12, 16)] {
        let shape = Shape::with_quantum(3, batches, 1, quantum)?;
        make_events(&rt, rt.alloc(), &shape, &mut counts)?;
    }
    assert!(rt; counts.iter().all(|count| *count >= 100), "{counts:?}");
    Ok(())
}
