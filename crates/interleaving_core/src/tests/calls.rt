use super::{event, whole_call};
use crate::{Call, CoreRun, Happened, Kind};
use pool_model::Entry;
use std::process::Abort;
use std::test::Fail;
use word_layout::{Shape, Wish};

/// A whole allocate of a process: the block that it got, if any, and how many steps it made.
fn allocate(rt: &impl Abort, run: &mut CoreRun, by: u32) -> (Option<u32>, u32) {
    let (happened, steps) = whole_call(rt, run, by, Call::Allocate);
    match happened {
        Happened::Ended {
            entry: Entry::Got { block, .. },
            ..
        } => (Some(block), steps),
        Happened::Ended {
            entry: Entry::Dry { .. },
            ..
        } => (None, steps),
        _ => panic!(rt; "{happened:?}"),
    }
}

/// By quantum: the blocks that the first allocates of one process get, and in how many steps.
#[test]
fn first_allocates(rt: HostRuntime) -> Result<(), Fail> {
    let cases: [(u32, &'static [(u32, u32)]); 2] = [
        (8, &[(0, 9), (1, 8), (2, 1), (3, 1), (36, 1)]),
        (16, &[(0, 16), (1, 1), (18, 1), (19, 16)]),
    ];
    for (quantum, rows) in cases {
        let shape = Shape::with_quantum(1, 10, 0, quantum)?;
        let mut run = CoreRun::open(rt.alloc(), &shape)?;
        for (block, steps) in rows {
            assert_eq!(rt;
                allocate(&rt, &mut run, 0),
                (Some(*block), *steps),
                "{quantum} {block}"
            );
        }
    }
    Ok(())
}

/// A search runs its own transfer to the end, and one that it meets; it makes none where none is due.
#[test]
fn searches(rt: HostRuntime) -> Result<(), Fail> {
    let shape = Shape::new(1, 10, 0)?;
    let mut run = CoreRun::open(rt.alloc(), &shape)?;
    let mut rows = [(0, 0); 4];
    for row in &mut rows {
        *row = search(&rt, &mut run, 0);
    }
    assert_eq!(rt; rows, [(0, 16), (1, 1), (2, 1), (3, 1)]);
    let mut run = CoreRun::open(rt.alloc(), &shape)?;
    assert_eq!(rt; allocate(&rt, &mut run, 0), (Some(0), 9));
    assert_eq!(rt; search(&rt, &mut run, 0), (1, 8));
    Ok(())
}

/// A whole search: the block that it got, and how many steps it made.
fn search(rt: &impl Abort, run: &mut CoreRun, by: u32) -> (u32, u32) {
    let (happened, steps) = whole_call(rt, run, by, Call::Search);
    match happened {
        Happened::Ended {
            entry: Entry::Got { block, .. },
            ..
        } => (block, steps),
        _ => panic!(rt; "{happened:?}"),
    }
}

/// Where nothing is in the stack, a process alone gets the blocks that it keeps at the opening, and no more.
#[test]
fn alone_until_dry(rt: HostRuntime) -> Result<(), Fail> {
    let shape = Shape::new(2, 4, 0)?;
    let mut run = CoreRun::open(rt.alloc(), &shape)?;
    for block in 0..12 {
        assert_eq!(rt; allocate(&rt, &mut run, 0).0, Some(block), "{block}");
    }
    assert_eq!(rt; allocate(&rt, &mut run, 0).0, None);
    Ok(())
}

/// How many blocks a process gets until it is refused.
fn gets(rt: &impl Abort, run: &mut CoreRun, by: u32) -> u32 {
    for got in 0..64 {
        if allocate(rt, run, by).0.is_none() {
            return got;
        }
    }
    panic!(rt; "{by} is never refused")
}

/// Process 0 makes so many steps of a take, and then none. It keeps its opening blocks, and one more batch as
/// soon as it has announced the take: the other process gets all others.
#[test]
fn beside_a_stopped_process(rt: HostRuntime) -> Result<(), Fail> {
    let shape = Shape::new(2, 6, 0)?;
    for steps in 0..=20 {
        let mut run = CoreRun::open(rt.alloc(), &shape)?;
        for _ in 0..steps {
            run.move_one(0, Wish::Take);
        }
        let kept = if steps == 0 { 12 } else { 18 };
        let got = gets(&rt, &mut run, 1);
        let left = run.stack(rt.alloc())?.len();
        assert!(rt; run.shape().processes() > 0);
        assert_eq!(rt; (got, left, run.kept(0)), (36 - kept, 0, kept), "{steps}");
    }
    Ok(())
}

/// Data words of a block, from its allocate to its free, each call of one step.
#[test]
fn data_words(rt: HostRuntime) -> Result<(), Fail> {
    let shape = Shape::new(1, 10, 2)?;
    let mut run = CoreRun::open(rt.alloc(), &shape)?;
    for block in 0..3 {
        assert_eq!(rt; allocate(&rt, &mut run, 0).0, Some(block), "{block}");
    }
    let read = |block: u32, index: u32| Call::Read { block, index };
    let write = |block: u32, index: u32, value: u64| Call::Write {
        block,
        index,
        value,
    };
    let back = Happened::Ended {
        kind: Kind::K13,
        entry: Entry::Back { by: 0, block: 1 },
    };
    let rows = [
        (write(1, 0, 7), Happened::Stored),
        (write(1, 1, u64::MAX), Happened::Stored),
        (write(2, 0, 9), Happened::Stored),
        (read(1, 0), Happened::Loaded(7)),
        (read(1, 1), Happened::Loaded(u64::MAX)),
        (read(2, 0), Happened::Loaded(9)),
        (write(1, 0, 8), Happened::Stored),
        (read(1, 0), Happened::Loaded(8)),
        (read(1, 1), Happened::Loaded(u64::MAX)),
        (Call::Free { block: 1 }, back),
        (read(1, 0), Happened::Ignored),
        (write(1, 0, 7), Happened::Ignored),
        (read(2, 0), Happened::Loaded(9)),
    ];
    for (row, (call, expected)) in rows.into_iter().enumerate() {
        let (happened, _) = whole_call(&rt, &mut run, 0, call);
        assert_eq!(rt; happened, expected, "{row} {call:?}");
    }
    Ok(())
}
