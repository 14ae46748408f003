// Searches: whole transfers, and a refusal of its own moment.
use super::event;
use crate::{Call, CallStage, CoreRun, Happened};
use pool_model::Entry;
use std::process::Abort;
use std::test::Fail;
use transfer_schedule::Pending;
use word_layout::{Shape, Wish};

/// Goes on with a call of a process to its end: what happened in the last step, and how many steps it made.
fn finish(rt: &impl Abort, run: &mut CoreRun, by: u32, call: Call) -> (Happened, u32) {
    for steps in 1..=200 {
        let happened = event(rt, run, by, call);
        if !matches!(happened, Happened::Step(_)) {
            return (happened, steps);
        }
    }
    panic!(rt; "{by} {call:?} doesn't end")
}

/// The block that a whole search gets, if any.
fn search(rt: &impl Abort, run: &mut CoreRun, by: u32) -> Option<u32> {
    match finish(rt, run, by, Call::Search).0 {
        Happened::Ended {
            entry: Entry::Got { block, .. },
            ..
        } => Some(block),
        Happened::Ended {
            entry: Entry::Dry { .. },
            ..
        } => None,
        happened => panic!(rt; "{happened:?}"),
    }
}

/// One process with two batches: once it holds all eight blocks a search is refused, and then gets the one given back.
#[test]
fn refused_where_it_holds_all(rt: HostRuntime) -> Result<(), Fail> {
    let mut run = CoreRun::open(rt.alloc(), &Shape::new(1, 2, 0)?)?;
    for block in 0..8 {
        let (happened, _) = finish(&rt, &mut run, 0, Call::Allocate);
        assert!(rt;
            matches!(
                happened,
                Happened::Ended {
                    entry: Entry::Got { .. },
                    ..
                }
            ),
            "{block}: {happened:?}"
        );
        assert_eq!(rt; super::holder(&rt, &run, block), Some(0), "{block}");
    }
    assert_eq!(rt; search(&rt, &mut run, 0), None);
    let (happened, _) = finish(&rt, &mut run, 0, Call::Free { block: 7 });
    assert!(rt; matches!(happened, Happened::Ended { .. }), "{happened:?}");
    assert_eq!(rt; search(&rt, &mut run, 0), Some(7));
    Ok(())
}

/// Which transfer a search meets.
#[derive(Clone, Copy, Debug, PartialEq, Eq)]
enum Met {
    /// A take that finds a batch.
    Take,
    /// A take that finds none.
    EmptyTake,
    /// A give.
    Give,
}

/// What is pending of process 0, and how many of its steps are made.
fn pending(rt: &impl Abort, run: &CoreRun) -> (Pending, u32) {
    assert!(rt; run.shape().processes() > 0);
    let plan = &run.view(0).pool.plan;
    (plan.pending(), plan.done())
}

/// Makes calls of one step of the transfer each until that has made so many; whether it lasts so long.
fn bring_to(rt: &impl Abort, run: &mut CoreRun, met: Met, steps: u32) -> bool {
    let wish = if met == Met::Give {
        Pending::Giving
    } else {
        Pending::Taking
    };
    let mut begun = false;
    for call in 0..200 {
        let (what, done) = pending(rt, run);
        if begun && what != wish {
            return false;
        }
        if what == wish {
            begun = true;
            if done == steps {
                return true;
            }
        }
        // Of a give, first the blocks for it, then their frees.
        let next = if met == Met::Give && call >= 60 {
            Call::Free {
                block: first_held(rt, run),
            }
        } else {
            Call::Allocate
        };
        let (happened, _) = finish(rt, run, 0, next);
        assert!(rt;
            matches!(happened, Happened::Ended { .. }),
            "{met:?} {steps}: {happened:?}"
        );
    }
    panic!(rt; "{met:?} doesn't reach {steps}")
}

/// The first block that process 0 holds.
fn first_held(rt: &impl Abort, run: &CoreRun) -> u32 {
    for block in 0..run.shape().blocks() {
        if run.holder(block) == Some(0) {
            return block;
        }
    }
    panic!(rt; "nothing is held")
}

/// A search that meets a transfer at any of its steps ends within two transfers and its own step, also beside a process that
/// has stopped in a transfer of its own.
#[test]
fn meets_a_transfer_at_each_step(rt: HostRuntime) -> Result<(), Fail> {
    let cases = [
        (Met::Take, 1, 8, 0),
        (Met::EmptyTake, 1, 2, 0),
        (Met::Give, 1, 8, 0),
        (Met::Take, 2, 8, 7),
        (Met::EmptyTake, 2, 4, 7),
        (Met::Give, 2, 8, 7),
    ];
    for (met, processes, batches, stopped) in cases {
        let bound = 16 * processes + 15;
        let mut reached = 0;
        for steps in 1..=bound {
            let mut run = CoreRun::open(
                rt.alloc(),
                &Shape::with_quantum(processes, batches, 0, 1)?,
            )?;
            for _ in 0..stopped {
                run.move_one(1, Wish::Take);
            }
            if !bring_to(&rt, &mut run, met, steps) {
                break;
            }
            reached = steps;
            let (happened, made) = finish(&rt, &mut run, 0, Call::Search);
            assert!(rt;
                matches!(
                    happened,
                    Happened::Ended {
                        entry: Entry::Got { .. },
                        ..
                    }
                ),
                "{met:?} {processes} {steps}: {happened:?}"
            );
            assert!(rt;
                made <= 2 * bound + 1,
                "{met:?} {processes} {steps}: {made}"
            );
            assert!(rt; run.shape().processes() > 0);
            assert_eq!(rt; run.view(0).calls.stage, CallStage::Between);
        }
        assert!(rt; reached >= 13, "{met:?} {processes}: {reached}");
    }
    Ok(())
}
