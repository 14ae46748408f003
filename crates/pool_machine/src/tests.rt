// Calls of one process, step by step.
ghost use Rattle.pool_machine.specs.Ready.{PlanFits};

use crate::{
    Call, CallStage, Happened, Phase, ProcessView, Way, begin_call, begin_transfer, can_begin,
    can_step_call, may_call, may_move, step_call, step_words,
};
use pool_model::Entry;
use std::process::Abort;
use std::test::Fail;
use transfer_machine::{Kind, Stage, can_step, opening_words};
use word_layout::{Shape, Wish};

/// A whole call, what happens in its last step, and how many steps it takes.
type Row = (Call, Happened, u32);

/// An allocate that gets this block.
fn got(block: u32, steps: u32) -> Row {
    let entry = Entry::Got { by: 0, block };
    (Call::Allocate, ended(Kind::K12, entry), steps)
}

/// An allocate that is refused.
fn dry(steps: u32) -> Row {
    (
        Call::Allocate,
        ended(Kind::K14, Entry::Dry { by: 0 }),
        steps,
    )
}

/// A free of this block.
fn back(block: u32, steps: u32) -> Row {
    let entry = Entry::Back { by: 0, block };
    (Call::Free { block }, ended(Kind::K13, entry), steps)
}

fn ended(kind: Kind, entry: Entry) -> Happened {
    Happened::Ended { kind, entry }
}

/// Makes one step of a call.
fn step(rt: &impl Abort, shape: &Shape, words: &mut [u64], view: &mut ProcessView) -> Happened
    requires { PlanFits shape.now view.old.pool.plan }
    ensures { PlanFits shape.now view.new.pool.plan }
{
    assert!(rt; view.calls.stage != CallStage::Between);
    assert!(rt; can_step_call(words, view, shape));
    step_call(words, view, shape)
}

/// Begins a call of a held block.
#[tactic(auto, using(crate::proofs::Plans::begun_fits))]
fn begin(rt: &impl Abort, shape: &Shape, view: &mut ProcessView, call: Call)
    requires { PlanFits shape.now view.old.pool.plan }
    ensures { PlanFits shape.now view.new.pool.plan }
{
    assert!(rt; may_call(view, shape, call, true) && can_begin(view));
    begin_call(view, call);
}

/// Makes a whole call, and answers what happened in its last step and how many steps it took.
fn make(
    rt: &impl Abort,
    shape: &Shape,
    words: &mut [u64],
    view: &mut ProcessView,
    call: Call,
) -> (Happened, u32)
    requires { PlanFits shape.now view.old.pool.plan }
    ensures { PlanFits shape.now view.new.pool.plan }
{
    begin(rt, shape, view, call);
    for steps in 1..18 {
        let happened = step(rt, shape, words, view);
        if view.calls.stage == CallStage::Between {
            return (happened, steps);
        }
    }
    (Happened::Ignored, 0)
}

/// Makes the calls of the rows from the opening words, all of process 0.
#[tactic(auto, using(crate::proofs::Plans::opening_fits))]
fn play(rt: &impl Abort, shape: &Shape, words: &mut [u64], rows: &[Row]) {
    prove!(shape.processes() >= 1);
    let mut view = ProcessView::open(shape, 0);
    for (call, happened, steps) in rows {
        let made = make(rt, shape, words, &mut view, *call);
        assert_eq!(rt; made, (*happened, *steps), "{call:?}");
    }
}

// A take of 15 steps is made in the first two calls. Its batch is used before the opening spare.
#[test]
fn allocates_and_frees(rt: HostRuntime) -> Result<(), Fail> {
    let shape = Shape::new(1, 10, 0)?;
    let mut words = opening_words(rt.alloc(), &shape)?;
    let rows = [
        got(0, 9),
        got(1, 8),
        got(2, 1),
        got(3, 1),
        got(36, 1),
        back(2, 9),
        got(2, 8),
        got(37, 1),
    ];
    play(&rt, &shape, &mut words, &rows);
    Ok(())
}

// With a quantum of 16 a batch has two blocks, and each take is made in one call.
#[test]
fn allocates_with_a_large_quantum(rt: HostRuntime) -> Result<(), Fail> {
    let shape = Shape::with_quantum(1, 10, 0, 16)?;
    let mut words = opening_words(rt.alloc(), &shape)?;
    let rows = [got(0, 16), got(1, 1), got(18, 1), got(19, 16)];
    play(&rt, &shape, &mut words, &rows);
    Ok(())
}

// Each take finds nothing at its 14th step; the ninth allocate is refused in the middle of one. The blocks that
// come back form a fresh list where the current one is full.
#[test]
fn an_empty_stack(rt: HostRuntime) -> Result<(), Fail> {
    let shape = Shape::new(1, 2, 0)?;
    let mut words = opening_words(rt.alloc(), &shape)?;
    let rows = [
        got(0, 9),
        got(1, 7),
        got(2, 9),
        got(3, 7),
        got(4, 9),
        got(5, 7),
        got(6, 9),
        got(7, 7),
        dry(9),
        back(7, 7),
        back(3, 9),
        back(0, 7),
        back(5, 9),
        back(1, 7),
        got(1, 9),
        got(5, 7),
        got(0, 9),
    ];
    play(&rt, &shape, &mut words, &rows);
    Ok(())
}

// A data word is read as it was last written, whatever the process has pending.
#[test]
fn reads_and_writes(rt: HostRuntime) -> Result<(), Fail> {
    let shape = Shape::new(1, 10, 2)?;
    let mut words = opening_words(rt.alloc(), &shape)?;
    let read = |index| Call::Read { block: 0, index };
    let write = |index, value| Call::Write {
        block: 0,
        index,
        value,
    };
    let rows = [
        got(0, 9),
        (read(1), Happened::Loaded(0), 1),
        (write(1, 7), Happened::Stored, 1),
        (write(0, u64::MAX), Happened::Stored, 1),
        (read(1), Happened::Loaded(7), 1),
        (read(0), Happened::Loaded(u64::MAX), 1),
        got(1, 8),
    ];
    play(&rt, &shape, &mut words, &rows);
    Ok(())
}

#[test]
fn ways(rt: HostRuntime) -> Result<(), Fail> {
    let shape = Shape::new(1, 10, 2)?;
    let mut view = ProcessView::open(&shape, 0);
    let read = |index| Call::Read { block: 0, index };
    let cases = [
        (Call::Allocate, false, true),
        (Call::Free { block: 0 }, false, false),
        (Call::Free { block: 0 }, true, true),
        (read(1), true, true),
        (read(2), true, false),
        (read(1), false, false),
    ];
    for (call, holds, may) in &cases {
        assert!(rt;
            may_call(&view, &shape, *call, *holds) == *may,
            "{call:?} {holds}"
        );
    }
    assert!(rt; may_move(&view) && view.calls.way == Way::Fresh);
    begin_transfer(&mut view, Wish::Take);
    assert!(rt; may_move(&view) && !may_call(&view, &shape, Call::Allocate, true));
    Ok(())
}

// The last transfer that the age leaves room for runs to its end, and calls with nothing due go on. Then a take is due: what may
// begin one can't be called any more.
#[test]
#[tactic(auto, using(crate::proofs::Plans::opening_fits))]
fn at_the_ages_end(rt: HostRuntime) -> Result<(), Fail> {
    let shape = Shape::new(1, 10, 1)?;
    let mut words = opening_words(rt.alloc(), &shape)?;
    let mut view = ProcessView::open(&shape, 0);
    view.transfer.age = shape.most_age() - 1;
    let rows = [got(0, 9), got(1, 8), got(2, 1), got(3, 1), got(36, 1)];
    for (call, happened, steps) in rows {
        let made = make(&rt, &shape, &mut words, &mut view, call);
        assert_eq!(rt; made, (happened, steps), "{call:?}");
        assert_eq!(rt; view.transfer.age, shape.most_age(), "{call:?}");
    }
    let cases = [
        (Call::Allocate, false),
        (Call::Free { block: 0 }, false),
        (Call::Search, false),
        (Call::Read { block: 0, index: 0 }, true),
    ];
    for (call, may) in &cases {
        assert!(rt; may_call(&view, &shape, *call, true) == *may, "{call:?}");
    }
    Ok(())
}

// A transfer that was begun outside any call goes on by its own steps.
#[test]
fn a_transfer_alone(rt: HostRuntime) -> Result<(), Fail> {
    let shape = Shape::new(1, 10, 0)?;
    let mut words = opening_words(rt.alloc(), &shape)?;
    let mut view = ProcessView::open(&shape, 0);
    assert_eq!(rt; (view.phase(), view.waiting()), (Phase::Between, None));
    begin_transfer(&mut view, Wish::Take);
    assert_eq!(rt; view.calls.way, Way::Alone);
    let announce = Stage {
        turn: 0,
        kind: Kind::K1,
        index: 0,
    };
    assert_eq!(rt;
        (view.phase(), view.waiting()),
        (Phase::Moving(announce), None)
    );
    assert!(rt; can_step(&words, &view.transfer, &shape));
    assert_eq!(rt; step_words(&mut words, &mut view, &shape), Kind::K1);
    let announcement = words.get(1).copied();
    assert_eq!(rt; (announcement, view.pool.plan.done()), (Some(1 << 24), 1));
    let load = Stage {
        turn: 1,
        kind: Kind::K2,
        index: 0,
    };
    assert_eq!(rt; view.phase(), Phase::Moving(load));
    Ok(())
}

// Between two calls a pending transfer waits.
#[test]
fn waiting(rt: HostRuntime) -> Result<(), Fail> {
    let shape = Shape::new(1, 10, 0)?;
    let mut words = opening_words(rt.alloc(), &shape)?;
    let mut view = ProcessView::open(&shape, 0);
    make(&rt, &shape, &mut words, &mut view, Call::Allocate);
    assert_eq!(rt; view.phase(), Phase::Between);
    assert!(rt; view.waiting().is_some() && !may_move(&view));
    Ok(())
}
