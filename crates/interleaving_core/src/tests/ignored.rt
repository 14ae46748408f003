use super::{event, holder, whole_call, word};
use crate::{Call, CallView, CoreRun, Happened};
use pool_model::NoMemory;
use std::alloc::Global;
use std::process::Abort;
use std::test::Fail;
use word_layout::{Shape, Wish};

/// One turn of a process: a step of a transfer alone, or a step of a call.
#[derive(Clone, Copy, Debug)]
enum Turn {
    Moves(u32, Wish),
    Events(u32, Call),
}

fn make(rt: &impl Abort, run: &mut CoreRun, turn: Turn) -> Happened {
    match turn {
        Turn::Moves(by, wish) => run.move_one(by, wish),
        Turn::Events(by, call) => event(rt, run, by, call),
    }
}

/// All words.
fn words(rt: &impl Abort, alloc: Global, run: &CoreRun) -> Result<Vec<u64>, NoMemory> {
    let mut words = Vec::new(alloc);
    for place in 0..run.shape().table_words() {
        words.push(word(rt, run, place))?;
    }
    Ok(words)
}

/// The calls of the four processes.
fn calls(rt: &impl Abort, run: &CoreRun) -> [CallView; 4] {
    assert!(rt; run.shape().processes() == 4);
    [
        run.view(0).calls,
        run.view(1).calls,
        run.view(2).calls,
        run.view(3).calls,
    ]
}

fn free(by: u32, block: u32) -> Turn {
    Turn::Events(by, Call::Free { block })
}

fn read(by: u32, block: u32, index: u32) -> Turn {
    Turn::Events(by, Call::Read { block, index })
}

fn write(by: u32, block: u32, index: u32) -> Turn {
    let value = 1;
    Turn::Events(
        by,
        Call::Write {
            block,
            index,
            value,
        },
    )
}

/// Process 0 has announced a take alone, process 1 holds block 20 and is between two calls, process 2 holds
/// nothing and is at rest, process 3 is in an allocate. Turns that aren't made change nothing.
#[test]
fn ignored_turns(rt: HostRuntime) -> Result<(), Fail> {
    let shape = Shape::new(4, 8, 2)?;
    let mut run = CoreRun::open(rt.alloc(), &shape)?;
    run.move_one(0, Wish::Take);
    whole_call(&rt, &mut run, 1, Call::Allocate);
    assert_eq!(rt; (shape.blocks(), holder(&rt, &run, 20)), (80, Some(1)));
    event(&rt, &mut run, 3, Call::Allocate);
    let rows = [
        ("no such process", Turn::Moves(4, Wish::Take)),
        ("no such process", Turn::Events(4, Call::Allocate)),
        ("a transfer alone", Turn::Events(0, Call::Allocate)),
        ("between two calls", Turn::Moves(1, Wish::Take)),
        ("in a call", Turn::Moves(3, Wish::Take)),
        ("not the newest spare", Turn::Moves(2, Wish::Give(40))),
        ("held by nobody", free(1, 21)),
        ("held by another", free(2, 20)),
        ("past the blocks", free(1, 80)),
        ("held by nobody", read(1, 21, 0)),
        ("held by another", read(2, 20, 0)),
        ("past the blocks", read(1, 80, 0)),
        ("past the words", read(1, 20, 2)),
        ("held by nobody", write(1, 21, 0)),
        ("held by another", write(2, 20, 0)),
        ("past the blocks", write(1, 80, 0)),
        ("past the words", write(1, 20, 2)),
    ];
    let words_before = words(&rt, rt.alloc(), &run)?;
    let calls_before = calls(&rt, &run);
    for (name, turn) in rows {
        let happened = make(&rt, &mut run, turn);
        let same_words = words(&rt, rt.alloc(), &run)? == words_before;
        let same_calls = calls(&rt, &run) == calls_before;
        assert_eq!(rt;
            (happened, same_words, same_calls),
            (Happened::Ignored, true, true),
            "{name}: {turn:?}"
        );
    }
    Ok(())
}
