// Takes at the opening, each step with its word: a process alone, and one beside another that stopped.
use super::{begin_take, make, make_part, open, open_two, run};
use crate::progress::Progress;
use pool_table::open_table;
use std::alloc::Global;
use std::process::Abort;
use std::test::Fail;
use word_layout::Shape;

/// A take of the one process of a pool of so many batches, on these words.
fn take_alone(
    rt: &impl Abort,
    alloc: Global,
    batches: u32,
    words: &[u64],
) -> Result<Progress, Fail> {
    let shape = Shape::new(1, batches, 0)?;
    let (table, seat) = open_table(alloc, &shape)?;
    let mut taking = open(alloc, &shape, 0, seat, 1)?;
    begin_take(rt, &mut taking);
    Ok(make(rt, &mut taking, &table, words))
}

#[test]
fn a_lone_take_of_a_batch(rt: HostRuntime) -> Result<(), Fail> {
    let words = [
        16777216, 16777218, 16777224, 16777216, 16777216, 16777216, 16777216, 36, 33554439,
        33554432, 33554432, 41943077, 16777218, 33554432, 41943077,
    ];
    let end = take_alone(&rt, rt.alloc(), 10, &words)?;
    assert_eq!(rt; end, Progress::Took(36));
    Ok(())
}

#[test]
fn a_lone_take_that_finds_nothing(rt: HostRuntime) -> Result<(), Fail> {
    let words = [
        16777216, 16777218, 16777216, 16777216, 16777216, 16777216, 16777216, 33554432, 33554432,
        33554432, 41943040, 16777218, 33554432, 41943040,
    ];
    let end = take_alone(&rt, rt.alloc(), 2, &words)?;
    assert_eq!(rt; end, Progress::Empty);
    Ok(())
}

/// Process 0 makes so many steps of a take and stops, and process 1 takes: how many it makes of them, and how it ends.
fn take_beside(rt: &impl Abort, alloc: Global, made: u32) -> Result<(u32, Progress), Fail> {
    let shape = Shape::new(2, 6, 0)?;
    let (table, mut stopped, mut taking) = open_two(alloc, &shape)?;
    begin_take(rt, &mut stopped);
    begin_take(rt, &mut taking);
    let (count, _) = run(&mut stopped, &table, made);
    let (_, end) = run(&mut taking, &table, 47);
    Ok((count, end))
}

#[test]
fn a_take_ends_beside_one_that_stopped_anywhere(rt: HostRuntime) -> Result<(), Fail> {
    for made in 0..21 {
        let head = if made == 0 { 30 } else { 24 };
        let row = take_beside(&rt, rt.alloc(), made)?;
        assert_eq!(rt; row, (made, Progress::Took(head)));
    }
    Ok(())
}

/// Process 0 announces a take and stops, process 1 takes on these words, and process 0 goes on, on those: how each take ends.
fn help(
    rt: &impl Abort,
    alloc: Global,
    helpers: &[u64],
    helped: &[u64],
) -> Result<(Progress, Progress), Fail> {
    let shape = Shape::new(2, 6, 0)?;
    let (table, mut announced, mut helping) = open_two(alloc, &shape)?;
    begin_take(rt, &mut announced);
    begin_take(rt, &mut helping);
    make_part(rt, &mut announced, &table, &[16777216]);
    let helper = make(rt, &mut helping, &table, helpers);
    let end = make(rt, &mut announced, &table, helped);
    Ok((helper, end))
}

#[test]
fn a_take_is_helped(rt: HostRuntime) -> Result<(), Fail> {
    let helpers = [
        16777216, 16777220, 16777218, 16777216, 16777216, 16777216, 16777216, 16777216, 16777216,
        30, 16777216, 24, 33554432, 33554432, 33554432, 33554432, 41943071, 41943065, 16777220,
        33554434, 41943065,
    ];
    let helped = [
        33554434, 33554432, 33554432, 33554432, 33554432, 41943071, 41943065, 16777216, 16777216,
        50331648, 50331648, 50331648, 50331648, 58720287, 58720281, 33554434, 50331648, 58720287,
    ];
    let ends = help(&rt, rt.alloc(), &helpers, &helped)?;
    assert_eq!(rt; ends, (Progress::Took(24), Progress::Took(30)));
    Ok(())
}
