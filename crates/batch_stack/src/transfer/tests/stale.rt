// A stale helper: it loaded a state that two later ones have replaced.
use super::making::{give, take};
use super::{begin_take, first_spare, make, make_part, open_two};
use crate::progress::Progress;
use std::alloc::Global;
use std::process::Abort;
use std::test::Fail;
use word_layout::Shape;

/// Process 1 stops in a take before it writes slot 0, process 0 takes and gives the one batch meanwhile, and process 1 goes on.
fn stop_and_go_on(
    rt: &impl Abort,
    alloc: Global,
    gives: [&[u64]; 2],
    takes: &[u64],
    stopped: [&[u64]; 2],
) -> Result<(u32, Progress), Fail> {
    let shape = Shape::new(2, 4, 0)?;
    let (table, mut giving, mut stale) = open_two(alloc, &shape)?;
    begin_take(rt, &mut stale);
    give(rt, &mut giving, &table, first_spare(&shape), gives[0]);
    make_part(rt, &mut stale, &table, stopped[0]);
    let head = take(rt, &mut giving, &table, takes);
    give(rt, &mut giving, &table, head, gives[1]);
    let end = make(rt, &mut stale, &table, stopped[1]);
    Ok((head, end))
}

#[test]
fn a_stale_helper(rt: HostRuntime) -> Result<(), Fail> {
    let first_give = [
        16777223, 16777220, 16777216, 16777216, 16777216, 16777216, 16777216, 16777216, 16777223,
        0, 33554432, 33554433, 33554438, 33554432, 46137345, 33554432, 16777220, 33554432,
        46137345,
    ];
    let before = [
        16777216, 33554432, 33554432, 33554433, 33554438, 33554432, 46137345, 33554432, 0,
    ];
    let takes = [
        33554432, 33554432, 33554432, 33554433, 33554438, 33554432, 46137345, 33554432, 0, 0,
        33554432, 16777216, 50331648, 50331648, 50331648, 50331648, 50331655, 58720256, 33554432,
        50331649, 50331655,
    ];
    let second_give = [
        50331655, 50331649, 50331648, 50331648, 50331648, 50331648, 50331655, 58720256, 50331655,
        16777216, 67108864, 67108865, 67108870, 67108864, 79691777, 75497472, 50331649, 67108864,
        79691777,
    ];
    let after = [
        33554438, 50331655, 16777216, 50331648, 50331648, 50331648, 50331648, 62914561, 58720263,
        67108864, 67108864, 67108864, 67108865, 67108870, 67108864, 79691777, 75497472, 33554438,
        33554438, 50331655, 16777216, 83886081, 83886080, 83886080, 83886080, 96468993, 92274688,
        67108864, 83886082, 92274688,
    ];
    let ends = stop_and_go_on(
        &rt,
        rt.alloc(),
        [&first_give, &second_give],
        &takes,
        [&before, &after],
    )?;
    assert_eq!(rt; ends, (6, Progress::Empty));
    Ok(())
}
