// A give that stopped after any number of its steps, beside a process that takes all that there is.
ghost use Rattle.batch_stack.specs.Alone.{Goes, IsAt, OnlyMoved};

use super::making::{give, take};
use super::{Player, begin_give, begin_take, first_spare, is_going, open_two, run};
use crate::progress::Progress;
use pool_table::PoolTable;
use std::alloc::Global;
use std::process::Abort;
use std::test::Fail;
use word_layout::Shape;

/// Makes so many steps, of which none is the last one.
fn run_part(rt: &impl Abort, player: &mut Player, table: &PoolTable, steps: u32)
    requires at { IsAt table.now player.old.seat player.old.transfer.sizes }
    requires goes { Goes player.old.seat player.old.transfer }
    ensures moved { OnlyMoved player.old.seat player.old.transfer player.new.seat player.new.transfer }
    ensures goes { Goes player.new.seat player.new.transfer }
{
    let (_, progress) = run(player, table, steps);
    if !is_going(progress) {
        panic!(rt; "the transfer ended");
    }
}

/// Process 1 gives its spare. Process 0 makes so many steps of a give of its own and stops, and process 1 takes twice: which
/// batch it gets first, and how its second take ends. Then process 0 goes on, and its give ends.
fn take_all_beside(rt: &impl Abort, alloc: Global, made: u32) -> Result<(u32, Progress), Fail> {
    let shape = Shape::new(2, 4, 0)?;
    let (table, mut stopped, mut taking) = open_two(alloc, &shape)?;
    let spare = shape
        .length()
        .checked_mul(3)
        .expect(rt, "a head is a block");
    give(rt, &mut taking, &table, spare, &[]);
    begin_give(rt, &mut stopped, first_spare(&shape));
    run_part(rt, &mut stopped, &table, made);
    let head = take(rt, &mut taking, &table, &[]);
    begin_take(rt, &mut taking);
    let (_, last) = run(&mut taking, &table, 47);
    let (_, end) = run(&mut stopped, &table, 47);
    assert_eq!(rt; end, Progress::Gave);
    Ok((head, last))
}

#[test]
fn all_is_taken_beside_a_give_that_stopped_anywhere(rt: HostRuntime) -> Result<(), Fail> {
    // Alone a give ends at its 21st step.
    for made in 0..21 {
        let ends = if made == 0 {
            (18, Progress::Empty)
        } else {
            (6, Progress::Took(18))
        };
        assert_eq!(rt; take_all_beside(&rt, rt.alloc(), made)?, ends, "{made}");
    }
    Ok(())
}
