// The announcements of all processes, heard in the place of a transfer's own steps.
ghost use Rattle.std.specs.Prelude.{◌≡◌, ◌+◌, IsTrue};
ghost use Rattle.word_layout.specs.Packing.{FitsAnnounced};
ghost use Rattle.batch_stack.specs.Alone.{Goes, IsAt, OnlyMoved};

use super::{Player, begin_take, make, make_part, open_two, tries_next};
use crate::progress::Progress;
use announce::AnnounceReader;
use pool_table::PoolTable;
use std::alloc::Global;
use std::process::Abort;
use std::test::Fail;
use step_counter::{Kept, Steps};
use transfer_machine::TryStep;
use word_layout::{Announced, Shape, Tagged, Wish};

/// Whether a process announces a take.
fn is_take(announced: Announced) -> bool
    ensures { IsTrue result → FitsAnnounced announced }
{
    match announced.wish {
        Wish::Take => announced.number < Tagged::TAG_LIMIT,
        Wish::Give(_) => false,
    }
}

/// Hears that this process, whose announcement the transfer loads next, announces a take: the number of that.
fn hear(
    rt: &impl Abort,
    player: &mut Player,
    reader: &mut AnnounceReader,
    process: u32,
    table: &PoolTable,
) -> u64
    requires at { IsAt table.now player.old.seat player.old.transfer.sizes }
    requires reader { reader.old ≡ record { sizes = player.old.transfer.sizes; process = process } }
    requires goes { Goes player.old.seat player.old.transfer }
    ensures moved { OnlyMoved player.old.seat player.old.transfer player.new.seat player.new.transfer }
    ensures reader { reader.new ≡ record { sizes = player.old.transfer.sizes; process = process + 1 } }
    ensures goes { Goes player.new.seat player.new.transfer }
{
    if !tries_next(&player.transfer, TryStep::LoadAnnouncement { process }) {
        panic!(rt; "another word is loaded next");
    }
    let announced = reader.step(table, &mut player.seat, None, &mut Steps::new(Kept::new()));
    if !is_take(announced) {
        panic!(rt; "no take is announced");
    }
    let transfer = &mut player.transfer;
    transfer.view.meet(&transfer.shape, announced.pack());
    announced.number
}

/// Process 0 announces a take, and a reader of the announcements stands in for process 1's own loads in its take: the
/// numbers that it hears, and how the take ends.
fn hear_both(
    rt: &impl Abort,
    alloc: Global,
    before: &[u64],
    between: &[u64],
    after: &[u64],
) -> Result<([u64; 2], Progress), Fail> {
    let shape = Shape::new(2, 6, 0)?;
    let (table, mut announced, mut helping) = open_two(alloc, &shape)?;
    begin_take(rt, &mut announced);
    begin_take(rt, &mut helping);
    make_part(rt, &mut announced, &table, &[16777216]);
    make_part(rt, &mut helping, &table, before);
    let mut reader = AnnounceReader::open(&shape);
    let one = hear(rt, &mut helping, &mut reader, 0, &table);
    make_part(rt, &mut helping, &table, between);
    let other = hear(rt, &mut helping, &mut reader, 1, &table);
    let end = make(rt, &mut helping, &table, after);
    Ok(([one, other], end))
}

#[test]
fn the_announcements_are_heard_in_order(rt: HostRuntime) -> Result<(), Fail> {
    let before = [
        16777216, 16777220, 16777218, 16777216, 16777216, 16777216, 16777216, 16777216,
    ];
    let after = [
        24, 33554432, 33554432, 33554432, 33554432, 41943071, 41943065, 16777220, 33554434,
        41943065,
    ];
    let heard = hear_both(&rt, rt.alloc(), &before, &[30], &after)?;
    assert_eq!(rt; heard, ([1, 1], Progress::Took(24)));
    Ok(())
}
