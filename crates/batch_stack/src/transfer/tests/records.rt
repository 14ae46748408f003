// Whole records, read in the place of a transfer's own steps.
ghost use Rattle.std.specs.Prelude.{◌≡◌, ◌≢◌, IfOk, IsTrue, ◌↔◌};
ghost use Rattle.word_table.specs.Seats.{SameSeat};
ghost use Rattle.versioned_records.specs.declared.reader.ReadStep.TheVariants.{Going, Whole};
ghost use Rattle.batch_stack.specs.Alone.{Goes, IsAt, ReadsAlone};

use super::making::{give, take};
use super::{Player, begin_take, first_spare, make_part, open, open_two, tries_next};
use pool_model::NoMemory;
use pool_table::{PoolSeat, PoolTable, open_table};
use std::alloc::Global;
use std::process::Abort;
use std::test::Fail;
use step_counter::{Kept, Steps};
use transfer_machine::TryStep;
use versioned_records::{ReadStep, RecordReader};
use word_layout::Shape;

/// A reader of the record that a transfer loads next.
fn read_record(rt: &impl Abort, alloc: Global, player: &Player) -> Result<RecordReader, NoMemory>
    requires goes { Goes player.now.seat player.now.transfer }
    ensures sizes { IfOk result (λ reader. reader.sizes ≡ player.now.transfer.sizes) }
    ensures reads { IfOk result (λ reader. ReadsAlone player.now.seat.view reader) }
{
    let transfer = &player.transfer;
    if !tries_next(transfer, TryStep::LoadRecordWord { index: 0 }) {
        panic!(rt; "no record is loaded next");
    }
    let row = transfer.view.loaded.row();
    assert!(rt; row <= 2 * transfer.shape.processes());
    let mut reader = RecordReader::open(alloc, &transfer.shape)?;
    reader.begin(transfer.view.loaded.tag(), row);
    Ok(reader)
}

/// Loads the next word of a record.
#[tactic(auto, using(crate::proofs::InTry::read_keeps_sizes, crate::proofs::InTry::read_reached))]
fn read_word(reader: &mut RecordReader, table: &PoolTable, seat: &mut PoolSeat) -> ReadStep
    requires at { IsAt table.now seat.old reader.old.sizes }
    requires reads { ReadsAlone seat.old.view reader.old }
    ensures sizes { reader.new.sizes ≡ reader.old.sizes }
    ensures seat { SameSeat seat.old seat.new }
    ensures reached { reader.new.reached ≡ result }
    ensures on { result ≡ Going → ReadsAlone seat.new.view reader.new }
{
    reader.step(table, seat, None, &mut Steps::new(Kept::new()))
}

/// Whether a record has more words of its state.
fn is_reading(read: ReadStep) -> bool
    ensures { IsTrue result ↔ read ≡ Going }
{
    match read {
        ReadStep::Going => true,
        ReadStep::Whole | ReadStep::Moved => false,
    }
}

/// Loads at most so many words of a record, and answers how far it is.
fn read(reader: &mut RecordReader, table: &PoolTable, seat: &mut PoolSeat, most: u32) -> ReadStep
    requires at { IsAt table.now seat.old reader.old.sizes }
    requires reads { ReadsAlone seat.old.view reader.old }
    ensures sizes { reader.new.sizes ≡ reader.old.sizes }
    ensures seat { SameSeat seat.old seat.new }
    ensures reached { result ≢ Going → reader.new.reached ≡ result }
    ensures on { result ≡ Going → ReadsAlone seat.new.view reader.new }
{
    for _ in 0..most {
        let read = read_word(reader, table, seat);
        if !is_reading(read) {
            return read;
        }
    }
    ReadStep::Going
}

/// The values of the whole record that a transfer loads next.
fn values(
    rt: &impl Abort,
    alloc: Global,
    player: &mut Player,
    table: &PoolTable,
) -> Result<Vec<u32>, NoMemory>
    requires at { IsAt table.now player.old.seat player.old.transfer.sizes }
    requires goes { Goes player.old.seat player.old.transfer }
{
    let mut reader = read_record(rt, alloc, player)?;
    match read(&mut reader, table, &mut player.seat, 66) {
        ReadStep::Whole => push_values(alloc, &player.transfer.shape, &reader),
        ReadStep::Going | ReadStep::Moved => panic!(rt; "the record isn't whole"),
    }
}

/// The values of a record that is whole.
fn push_values(alloc: Global, shape: &Shape, reader: &RecordReader) -> Result<Vec<u32>, NoMemory>
    requires sizes { reader.now.sizes ≡ shape.now }
    requires whole { reader.now.reached ≡ Whole }
{
    let mut values = Vec::new(alloc);
    for index in 0..shape.record_words() {
        values.push(reader.value(index))?;
    }
    Ok(values)
}

#[test]
fn the_first_record_is_that_of_the_opening_state(rt: HostRuntime) -> Result<(), Fail> {
    let shape = Shape::new(1, 10, 0)?;
    let (table, seat) = open_table(rt.alloc(), &shape)?;
    let mut taking = open(rt.alloc(), &shape, 0, seat, 1)?;
    begin_take(&rt, &mut taking);
    make_part(&rt, &mut taking, &table, &[16777216, 16777218]);
    let first = values(&rt, rt.alloc(), &mut taking, &table)?;
    assert_eq!(rt; first.as_slice(), [8, 0, 0, 0].as_slice());
    Ok(())
}

/// Process 1 loads a state and one word of its record, and process 0 installs two later states in the same record meanwhile: how far
/// process 1's reader is before and after that.
fn read_beside(rt: &impl Abort, alloc: Global) -> Result<[ReadStep; 2], Fail> {
    let shape = Shape::new(2, 4, 0)?;
    let (table, mut giving, mut stale) = open_two(alloc, &shape)?;
    begin_take(rt, &mut stale);
    give(rt, &mut giving, &table, first_spare(&shape), &[]);
    make_part(rt, &mut stale, &table, &[16777216, 33554432]);
    let mut reader = read_record(rt, alloc, &stale)?;
    let before = read(&mut reader, &table, &mut stale.seat, 1);
    if !is_reading(before) {
        panic!(rt; "the record has one word");
    }
    let head = take(rt, &mut giving, &table, &[]);
    give(rt, &mut giving, &table, head, &[]);
    let after = read(&mut reader, &table, &mut stale.seat, 1);
    Ok([before, after])
}

#[test]
fn a_reader_finds_that_the_state_has_moved_on(rt: HostRuntime) -> Result<(), Fail> {
    let ends = read_beside(&rt, rt.alloc())?;
    assert_eq!(rt; ends, [ReadStep::Going, ReadStep::Moved]);
    Ok(())
}
