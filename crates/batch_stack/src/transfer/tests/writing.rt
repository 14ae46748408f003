// A whole record, written in the place of a transfer's own steps.
ghost use Rattle.std.specs.Prelude.{◌≡◌, ◌<◌, ◌≤◌, IfOk, IsTrue, ◌↔◌};
ghost use Rattle.word_layout.specs.Names.{records};
ghost use Rattle.word_table.specs.Seats.{SameSeat};
ghost use Rattle.versioned_records.specs.declared.writer.WriteStep.TheVariants.{Going};
ghost use Rattle.batch_stack.specs.Alone.{Goes, HasDrafted, IsAt, WritesAlone};

use super::{Player, begin_take, look, make_part, open, tries_next};
use crate::transfer::Transfer;
use pool_model::NoMemory;
use pool_table::{PoolSeat, PoolTable, open_table};
use std::alloc::Global;
use std::process::Abort;
use std::test::Fail;
use step_counter::{Kept, Steps};
use transfer_machine::TryStep;
use versioned_records::{RecordWriter, WriteStep};
use word_layout::{Shape, WordName};

/// Whether a transfer drafted these values for its next record.
fn has_drafted(transfer: &Transfer, values: &[u32]) -> bool
    requires { transfer.now.part.draft.overlay ≤ 32 }
    ensures { IsTrue result → HasDrafted transfer.now.sizes transfer.now.part values.now }
{
    let (shape, draft) = (&transfer.shape, &transfer.view.draft);
    let count = shape.record_words();
    if values.len() != count as usize {
        return false;
    }
    for index in 0..count {
        if draft.value(shape.processes(), index) != values[index as usize] {
            return false;
        }
    }
    true
}

/// A writer of the record that a transfer stores next, which drafted these values for it.
fn write_record(
    rt: &impl Abort,
    alloc: Global,
    player: &Player,
    values: &[u32],
) -> Result<RecordWriter, NoMemory>
    requires goes { Goes player.now.seat player.now.transfer }
    ensures sizes { IfOk result (λ writer. writer.sizes ≡ player.now.transfer.sizes) }
    ensures writes { IfOk result (λ writer. WritesAlone player.now.seat.view writer) }
{
    let transfer = &player.transfer;
    if !tries_next(transfer, TryStep::StoreRecordWord { index: 0 }) {
        panic!(rt; "no record is stored next");
    }
    if !has_drafted(transfer, values) {
        panic!(rt; "other values are drafted");
    }
    let (tag, row) = (transfer.view.loaded.tag() + 1, transfer.view.next_record);
    let mut writer = RecordWriter::open(alloc, &transfer.shape)?;
    writer.begin(tag, row, values);
    Ok(writer)
}

/// Stores the next word of a record.
#[tactic(auto, using(crate::proofs::Written::write_keeps_sizes))]
fn write_word(writer: &mut RecordWriter, table: &PoolTable, seat: &mut PoolSeat) -> WriteStep
    requires at { IsAt table.now seat.old writer.old.sizes }
    requires writes { WritesAlone seat.old.view writer.old }
    ensures sizes { writer.new.sizes ≡ writer.old.sizes }
    ensures seat { SameSeat seat.old seat.new }
    ensures on { result ≡ Going → WritesAlone seat.new.view writer.new }
{
    writer.step(table, seat, None, &mut Steps::new(Kept::new()))
}

/// Whether a record has more words to store.
fn is_writing(write: WriteStep) -> bool
    ensures { IsTrue result ↔ write ≡ Going }
{
    match write {
        WriteStep::Going => true,
        WriteStep::Written => false,
    }
}

/// Stores the words of this record: each one, and how far the writing is after it.
fn write(
    rt: &impl Abort,
    writer: &mut RecordWriter,
    shape: &Shape,
    table: &PoolTable,
    seat: &mut PoolSeat,
    row: u32,
    steps: &[(u64, WriteStep)],
)
    requires at { IsAt table.now seat.old shape.now }
    requires sizes { writer.old.sizes ≡ shape.now }
    requires writes { WritesAlone seat.old.view writer.old }
    requires row { row < records shape.now }
{
    assert_eq!(rt; steps.len(), shape.record_words() as usize);
    for index in 0..shape.record_words() {
        let write = write_word(writer, table, seat);
        let word = look(
            table,
            seat,
            shape.place(WordName::RecordWord { row, index }),
        );
        assert_eq!(rt; (word, write), steps[index as usize], "{index}");
        if !is_writing(write) {
            return;
        }
    }
}

#[test]
fn a_writer_stores_the_drafted_values(rt: HostRuntime) -> Result<(), Fail> {
    let shape = Shape::new(1, 10, 0)?;
    let (table, seat) = open_table(rt.alloc(), &shape)?;
    let mut taking = open(rt.alloc(), &shape, 0, seat, 1)?;
    begin_take(&rt, &mut taking);
    let before = [
        16777216, 16777218, 16777224, 16777216, 16777216, 16777216, 16777216, 36,
    ];
    make_part(&rt, &mut taking, &table, &before);
    let values = [7, 0, 0, 8388645];
    let mut writer = write_record(&rt, rt.alloc(), &taking, &values)?;
    let steps = [
        (33554439, WriteStep::Going),
        (33554432, WriteStep::Going),
        (33554432, WriteStep::Going),
        (41943077, WriteStep::Written),
    ];
    write(
        &rt,
        &mut writer,
        &shape,
        &table,
        &mut taking.seat,
        0,
        &steps,
    );
    Ok(())
}
