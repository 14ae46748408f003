// The writing of a whole record.
ghost use Rattle.std.specs.Prelude.{◌≡◌, ◌<◌, length, MatchResult};
ghost use Rattle.word_layout.specs.Names.{record_words};
ghost use Rattle.word_layout.specs.declared.announced.Wish.TheVariants.{Take};
ghost use Rattle.pool_table.specs.Steps.{MayStep, OneStep};
ghost use Rattle.pool_table.specs.Transfers.{about_of};
ghost use Rattle.versioned_records.specs.declared.writer.WriteStep.TheVariants.{Going};
ghost use Rattle.versioned_records.specs.Stores.{write_step};
ghost use Rattle.versioned_records.specs.Writing.{CanWrite, CanWriteOn, HasWrittenOn, begun};

use crate::cursor::RecordCursor;
use pool_machine::Call;
use pool_model::NoMemory;
use pool_table::{PoolSeat, PoolTable, about_of, act};
use std::alloc::Global;
use std::marker::Model;
use step_counter::{Ledger, Steps};
use word_layout::{Shape, Wish};

/// How far the writing of a record is after the store of a word.
#[derive(Clone, Copy, Debug, PartialEq, Eq, Hash)]
pub enum WriteStep {
    /// There are more words.
    Going,
    /// All words are stored.
    Written,
}

/// A record of the shared stack, as far as it is written.
///
/// Clauses see the shape's numbers, the tag, the row and the values that it was begun with, and how many it stored
/// since.
#[derive(Drop)]
pub struct RecordWriter {
    shape: Shape,
    cursor: RecordCursor,
    values: [u32; 66],
}

impl Model for RecordWriter {
    ghost use Rattle.versioned_records.specs.Writing.{Writing};

    ghost Value = { Writing };

    ghost view = { λ w. record { sizes = w.shape; tag = w.cursor.tag; row = w.cursor.row; index = w.cursor.index; values = w.values } };
}

impl RecordWriter {
    /// A writer of records of this shape, which has begun none. All that its steps use has its room here.
    pub fn open(alloc: Global, shape: &Shape) -> Result<RecordWriter, NoMemory>
        ensures sizes { MatchResult result (λ writer. writer.sizes ≡ shape.now) (λ _. ⊥) }
        ensures none { MatchResult result (λ writer. writer.index ≡ record_words shape.now) (λ _. ⊥) }
    {
        prove!(shape.processes() <= 32);
        // The writer has its room in itself.
        let _ = alloc;
        Ok(RecordWriter {
            shape: *shape,
            cursor: RecordCursor {
                tag: 0,
                row: 0,
                index: shape.record_words(),
            },
            values: [0; 66],
        })
    }

    /// Begins to write these values into this record, for the state with this tag.
    pub fn begin(&mut self, tag: u64, row: u32, values: &[u32])
        requires values { length values.now ≡ record_words self.old.sizes }
        ensures { self.new ≡ begun tag row values.now self.old }
    {
        prove!(self.shape.processes() <= 32);
        self.cursor = RecordCursor { tag, row, index: 0 };
        self.values[..values.len()].copy_from_slice(values);
    }

    /// Stores the next value of the record, in this call or for a transfer alone: one atomic step of one word. After
    /// `Written` it is to be begun anew.
    ///
    /// The condition is that the seat's process makes this store next.
    pub fn step<L: Ledger>(
        &mut self,
        table: &PoolTable,
        seat: &mut PoolSeat,
        call: Option<Call>,
        steps: &mut Steps<L>,
    ) -> WriteStep
        requires may { MayStep self.old.sizes (about_of call Take) table.now seat.old steps.old }
        requires writes { CanWrite (about_of call Take) seat.old.view self.old }
        ensures one { OneStep seat.old seat.new steps.old steps.new }
        ensures written { HasWrittenOn (about_of call Take) seat.old.view self.old seat.new.view self.new result }
        ensures on { result ≡ Going → CanWriteOn self.old.sizes (about_of call Take) seat.new.view self.new }
    {
        prove!(self.shape.processes() <= 32);
        // In the middle of a transfer its wish isn't looked at.
        let about = about_of(call, Wish::Take);
        let cursor = self.cursor;
        let value = self.values[cursor.index as usize];
        act(&about, cursor.store(value), &self.shape, table, seat, steps);
        self.cursor.index = cursor.index + 1;
        write_step(&self.shape, cursor.index)
    }
}

/// How far the writing is once that word was stored.
fn write_step(shape: &Shape, index: u32) -> WriteStep
    requires { index < record_words shape.now }
    ensures { result ≡ write_step shape.now index }
{
    let count = shape.record_words();
    if index + 1 == count {
        WriteStep::Written
    } else {
        WriteStep::Going
    }
}
