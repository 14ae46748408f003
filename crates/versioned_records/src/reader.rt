// The reading of a whole record.
ghost use Rattle.std.specs.Prelude.{◌≡◌, ◌<◌, MatchResult};
ghost use Rattle.word_layout.specs.Names.{record_words, records};
ghost use Rattle.word_layout.specs.Packing.{tag_limit};
ghost use Rattle.word_layout.specs.declared.announced.Wish.TheVariants.{Take};
ghost use Rattle.pool_table.specs.Steps.{MayStep, OneStep};
ghost use Rattle.pool_table.specs.Transfers.{about_of};
ghost use Rattle.versioned_records.specs.declared.reader.ReadStep.TheVariants.{Going, Whole};
ghost use Rattle.versioned_records.specs.Loads.{read_step};
ghost use Rattle.versioned_records.specs.Reading.{CanRead, CanReadOn, HasReadOn, begun, opened, read_value};

use crate::cursor::RecordCursor;
use pool_machine::Call;
use pool_model::NoMemory;
use pool_table::{PoolSeat, PoolTable, about_of, act};
use std::alloc::Global;
use std::marker::Model;
use step_counter::{Ledger, Steps};
use word_layout::{Shape, Tagged, Wish};

/// How far the reading of a record is after the load of a word.
#[derive(Clone, Copy, Debug, PartialEq, Eq, Hash)]
pub enum ReadStep {
    /// The word is of this state, and there are more.
    Going,
    /// All words are loaded, and each is of this state.
    Whole,
    /// The word is of a later state.
    Moved,
}

/// A record of the shared stack, as far as it is read.
///
/// Clauses see the shape's numbers, the tag and the row that it was begun with, how many words it loaded since, the
/// words, and how far it is.
#[derive(Drop)]
pub struct RecordReader {
    shape: Shape,
    cursor: RecordCursor,
    words: [u64; 66],
    reached: ReadStep,
}

impl Model for RecordReader {
    ghost use Rattle.versioned_records.specs.Reading.{Reading};

    ghost Value = { Reading };

    ghost view = { λ r. record { sizes = r.shape; tag = r.cursor.tag; row = r.cursor.row; index = r.cursor.index; words = r.words; reached = r.reached } };
}

impl RecordReader {
    /// A reader of records of this shape, which has begun none. All that its steps use has its room here.
    pub fn open(alloc: Global, shape: &Shape) -> Result<RecordReader, NoMemory>
        ensures { MatchResult result (λ reader. reader ≡ opened shape.now) (λ _. ⊥) }
    {
        // The reader has its room in itself.
        let _ = alloc;
        Ok(RecordReader {
            shape: *shape,
            cursor: RecordCursor {
                tag: 0,
                row: 0,
                index: 0,
            },
            words: [0; 66],
            reached: ReadStep::Moved,
        })
    }

    /// Begins to read this record, as that of the state with this tag.
    pub fn begin(&mut self, tag: u64, row: u32)
        requires tag { tag < tag_limit }
        requires row { row < records self.old.sizes }
        ensures { self.new ≡ begun tag row self.old }
    {
        self.cursor = RecordCursor { tag, row, index: 0 };
        self.reached = ReadStep::Going;
    }

    /// Loads the next word of the record, in this call or for a transfer alone: one atomic step of one word. After
    /// `Moved` and after `Whole` it is to be begun anew.
    ///
    /// The condition is that the seat's process makes this load next, in the try that loaded the words so far.
    pub fn step<L: Ledger>(
        &mut self,
        table: &PoolTable,
        seat: &mut PoolSeat,
        call: Option<Call>,
        steps: &mut Steps<L>,
    ) -> ReadStep
        requires may { MayStep self.old.sizes (about_of call Take) table.now seat.old steps.old }
        requires reads { CanRead (about_of call Take) seat.old.view self.old }
        ensures one { OneStep seat.old seat.new steps.old steps.new }
        ensures read { HasReadOn (about_of call Take) seat.old.view self.old seat.new.view self.new result }
        ensures on { result ≡ Going → CanReadOn self.old.sizes (about_of call Take) seat.new.view self.new }
    {
        prove!(self.shape.processes() <= 32);
        // In the middle of a transfer its wish isn't looked at.
        let about = about_of(call, Wish::Take);
        let cursor = self.cursor;
        let word = act(&about, cursor.load(), &self.shape, table, seat, steps);
        let read = read_step(&self.shape, cursor.tag, cursor.index, word);
        self.words[cursor.index as usize] = word;
        self.cursor.index = cursor.index + 1;
        self.reached = read;
        read
    }

    /// The value of a word of a record that is whole.
    pub fn value(&self, index: u32) -> u32
        requires whole { self.now.reached ≡ Whole }
        requires index { index < record_words self.now.sizes }
        ensures { result ≡ read_value self.now index }
    {
        prove!(self.shape.processes() <= 32);
        Tagged::value(self.words[index as usize])
    }
}

/// How far the reading is once this word was loaded there.
fn read_step(shape: &Shape, tag: u64, index: u32, word: u64) -> ReadStep
    requires { index < record_words shape.now }
    ensures { result ≡ read_step shape.now tag index word }
{
    let count = shape.record_words();
    if Tagged::tag(word) > tag {
        ReadStep::Moved
    } else if index + 1 == count {
        ReadStep::Whole
    } else {
        ReadStep::Going
    }
}
