// The reading of a trace, piece by piece: what its whole lines say, and the line that isn't whole yet.
ghost use Rattle.std.specs.Prelude.{◌≡◌, ◌+◌, ◌^◌, ◌<◌, ℕ, List, [], ◌∷◌, ◌++◌, length, IfOk, OnOk};
ghost use Rattle.line_text.specs.Lines.{HasNoEnd};
ghost use Rattle.line_text.specs.Meanings.{is_bad, said};
ghost use Rattle.mtrace_reader.specs.Line.{meaning_of};
ghost use Rattle.mtrace_reader.specs.Reading.{AnswersTo};
ghost use Rattle.mtrace_reader.specs.LineReader.{HasRead, Reads};

use crate::line::read_line;
use crate::{Operation, OperationList, Trace, TraceFault};
use line_text::{Meaning, PieceKeeper, split_line};
use pool_model::NoMemory;
use std::alloc::Global;

/// Keeps the operation that a line says, and answers whether the line is bad.
fn keep(operations: &mut Vec<Operation>, meaning: Meaning<Operation>) -> Result<bool, NoMemory>
    ensures bad { IfOk result (λ bad. bad ≡ is_bad meaning) }
    ensures kept { IfOk result (λ _. operations.new.items ≡ operations.old.items ++ said (meaning ∷ [])) }
{
    match meaning {
        Meaning::Skipped => Ok(false),
        Meaning::Says(operation) => {
            operations.push(operation)?;
            Ok(false)
        }
        Meaning::Bad => Ok(true),
    }
}

/// What the bytes of a trace say that were read so far, where more may come.
#[derive(Drop)]
pub(crate) struct LineReader {
    /// The operations of the lines that have ended.
    operations: Vec<Operation>,
    /// The number of the first of these lines that is of no form.
    bad_line: Option<u64>,
    /// The number of the line that hasn't ended, counted from 1.
    number: u64,
    /// The bytes of that line: all that is kept of what was read.
    unfinished: Vec<u8>,
}

impl LineReader {
    /// A reader that has read nothing. Takes no memory.
    pub(crate) fn new(alloc: Global) -> LineReader
        ensures { HasRead [] result }
    {
        LineReader {
            operations: Vec::new(alloc),
            bad_line: None,
            number: 1,
            unfinished: Vec::new(alloc),
        }
    }

    /// What the line means that hasn't ended, where these are the others of its bytes. Leaves it empty.
    fn take_line(&mut self, others: &[u8]) -> Result<Meaning<Operation>, NoMemory>
        ensures meaning { IfOk result (λ meaning.
            meaning ≡ meaning_of (self.old.unfinished.items ++ others.now)) }
        ensures emptied { OnOk result (self.new.unfinished.items ≡ []) }
        ensures operations { self.new.operations ≡ self.old.operations }
        ensures bad_line { self.new.bad_line ≡ self.old.bad_line }
        ensures number { self.new.number ≡ self.old.number }
    {
        if self.unfinished.is_empty() {
            return Ok(read_line(others));
        }
        self.unfinished.extend_from_slice(others)?;
        let meaning = read_line(&self.unfinished);
        self.unfinished.clear();
        Ok(meaning)
    }

    /// Reads the others of a line's bytes and the end of that line.
    fn read_end(&mut self, others: &[u8]) -> Result<(), NoMemory>
        requires { self.old.number + 1 < 2 ^ 64 }
        ensures read { OnOk result (HasNoEnd others.now → Reads self.old self.new (others.now ++ 10 ∷ [])) }
        ensures number { OnOk result (self.new.number ≡ self.old.number + 1) }
    {
        let meaning = self.take_line(others)?;
        let bad = keep(&mut self.operations, meaning)?;
        self.bad_line = self.bad_line.or(bad.then_some(self.number));
        self.number += 1;
        Ok(())
    }

    /// Reads the next bytes. A line that lies whole in them isn't copied.
    fn read(&mut self, piece: &[u8]) -> Result<(), NoMemory>
        requires { self.old.number + length piece.now < 2 ^ 64 }
        ensures read { OnOk result (Reads self.old self.new piece.now) }
    {
        let mut rest = piece;
        while let Some((line, after)) = split_line(rest) {
            self.read_end(line)?;
            rest = after;
        }
        self.unfinished.extend_from_slice(rest)?;
        Ok(())
    }

    /// The trace, where all of its bytes were read, so many.
    pub(crate) fn finish(mut self, bytes: u64) -> Result<Trace, TraceFault>
        ensures answer { (all : List ℕ) → HasRead all self → length all ≡ bytes → AnswersTo all result }
        ensures count { IfOk result (λ trace. trace.bytes ≡ bytes) }
    {
        if let Some(line) = self.bad_line {
            return Err(TraceFault::BadLine(line));
        }
        let cut = keep(&mut self.operations, read_line(&self.unfinished))?;
        Ok(Trace {
            operations: OperationList::new(self.operations),
            cut,
            bytes,
        })
    }
}

impl PieceKeeper for LineReader {
    ghost has = { λ reader bytes. HasRead bytes reader };

    fn keep(&mut self, piece: &[u8]) -> Result<(), NoMemory> {
        self.read(piece)
    }
}
