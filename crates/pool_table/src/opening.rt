// A table is opened.
ghost use Rattle.std.specs.Prelude.{◌≡◌, IfOk};
ghost use Rattle.word_layout.specs.Names.{table_words};
ghost use Rattle.pool_table.specs.Views.{first_seat};
ghost use Rattle.pool_table.specs.Steps.{Among};

use crate::rule::{PoolSeat, PoolTable};
use pool_model::NoMemory;
use std::alloc::Global;
use transfer_machine::opening_words;
use word_layout::Shape;
use word_table::WordTable;

/// A table of the opening words, and the seat of process 0.
///
/// `Err` for want of memory only.
pub fn open_table(alloc: Global, shape: &Shape) -> Result<(PoolTable, PoolSeat), NoMemory>
    ensures words { IfOk result (λ opened. opened.0.words ≡ table_words shape.now) }
    ensures seat { IfOk result (λ opened. (opened.1.table ≡ opened.0) × (opened.1.number ≡ 0)) }
    ensures view { IfOk result (λ opened. opened.1.view ≡ first_seat shape.now) }
    ensures among { IfOk result (λ opened. Among opened.1.view) }
{
    prove!(shape.processes() >= 1);
    let words = opening_words(alloc, shape)?;
    let (table, seat) = WordTable::open(alloc, words, shape)?;
    Ok((table, seat))
}
