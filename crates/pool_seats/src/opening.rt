// The seats of all processes are made.
ghost use Rattle.std.specs.Prelude.{◌≡◌, ◌+◌, length, IfOk, OnOk};
ghost use Rattle.word_layout.specs.Names.{table_words};
ghost use Rattle.pool_table.specs.Views.{first_seat};
ghost use Rattle.pool_table.specs.Steps.{Among};
ghost use Rattle.pool_seats.specs.Opening.{IsOpeningSeat, AreOpeningSeats, AllOpeningSeats};

use pool_model::NoMemory;
use pool_table::{PoolSeat, PoolTable, next_seat, open_table};
use std::alloc::Global;
use step_counter::{Quiet, Steps};
use word_layout::Shape;

/// A table of the opening words, and the seats of all processes in the order of their numbers, each at its opening.
///
/// `Err` for want of memory only; then nothing is left.
pub fn open_seats(alloc: Global, shape: &Shape) -> Result<(PoolTable, Vec<PoolSeat>), NoMemory>
    ensures words { IfOk result (λ opened. opened.0.words ≡ table_words shape.now) }
    ensures seats { IfOk result (λ opened. AllOpeningSeats shape.now opened.0 opened.1.items) }
{
    let (table, mut first) = open_table(alloc, shape)?;
    let mut seats = further_seats(alloc, shape, &table, &mut first)?;
    seats.insert(0, first)?;
    Ok((table, seats))
}

/// The seats of processes 1 to `p - 1` in order, which that of process 0 makes.
fn further_seats(
    alloc: Global,
    shape: &Shape,
    table: &PoolTable,
    first: &mut PoolSeat,
) -> Result<Vec<PoolSeat>, NoMemory>
    requires seat { first.old.table ≡ table.now }
    requires words { table.now.words ≡ table_words shape.now }
    requires view { first.old.view ≡ first_seat shape.now }
    requires among { Among first.old.view }
    ensures first { OnOk result (IsOpeningSeat shape.now table.now 0 first.new) }
    ensures many { IfOk result (λ seats. length seats.items + 1 ≡ shape.now.processes) }
    ensures seats { IfOk result (λ seats. AreOpeningSeats shape.now table.now 1 seats.items) }
{
    let processes = shape.processes();
    let mut steps = Steps::new(Quiet::new());
    let mut seats = Vec::new(alloc);
    for _made in 1..processes {
        seats.push(next_seat(table, first, &mut steps))?;
    }
    Ok(seats)
}
