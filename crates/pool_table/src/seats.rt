// Seats are made and joined.
ghost use Rattle.std.specs.Prelude.{◌≡◌, ◌+◌, ◌<◌, ◌^◌};
ghost use Rattle.word_layout.specs.Names.{table_words};
ghost use Rattle.word_table.specs.Seats.{SameSeat};
ghost use Rattle.pool_table.specs.Views.{one_more_made, seat_of_process};
ghost use Rattle.pool_table.specs.Steps.{Among};
ghost use Rattle.pool_table.specs.Joins.{CanSplit, CanJoin, Joined};
ghost use Rattle.pool_table.specs.Settled.{Settles};

use crate::rule::{PoolSeat, PoolTable};
use step_counter::{Ledger, Steps};

#[cfg(test)]
mod tests;

/// Makes the seat of the next process, which is at its opening. The seat of process 0 makes it, and counts one more.
///
/// It is one step, a load of word 0.
pub fn next_seat<L: Ledger>(
    table: &PoolTable,
    first: &mut PoolSeat,
    steps: &mut Steps<L>,
) -> PoolSeat
    requires seat { first.old.table ≡ table.now }
    requires words { table.now.words ≡ table_words first.old.view.sizes }
    requires steps { steps.old + 1 < 2 ^ 64 }
    requires can { CanSplit first.old.view }
    ensures seat { SameSeat first.old first.new }
    ensures new { result.table ≡ table.now }
    ensures steps { steps.new ≡ steps.old + 1 }
    ensures left { first.new.view ≡ one_more_made first.old.view }
    ensures right { result.view ≡ seat_of_process first.old.view.sizes first.old.view.made 0 }
    ensures left_among { Among first.new.view }
    ensures right_among { Among result.view }
{
    table.split(first, steps)
}

/// A seat takes in another process's, with all that this one knows. One legal history has the entries of all that
/// it has taken in.
///
/// It is two steps, both a load of word 0.
pub fn join_seats<L: Ledger>(
    table: &PoolTable,
    kept: &mut PoolSeat,
    other: PoolSeat,
    steps: &mut Steps<L>,
)
    requires kept { kept.old.table ≡ table.now }
    requires other { other.table ≡ table.now }
    requires words { table.now.words ≡ table_words kept.old.view.sizes }
    requires steps { steps.old + 2 < 2 ^ 64 }
    requires can { CanJoin kept.old.view other.view }
    ensures seat { SameSeat kept.old kept.new }
    ensures steps { steps.new ≡ steps.old + 2 }
    ensures joined { Joined kept.old.view other.view kept.new.view }
    ensures settled { Settles kept.new.view }
{
    table.join(kept, other, steps);
}
