//! A seat at a table of words: what a thread needs to make steps there.

use atomic_table::Seat;
use std::marker::Model;
use word_rule::WordRule;

/// A seat at a table under the rule `R`. It has no bytes, and may go to another thread.
///
/// Clauses see which table it is of, its number and its view.
#[derive(Drop)]
pub struct WordSeat<R: WordRule> {
    pub(crate) seat: Seat<u8, R::View>,
}

impl<R: WordRule> Model for WordSeat<R> {
    ghost use Rattle.std.specs.Prelude.{◌≡◌, []};
    ghost use Rattle.word_table.specs.Seats.{Seated};

    ghost Value = { Seated R.View };

    ghost view = { λ seat. record { table = seat.seat.table_id; number = seat.seat.id; view = seat.seat.me.0 } };

    // The table has no slots, so the seat holds none.
    ghost invariant = { λ seat. seat.seat.me.1 ≡ [] };
}
