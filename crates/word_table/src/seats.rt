// Making a seat of a seat, and joining two.
ghost use Rattle.std.specs.Prelude.{◌≡◌, ℕ, ◌+◌, ◌<◌, ◌^◌};
ghost use Rattle.word_rule.specs.Moves.{Keeps, Splits, Joins, Learned, unchanged};
ghost use Rattle.word_table.specs.Seats.{SameSeat};

use crate::plays::Seating;
use crate::{WordSeat, WordTable};
use step_counter::{Ledger, Steps};
use word_rule::SeatRule;

impl<R: SeatRule> WordTable<R> {
    /// Makes a new seat of this one, which keeps the left part of its view. The new seat has the right part.
    ///
    /// It is one step, a load of word 0, whatever that word is.
    #[inline]
    pub fn split<L: Ledger>(&self, seat: &mut WordSeat<R>, steps: &mut Steps<L>) -> WordSeat<R>
        requires seat { seat.old.table ≡ self.now }
        requires word { 0 < self.now.words }
        requires steps { steps.old + 1 < 2 ^ 64 }
        requires rule { Splits R.holds seat.old.number seat.old.view (R.left seat.old.view) (R.right seat.old.view) }
        ensures seat { SameSeat seat.old seat.new }
        ensures new { result.table ≡ self.now }
        ensures steps { steps.new ≡ steps.old + 1 }
        ensures left { seat.new.view ≡ R.left seat.old.view }
        ensures right { result.view ≡ R.right seat.old.view }
    {
        steps.tick();
        let new = self.table.shared.split_seat::<Seating<R>>(&mut seat.seat);
        WordSeat { seat: new }
    }

    /// Joins the view of the spent seat to that of the kept one, and then makes a step of the kept seat.
    ///
    /// It is two steps, both a load of word 0.
    #[inline]
    pub fn join<L: Ledger>(&self, kept: &mut WordSeat<R>, spent: WordSeat<R>, steps: &mut Steps<L>)
        requires kept { kept.old.table ≡ self.now }
        requires spent { spent.table ≡ self.now }
        requires word { 0 < self.now.words }
        requires steps { steps.old + 2 < 2 ^ 64 }
        requires join { Joins R.holds kept.old.number kept.old.view spent.number spent.view (R.both kept.old.view spent.view) R.spent }
        requires rule { Keeps R.holds kept.old.number (R.both kept.old.view spent.view) 0 unchanged R.learn }
        ensures seat { SameSeat kept.old kept.new }
        ensures steps { steps.new ≡ steps.old + 2 }
        ensures step { (met : ℕ) × Learned R.holds R.learn kept.old.number 0 unchanged (R.both kept.old.view spent.view) met kept.new.view }
    {
        let WordSeat { seat: other } = spent;
        steps.tick();
        self.table
            .shared
            .join_seat::<Seating<R>>(&mut kept.seat, other);
        self.load(kept, 0, steps);
    }
}
