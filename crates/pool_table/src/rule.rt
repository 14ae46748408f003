//! The rule of a pool's table: the machine's invariant, how a seat learns by its step, and how seats are made and joined.

use crate::about::About;
use crate::facts::SeatFacts;
use word_layout::Shape;
use word_table::{LearnAbout, SeatRule, WordRule, WordSeat, WordTable};

/// The rule of a pool's table: its words and what each seat knows meet the machine's invariant.
pub struct PoolRule;

impl WordRule for PoolRule {
    ghost use Rattle.pool_table.specs.Views.{first_seat};
    ghost use Rattle.pool_table.specs.Rule.{Holds};
    ghost use Rattle.pool_table.specs.Views.{looked};

    type View = SeatFacts;

    type Key = Shape;

    ghost holds = { Holds };

    ghost first = { first_seat };

    ghost learn = { λ _ _ v. looked v };
}

impl LearnAbout<SeatFacts, About> for PoolRule {
    ghost use Rattle.pool_table.specs.Turns.{turned};

    ghost learn_about = { turned };
}

impl SeatRule for PoolRule {
    ghost use Rattle.pool_table.specs.Views.{left, right, both, spent};

    ghost left = { left };

    ghost right = { right };

    ghost both = { both };

    ghost spent = { spent };
}

/// The words of a pool, which threads share by reference.
pub type PoolTable = WordTable<PoolRule>;

/// What steps on such a table. A process's seat makes its steps; it has no bytes.
pub type PoolSeat = WordSeat<PoolRule>;
