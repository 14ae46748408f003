// One step of a seat.
ghost use Rattle.std.specs.Prelude.{◌≡◌};
ghost use Rattle.interleaving_core.specs.Steps.{next_action};
ghost use Rattle.pool_table.specs.Steps.{MayStep, OneStep, Stepped};
ghost use Rattle.pool_table.specs.Turns.{turning};

use crate::about::About;
use crate::rule::{PoolSeat, PoolTable};
use step_counter::{Ledger, Steps};
use transfer_machine::Action;
use word_layout::Shape;

/// Makes the next step of a seat's process, about what it belongs to: one atomic step of one word, one tick, and one
/// move of the seat. It answers the word that it met; of a store, the one that it left. It takes no memory.
#[inline(always)]
pub fn act<L: Ledger>(
    about: &About,
    action: Action,
    shape: &Shape,
    table: &PoolTable,
    seat: &mut PoolSeat,
    steps: &mut Steps<L>,
) -> u64
    requires may { MayStep shape.now about.now table.now seat.old steps.old }
    requires action { action ≡ next_action shape.now (turning about.now seat.old.view.mind.view) }
    ensures one { OneStep seat.old seat.new steps.old steps.new }
    ensures step { Stepped about.now seat.old.view result seat.new.view }
{
    match action {
        Action::Load { name } => table.load_with(seat, shape.place(name), about, steps),
        Action::Store { name, word } => {
            table.store_with(seat, shape.place(name), word, about, steps);
            word
        }
        Action::Exchange { name, old, new } => {
            match table.compare_exchange_with(seat, shape.place(name), old, new, about, steps) {
                Ok(word) => word,
                Err(word) => word,
            }
        }
    }
}
