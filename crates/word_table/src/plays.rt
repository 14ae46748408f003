// What `atomic_table` asks of a caller: the rule, and what each kind of step tells.
ghost use Rattle.std.specs.Prelude.{◌≡◌, ℕ, List};
ghost use Rattle.word_rule.specs.Moves.{Learned, unchanged, replaced_by, exchanged};

use atomic_table::{Join, Play, Split, TableRule};
use std::marker::{Brand, PhantomData};
use word_rule::{SeatRule, WordRule};

/// The move that goes with a step: which seat makes it, and how its view learns. Each call picks it.
pub(crate) trait Learning<V> {
    ghost number: { ℕ };

    ghost learn: { List ℕ → List V → V → V };
}

impl<V> Learning<V> for Brand {
    ghost number = { 0 };

    ghost learn = { λ _ _ view. view };
}

/// The rule `R` over words alone, with what its table is told.
pub(crate) struct Ruled<R> {
    rule: PhantomData<R>,
}

impl<R: WordRule> TableRule<u8, R::View, R::Key> for Ruled<R> {
    ghost holds = { λ _ state. R.holds state.words state.views };

    ghost first = { R.first };
}

/// What a load tells: the step, with the word that it answers.
pub(crate) struct Loads<R, M> {
    of: PhantomData<(R, M)>,
}

impl<R: WordRule, M: Learning<R::View>> Play<u8, R::View> for Loads<R, M> {
    ghost then = { λ step before met after. (after.1 ≡ before.1)
        × Learned R.holds M.learn M.number step.word unchanged before.0 met after.0 };
}

/// What a store tells: the step, with some word, since a store doesn't answer what it replaced.
pub(crate) struct Stores<R, M> {
    of: PhantomData<(R, M)>,
}

impl<R: WordRule, M: Learning<R::View>> Play<u8, R::View> for Stores<R, M> {
    ghost then = { λ step before stored after. (after.1 ≡ before.1)
        × ((met : ℕ) × Learned R.holds M.learn M.number step.word (replaced_by step.first) before.0 met after.0) };
}

/// What a compare and exchange tells: the step, with the word that it answers.
pub(crate) struct Exchanges<R, M> {
    of: PhantomData<(R, M)>,
}

impl<R: WordRule, M: Learning<R::View>> Play<u8, R::View> for Exchanges<R, M> {
    ghost then = { λ step before met after. (after.1 ≡ before.1)
        × Learned R.holds M.learn M.number step.word (exchanged step.first step.second) before.0 met after.0 };
}

/// How the rule `R` splits and joins views.
pub(crate) struct Seating<R> {
    rule: PhantomData<R>,
}

impl<R: SeatRule> Split<R::View> for Seating<R> {
    ghost left = { R.left };

    ghost right = { R.right };
}

impl<R: SeatRule> Join<R::View> for Seating<R> {
    ghost both = { R.both };

    ghost spent = { R.spent };
}
