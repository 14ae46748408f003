// The table, and the steps on one word.
ghost use Rattle.std.specs.Prelude.{◌≡◌, ◌≢◌, ℕ, ◌+◌, ◌<◌, ◌^◌, [], ◌∷◌, length, IfOk, MatchResult};
ghost use Rattle.word_rule.specs.Moves.{Keeps, Learned, unchanged, replaced_by, exchanged};
ghost use Rattle.word_table.specs.Seats.{SameSeat, met_by};

use crate::plays::{Exchanges, Learning, Loads, Ruled, Stores};
use crate::seat::WordSeat;
use atomic_table::Table;
use pool_model::NoMemory;
use std::alloc::Global;
use std::marker::{Brand, Model};
use step_counter::{Ledger, Steps};
use word_rule::{LearnAbout, WordRule};

/// Words under the rule `R`, which threads share by reference.
///
/// Clauses see which table it is, with the number of its words.
#[derive(Drop)]
pub struct WordTable<R: WordRule> {
    pub(crate) table: Table<u8, R::View, R::Key, Ruled<R>, Global>,
}

impl<R: WordRule> Model for WordTable<R> {
    ghost use Rattle.atomic_table.specs.Seated.{TableId};

    ghost Value = { TableId };

    ghost view = { λ table. table.table.shared.table_id };
}

// Each step is one atomic step of one word, one tick, and one move of its seat. What it tells is the step as
// it happened: the word that it met, and words and views that met the rule before it and meet it after it.
impl<R: WordRule> WordTable<R> {
    /// A table of these words that is told this, and its first seat, which has the number 0.
    ///
    /// `Err` for want of memory only.
    pub fn open(
        alloc: Global,
        words: Vec<u64>,
        about: &R::Key,
    ) -> Result<(WordTable<R>, WordSeat<R>), NoMemory>
        requires { R.holds words.items (R.first about.now ∷ []) }
        ensures words { IfOk result (λ opened. opened.0.words ≡ length words.items) }
        ensures seat { IfOk result (λ opened. (opened.1.table ≡ opened.0) × (opened.1.number ≡ 0)) }
        ensures view { IfOk result (λ opened. opened.1.view ≡ R.first about.now) }
    {
        let (table, seat) = Table::of_words(alloc, words.as_slice(), about)?;
        Ok((WordTable { table }, WordSeat { seat }))
    }

    /// Loads the word at `place`, below the number of words, and answers it.
    #[inline]
    pub fn load<L: Ledger>(&self, seat: &mut WordSeat<R>, place: u32, steps: &mut Steps<L>) -> u64
        requires seat { seat.old.table ≡ self.now }
        requires place { place < self.now.words }
        requires steps { steps.old + 1 < 2 ^ 64 }
        requires rule { Keeps R.holds seat.old.number seat.old.view place unchanged R.learn }
        ensures seat { SameSeat seat.old seat.new }
        ensures steps { steps.new ≡ steps.old + 1 }
        ensures step { Learned R.holds R.learn seat.old.number place unchanged seat.old.view result seat.new.view }
    {
        self.load_as::<(), Brand, L>(seat, place, &(), steps)
    }

    /// A [`load`](WordTable::load) about a value: the view learns what the rule says of that value.
    #[inline]
    pub fn load_with<T, L: Ledger>(
        &self,
        seat: &mut WordSeat<R>,
        place: u32,
        about: &T,
        steps: &mut Steps<L>,
    ) -> u64
    where
        R: LearnAbout<R::View, T>,
        requires seat { seat.old.table ≡ self.now }
        requires place { place < self.now.words }
        requires steps { steps.old + 1 < 2 ^ 64 }
        requires rule { Keeps R.holds seat.old.number seat.old.view place unchanged (R.learn_about about.now) }
        ensures seat { SameSeat seat.old seat.new }
        ensures steps { steps.new ≡ steps.old + 1 }
        ensures step { Learned R.holds (R.learn_about about.now) seat.old.number place unchanged seat.old.view result seat.new.view }
    {
        self.load_as::<T, Brand, L>(seat, place, about, steps)
    }

    #[inline]
    fn load_as<T, M: Learning<R::View>, L: Ledger>(
        &self,
        seat: &mut WordSeat<R>,
        place: u32,
        about: &T,
        steps: &mut Steps<L>,
    ) -> u64
        requires number { M.number ≡ seat.old.number }
        requires seat { seat.old.table ≡ self.now }
        requires place { place < self.now.words }
        requires steps { steps.old + 1 < 2 ^ 64 }
        requires rule { Keeps R.holds M.number seat.old.view place unchanged M.learn }
        ensures seat { SameSeat seat.old seat.new }
        ensures steps { steps.new ≡ steps.old + 1 }
        ensures step { Learned R.holds M.learn M.number place unchanged seat.old.view result seat.new.view }
    {
        // What is learned reads it, in proofs alone.
        let _ = about;
        steps.tick();
        self.table
            .shared
            .load::<Loads<R, M>>(&mut seat.seat, place as usize)
    }

    /// Stores `value` at `place`, below the number of words. The word that it replaces is known to proofs alone.
    #[inline]
    pub fn store<L: Ledger>(
        &self,
        seat: &mut WordSeat<R>,
        place: u32,
        value: u64,
        steps: &mut Steps<L>,
    )
        requires seat { seat.old.table ≡ self.now }
        requires place { place < self.now.words }
        requires steps { steps.old + 1 < 2 ^ 64 }
        requires rule { Keeps R.holds seat.old.number seat.old.view place (replaced_by value) R.learn }
        ensures seat { SameSeat seat.old seat.new }
        ensures steps { steps.new ≡ steps.old + 1 }
        ensures step { (met : ℕ) × Learned R.holds R.learn seat.old.number place (replaced_by value) seat.old.view met seat.new.view }
    {
        self.store_as::<(), Brand, L>(seat, place, value, &(), steps)
    }

    /// A [`store`](WordTable::store) about a value: the view learns what the rule says of that value.
    #[inline]
    pub fn store_with<T, L: Ledger>(
        &self,
        seat: &mut WordSeat<R>,
        place: u32,
        value: u64,
        about: &T,
        steps: &mut Steps<L>,
    )
    where
        R: LearnAbout<R::View, T>,
        requires seat { seat.old.table ≡ self.now }
        requires place { place < self.now.words }
        requires steps { steps.old + 1 < 2 ^ 64 }
        requires rule { Keeps R.holds seat.old.number seat.old.view place (replaced_by value) (R.learn_about about.now) }
        ensures seat { SameSeat seat.old seat.new }
        ensures steps { steps.new ≡ steps.old + 1 }
        ensures step { (met : ℕ)
            × Learned R.holds (R.learn_about about.now) seat.old.number place (replaced_by value) seat.old.view met seat.new.view }
    {
        self.store_as::<T, Brand, L>(seat, place, value, about, steps)
    }

    #[inline]
    fn store_as<T, M: Learning<R::View>, L: Ledger>(
        &self,
        seat: &mut WordSeat<R>,
        place: u32,
        value: u64,
        about: &T,
        steps: &mut Steps<L>,
    )
        requires number { M.number ≡ seat.old.number }
        requires seat { seat.old.table ≡ self.now }
        requires place { place < self.now.words }
        requires steps { steps.old + 1 < 2 ^ 64 }
        requires rule { Keeps R.holds M.number seat.old.view place (replaced_by value) M.learn }
        ensures seat { SameSeat seat.old seat.new }
        ensures steps { steps.new ≡ steps.old + 1 }
        ensures step { (met : ℕ) × Learned R.holds M.learn M.number place (replaced_by value) seat.old.view met seat.new.view }
    {
        // What is learned reads it, in proofs alone.
        let _ = about;
        steps.tick();
        self.table
            .shared
            .store::<Stores<R, M>>(&mut seat.seat, place as usize, value);
    }

    /// Replaces the word at `place`, below the number of words, by `new` where it is `old`, and answers the
    /// word that it met.
    ///
    /// `Ok` exactly where that is `old`; else the word stays.
    #[inline]
    pub fn compare_exchange<L: Ledger>(
        &self,
        seat: &mut WordSeat<R>,
        place: u32,
        old: u64,
        new: u64,
        steps: &mut Steps<L>,
    ) -> Result<u64, u64>
        requires seat { seat.old.table ≡ self.now }
        requires place { place < self.now.words }
        requires steps { steps.old + 1 < 2 ^ 64 }
        requires rule { Keeps R.holds seat.old.number seat.old.view place (exchanged old new) R.learn }
        ensures seat { SameSeat seat.old seat.new }
        ensures steps { steps.new ≡ steps.old + 1 }
        ensures answer { MatchResult result (λ word. word ≡ old) (λ word. word ≢ old) }
        ensures step { Learned R.holds R.learn seat.old.number place (exchanged old new) seat.old.view (met_by result) seat.new.view }
    {
        self.compare_exchange_as::<(), Brand, L>(seat, place, old, new, &(), steps)
    }

    /// A [`compare_exchange`](WordTable::compare_exchange) about a value: the view learns what the rule
    /// says of that value.
    #[inline]
    pub fn compare_exchange_with<T, L: Ledger>(
        &self,
        seat: &mut WordSeat<R>,
        place: u32,
        old: u64,
        new: u64,
        about: &T,
        steps: &mut Steps<L>,
    ) -> Result<u64, u64>
    where
        R: LearnAbout<R::View, T>,
        requires seat { seat.old.table ≡ self.now }
        requires place { place < self.now.words }
        requires steps { steps.old + 1 < 2 ^ 64 }
        requires rule { Keeps R.holds seat.old.number seat.old.view place (exchanged old new) (R.learn_about about.now) }
        ensures seat { SameSeat seat.old seat.new }
        ensures steps { steps.new ≡ steps.old + 1 }
        ensures answer { MatchResult result (λ word. word ≡ old) (λ word. word ≢ old) }
        ensures step { Learned R.holds (R.learn_about about.now) seat.old.number place (exchanged old new)
            seat.old.view (met_by result) seat.new.view }
    {
        self.compare_exchange_as::<T, Brand, L>(seat, place, old, new, about, steps)
    }

    #[inline]
    fn compare_exchange_as<T, M: Learning<R::View>, L: Ledger>(
        &self,
        seat: &mut WordSeat<R>,
        place: u32,
        old: u64,
        new: u64,
        about: &T,
        steps: &mut Steps<L>,
    ) -> Result<u64, u64>
        requires number { M.number ≡ seat.old.number }
        requires seat { seat.old.table ≡ self.now }
        requires place { place < self.now.words }
        requires steps { steps.old + 1 < 2 ^ 64 }
        requires rule { Keeps R.holds M.number seat.old.view place (exchanged old new) M.learn }
        ensures seat { SameSeat seat.old seat.new }
        ensures steps { steps.new ≡ steps.old + 1 }
        ensures answer { MatchResult result (λ word. word ≡ old) (λ word. word ≢ old) }
        ensures step { Learned R.holds M.learn M.number place (exchanged old new) seat.old.view (met_by result) seat.new.view }
    {
        // What is learned reads it, in proofs alone.
        let _ = about;
        steps.tick();
        let met = self
            .table
            .shared
            .compare_exchange::<Exchanges<R, M>>(&mut seat.seat, place as usize, old, new);
        if met == old { Ok(met) } else { Err(met) }
    }
}
