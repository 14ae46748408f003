// A store over a pool, and its calls.
ghost use Rattle.std.specs.Prelude.{◌≡◌, ◌≢◌, ◌↔◌, ◌+◌, ◌≤◌, ◌<◌, ◌^◌, ℕ, Contains, length};
ghost use Rattle.pool_model.specs.declared.entry.Entry.TheVariants.{Back};
ghost use Rattle.pool_table.specs.Turns.{forget};
ghost use Rattle.block_pool.specs.Passing.{HasAge, IsOf, Pooled};
ghost use Rattle.block_pool.specs.Calls.{SamePass, Entered, entry_of};
ghost use Rattle.object_store.specs.Objects.{HoldsWords};
ghost use Rattle.object_store.specs.Calls.{AllocatedFirst, CountedWithin, KeepsOthers, answer_of, written};
ghost use Rattle.object_store.specs.Putting.{IsPut, least_of_put};

use crate::object::{Object, Put};
use crate::words::{read_words, write_words};
use block_pool::{Answer, Pass, Pool};
use std::marker::{Model, PhantomData};
use std::snapshot::Snapshot;
use step_counter::{Ledger, Steps};
use store_script::Record;

/// Keeps values of one type in the blocks of a pool, one a block. Clauses see the pool, whose blocks have enough words.
#[derive(Drop)]
pub struct Store<'a, R: Record> {
    pool: &'a Pool,
    of: PhantomData<R>,
}

impl<'a, R: Record> Model for Store<'a, R> {
    ghost use Rattle.std.specs.Prelude.{◌≤◌};
    ghost use Rattle.block_pool.specs.Passing.{Pooled};

    ghost Value = { Pooled };

    ghost view = { λ store. store.pool.now };

    ghost invariant = { λ store. R.WORDS ≤ store.pool.now.sizes.words };
}

impl<'a, R: Record + Drop> Store<'a, R> {
    /// A store in the blocks of this pool, which have as many words as a value takes.
    pub fn new(pool: &'a Pool) -> Store<'a, R>
        requires { R.WORDS ≤ pool.now.sizes.words }
        ensures { result ≡ pool.now }
    {
        Store {
            pool,
            of: PhantomData,
        }
    }

    /// Puts a value into a block that nobody holds. It takes no memory and waits for nobody.
    ///
    /// `Full` comes exactly where its allocate was `Dry`, with the same value; then the pass holds and knows what it did.
    /// Else the pass holds the object's block, and knows its first words as those of the value. In both cases the pass has
    /// one entry more, that of the allocate, and every other block that it held it still holds, with its known words. It
    /// makes at most a quantum of steps and one, and besides one for each word of the value where it is stored.
    pub fn put<L: Ledger>(&self, pass: &mut Pass, value: R, steps: &mut Steps<L>) -> Put<R>
        requires pass { IsOf self.now pass.old }
        requires young { HasAge pass.old }
        requires room { steps.old + pass.old.sizes.quantum + 1 + R.WORDS < 2 ^ 64 }
        ensures pass { SamePass pass.old pass.new }
        ensures steps { CountedWithin (least_of_put R.WORDS result) (pass.old.sizes.quantum + least_of_put R.WORDS result)
            steps.old steps.new pass.old pass.new }
        ensures entry { Entered (entry_of pass.old.number (answer_of result)) pass.old pass.new }
        ensures allocate { AllocatedFirst (answer_of result) pass.old pass.new }
        ensures put { IsPut R.WORDS R.words_of value pass.old pass.new result }
        ensures age { pass.new.age ≤ pass.old.age + 1 }
    {
        match self.pool.allocate(pass, steps) {
            Answer::Got(block) => {
                write_words(self.pool, pass, &block, R::WORDS, &value.to_words(), steps);
                let value = Snapshot::of(&value);
                Put::Stored(Object { block, value })
            }
            Answer::Dry => Put::Full(value),
        }
    }

    /// The value that was put or set last: the words of its block say it. One step for each of its words, at any age; it
    /// takes no memory. Of what clauses see of the pass only its moves change.
    pub fn get<L: Ledger>(&self, pass: &mut Pass, object: &Object<R>, steps: &mut Steps<L>) -> R
        requires pass { IsOf self.now pass.old }
        requires object { HoldsWords R.WORDS (R.words_of object.now.value) object.now.block pass.old }
        requires room { steps.old + R.WORDS < 2 ^ 64 }
        ensures value { result ≡ object.now.value }
        ensures pass { pass.new ≡ record pass.old { moves = pass.old.moves + R.WORDS } }
        ensures steps { steps.new ≡ steps.old + R.WORDS }
    {
        R::from_words(&read_words(self.pool, pass, &object.block, R::WORDS, steps))
    }

    /// Another value in the object's block. One step for each of its words, at any age; it takes no memory. The pass knows
    /// these words as those of the new value then; all else that it held and knew stays.
    pub fn set<L: Ledger>(
        &self,
        pass: &mut Pass,
        object: &mut Object<R>,
        value: &R,
        steps: &mut Steps<L>,
    )
        requires pass { IsOf self.now pass.old }
        requires object { HoldsWords R.WORDS (R.words_of object.old.value) object.old.block pass.old }
        requires room { steps.old + R.WORDS < 2 ^ 64 }
        ensures object { object.new ≡ record object.old { value = value.now } }
        ensures kept { HoldsWords R.WORDS (R.words_of value.now) object.old.block pass.new }
        ensures others { KeepsOthers object.old.block pass.old pass.new }
        ensures pass { pass.new ≡ record pass.old {
          moves = pass.old.moves + R.WORDS;
          known = written object.old.block (R.words_of value.now) R.WORDS pass.old.known;
        } }
        ensures steps { steps.new ≡ steps.old + R.WORDS }
    {
        write_words(
            self.pool,
            pass,
            &object.block,
            R::WORDS,
            &value.to_words(),
            steps,
        );
        object.value = Snapshot::of(value);
    }

    /// Takes an object out of the store: answers the value that was put or set last, and frees its block. It never
    /// refuses, takes no memory and waits for nobody.
    ///
    /// It makes a step for each of its words, at most a quantum of steps of the pass's pending transfer and one of its own.
    /// The pass has one entry more, that of the free; it holds one block fewer and forgets that block's words, and every
    /// other block that it held it still holds, with its known words.
    pub fn take<L: Ledger>(&self, pass: &mut Pass, object: Object<R>, steps: &mut Steps<L>) -> R
        requires pass { IsOf self.now pass.old }
        requires young { HasAge pass.old }
        requires object { HoldsWords R.WORDS (R.words_of object.value) object.block pass.old }
        requires room { steps.old + pass.old.sizes.quantum + 1 + R.WORDS < 2 ^ 64 }
        ensures value { result ≡ object.value }
        ensures pass { SamePass pass.old pass.new }
        ensures steps { CountedWithin (R.WORDS + 1) (pass.old.sizes.quantum + 1 + R.WORDS)
            steps.old steps.new pass.old pass.new }
        ensures entry { Entered (Back pass.old.number object.block) pass.old pass.new }
        ensures known { pass.new.known ≡ forget object.block pass.old.known }
        ensures others { KeepsOthers object.block pass.old pass.new }
        ensures fewer { length pass.new.held + 1 ≡ length pass.old.held }
        ensures age { pass.new.age ≤ pass.old.age + 1 }
    {
        let words = read_words(self.pool, pass, &object.block, R::WORDS, steps);
        let Object { block, .. } = object;
        pass.stands_well();
        self.pool.free(pass, block, steps);
        R::from_words(&words)
    }
}
