// The pool, and the calls that passes make of it.
ghost use Rattle.std.specs.Prelude.{◌≡◌, ℕ, ◌+◌, ◌<◌, ◌≤◌, ◌^◌, Some, ◌∷◌, Contains};
ghost use Rattle.word_layout.specs.Sizes.{limits_of};
ghost use Rattle.pool_model.specs.declared.entry.Entry.TheVariants.{Back};
ghost use Rattle.pool_model.specs.Legal.{IsLegal};
ghost use Rattle.transfer_schedule.specs.Numbers.{after_gave_one};
ghost use Rattle.pool_table.specs.Minds.{known_in};
ghost use Rattle.pool_table.specs.Turns.{forget};
ghost use Rattle.block_pool.specs.Passing.{HasAge, IsOf};
ghost use Rattle.block_pool.specs.Calls.{SamePass, Counted, Entered, WasFree, Allocated, PlanMoved, entry_of};
ghost use Rattle.block_pool.specs.declared.pool.Answer.TheVariants.{Got};

use crate::pass::{Block, Pass};
use pool_table::PoolTable;
use std::marker::Model;
use step_counter::{Ledger, Steps};
use word_layout::Shape;

/// The blocks of a pool, which its passes share. Threads may use it by reference, each with a pass of its own.
#[derive(Drop)]
pub struct Pool {
    pub(crate) shape: Shape,
    pub(crate) table: PoolTable,
}

impl Model for Pool {
    ghost use Rattle.std.specs.Prelude.{◌≡◌};
    ghost use Rattle.word_layout.specs.Names.{table_words};
    ghost use Rattle.block_pool.specs.Passing.{Pooled};

    ghost Value = { Pooled };

    ghost view = { λ pool. record { table = pool.table; sizes = pool.shape } };

    ghost invariant = { λ pool. pool.table.words ≡ table_words pool.shape };
}

/// How an allocate is answered.
#[derive(Drop)]
pub enum Answer {
    /// A block that nobody held. The pass holds it now.
    Got(Block),
    /// The pass's own pool has no block.
    Dry,
}

impl Pool {
    /// The shape of the pool.
    pub fn shape(&self) -> &Shape
        ensures { result.now ≡ self.now.sizes }
    {
        &self.shape
    }

    /// Gets a block that nobody holds. It takes no memory and waits for nobody.
    ///
    /// It makes at most a quantum of steps of the pass's pending transfer and one of its own. `Dry` comes exactly where
    /// the pass has no block after the steps of the transfer: its current list is empty, and it has no spare. In both
    /// cases the pass has one entry more, which stands at the end of what it has seen; that is a legal history, so few
    /// blocks were unheld at a moment before a `Dry`. A block that is got was held neither by the pass nor, in that history
    /// right before, by anybody else. What the pass held and knew stays.
    #[inline(always)]
    pub fn allocate<L: Ledger>(&self, pass: &mut Pass, steps: &mut Steps<L>) -> Answer
        requires pass { IsOf self.now pass.old }
        requires young { HasAge pass.old }
        requires room { steps.old + pass.old.sizes.quantum + 1 < 2 ^ 64 }
        ensures pass { SamePass pass.old pass.new }
        ensures steps { Counted pass.old.sizes.quantum steps.old steps.new pass.old pass.new }
        ensures entry { Entered (entry_of pass.old.number result) pass.old pass.new }
        ensures legal { IsLegal (limits_of pass.old.sizes) pass.new.seen }
        ensures free { (block : ℕ) → result ≡ Got block → WasFree block pass.old pass.new }
        ensures known { pass.new.known ≡ pass.old.known }
        ensures plan { Allocated result pass.old pass.new }
        ensures age { pass.new.age ≤ pass.old.age + 1 }
    {
        match pass.process.allocate(&pass.shape, &self.table, steps) {
            Some(number) => {
                pass.holding += 1;
                Answer::Got(Block { number })
            }
            None => Answer::Dry,
        }
    }

    /// Takes a block back that the pass holds. It never refuses, takes no memory and waits for nobody.
    ///
    /// It makes at most a quantum of steps of the pass's pending transfer and one of its own. The pass has one entry more,
    /// which stands at the end of what it has seen; it holds the block no more, and forgets its data words. All else that
    /// it held and knew stays.
    #[inline(always)]
    pub fn free<L: Ledger>(&self, pass: &mut Pass, block: Block, steps: &mut Steps<L>)
        requires pass { IsOf self.now pass.old }
        requires young { HasAge pass.old }
        requires held { Contains pass.old.held block }
        requires room { steps.old + pass.old.sizes.quantum + 1 < 2 ^ 64 }
        ensures pass { SamePass pass.old pass.new }
        ensures steps { Counted pass.old.sizes.quantum steps.old steps.new pass.old pass.new }
        ensures entry { Entered (Back pass.old.number block) pass.old pass.new }
        ensures legal { IsLegal (limits_of pass.old.sizes) pass.new.seen }
        ensures known { pass.new.known ≡ forget block pass.old.known }
        ensures plan { PlanMoved after_gave_one pass.old pass.new }
        ensures age { pass.new.age ≤ pass.old.age + 1 }
    {
        let Block { number } = block;
        pass.process.free(number, &pass.shape, &self.table, steps);
        pass.holding -= 1;
    }

    /// Loads data word `index` of a block that the pass holds: what was written to it last since the block was got, and
    /// some number where nothing was. It is one step, at any age, and takes no memory. Of what clauses see of the pass
    /// only its moves change.
    pub fn read<L: Ledger>(
        &self,
        pass: &mut Pass,
        block: &Block,
        index: u32,
        steps: &mut Steps<L>,
    ) -> u64
        requires pass { IsOf self.now pass.old }
        requires held { Contains pass.old.held block.now }
        requires index { index < pass.old.sizes.words }
        requires room { steps.old + 1 < 2 ^ 64 }
        ensures pass { pass.new ≡ record pass.old { moves = pass.old.moves + 1 } }
        ensures steps { steps.new ≡ steps.old + 1 }
        ensures value { (value : ℕ) → known_in pass.old.known block.now index ≡ Some value → result ≡ value }
    {
        pass.process
            .read(block.number, index, &pass.shape, &self.table, steps)
    }

    /// Stores data word `index` of a block that the pass holds: it knows that word then. It is one step, at any age, and
    /// takes no memory. All else stays.
    pub fn write<L: Ledger>(
        &self,
        pass: &mut Pass,
        block: &Block,
        index: u32,
        value: u64,
        steps: &mut Steps<L>,
    )
        requires pass { IsOf self.now pass.old }
        requires held { Contains pass.old.held block.now }
        requires index { index < pass.old.sizes.words }
        requires room { steps.old + 1 < 2 ^ 64 }
        ensures pass { pass.new ≡ record pass.old {
          moves = pass.old.moves + 1;
          known = record { block = block.now; index = index; value = value } ∷ pass.old.known;
        } }
        ensures steps { steps.new ≡ steps.old + 1 }
    {
        pass.process.write(block.number, index, value, &pass.shape, &self.table, steps);
    }
}
