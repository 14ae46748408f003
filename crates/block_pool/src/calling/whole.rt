// The whole calls of a process.
ghost use Rattle.std.specs.Prelude.{◌≡◌, ℕ, ◌+◌, ◌<◌, ◌^◌, ◌↔◌, None, Some, [], ◌∷◌, Contains};
ghost use Rattle.word_table.specs.Seats.{SameSeat};
ghost use Rattle.pool_model.specs.declared.entry.Entry.TheVariants.{Back};
ghost use Rattle.transfer_schedule.specs.Numbers.{after_took_one, after_gave_one};
ghost use Rattle.pool_machine.specs.Conditions.{HasAgeFor};
ghost use Rattle.pool_machine.specs.declared.call.Call.TheVariants.{Allocate, Free, Read, Write};
ghost use Rattle.pool_table.specs.Minds.{number_of, known_in, held_in};
ghost use Rattle.block_pool.specs.Passing.{BetweenCalls};
ghost use Rattle.block_pool.specs.Calls.{HasNoBlock, entry_for, IsReady, MayTouch, PoolCalled, WordCalled};

use crate::process::Process;
use pool_machine::Call;
use pool_table::PoolTable;
use step_counter::{Ledger, Steps};
use word_layout::Shape;

impl Process {
    /// An allocate: the transfer that is due begins, a quantum of steps is made of the pending one, and then the own
    /// step. Answers the block that it got, if any.
    #[inline(always)]
    pub fn allocate<L: Ledger>(
        &mut self,
        shape: &Shape,
        table: &PoolTable,
        steps: &mut Steps<L>,
    ) -> Option<u32>
        requires ready { IsReady shape.now table.now self.old }
        requires steps { steps.old + shape.now.quantum + 1 < 2 ^ 64 }
        requires young { HasAgeFor shape.now self.old.pool.plan self.old.transfer.age }
        ensures seat { SameSeat self.old.seat self.new.seat }
        ensures called { (called : PoolCalled shape.now Allocate (entry_for (number_of self.old.seat.view.mind) result ∷ []) after_took_one
            steps.old steps.new self.old self.new) × ((result ≡ None) ↔ HasNoBlock called.ran) }
        ensures between { BetweenCalls shape.now self.new }
    {
        self.begin();
        let made = self.run_pending(Call::Allocate, shape, table, steps);
        self.own_allocate(made, Call::Allocate, shape, table, steps)
    }

    /// A free, likewise.
    #[inline(always)]
    pub fn free<L: Ledger>(
        &mut self,
        block: u32,
        shape: &Shape,
        table: &PoolTable,
        steps: &mut Steps<L>,
    )
        requires ready { IsReady shape.now table.now self.old }
        requires steps { steps.old + shape.now.quantum + 1 < 2 ^ 64 }
        requires young { HasAgeFor shape.now self.old.pool.plan self.old.transfer.age }
        requires held { Contains (held_in self.old.seat.view.mind) block }
        ensures seat { SameSeat self.old.seat self.new.seat }
        ensures called { PoolCalled shape.now (Free block) (Back (number_of self.old.seat.view.mind) block ∷ []) after_gave_one
            steps.old steps.new self.old self.new }
        ensures between { BetweenCalls shape.now self.new }
    {
        self.begin();
        let made = self.run_pending(Call::Free { block }, shape, table, steps);
        self.own_free(made, block, shape, table, steps);
    }

    /// A read: its own step alone.
    #[inline]
    pub fn read<L: Ledger>(
        &mut self,
        block: u32,
        index: u32,
        shape: &Shape,
        table: &PoolTable,
        steps: &mut Steps<L>,
    ) -> u64
        requires may { MayTouch shape.now table.now self.old block index }
        requires steps { steps.old + 1 < 2 ^ 64 }
        ensures called { WordCalled shape.now (Read block index) steps.old steps.new self.old self.new }
        ensures value { (value : ℕ) → known_in self.old.seat.view.mind.known block index ≡ Some value → result ≡ value }
    {
        self.own_read(block, index, shape, table, steps)
    }

    /// A write: its own step alone.
    #[inline]
    pub fn write<L: Ledger>(
        &mut self,
        block: u32,
        index: u32,
        value: u64,
        shape: &Shape,
        table: &PoolTable,
        steps: &mut Steps<L>,
    )
        requires may { MayTouch shape.now table.now self.old block index }
        requires steps { steps.old + 1 < 2 ^ 64 }
        ensures called { WordCalled shape.now (Write block index value) steps.old steps.new self.old self.new }
    {
        self.own_write(block, index, value, shape, table, steps);
    }
}
