// The pass of a process, and the blocks that it holds.
ghost use Rattle.std.specs.Prelude.{◌≡◌, ◌↔◌, IsTrue, length, Contains};
ghost use Rattle.transfer_schedule.specs.Numbers.{after_choice, is_idle};
ghost use Rattle.block_pool.specs.Passing.{HasAge};
ghost use Rattle.block_pool.specs.Standing.{StandsWell};

use crate::process::Process;
use std::marker::Model;
use transfer_schedule::Pending;
use word_layout::Shape;

/// The token of one block. It can't be copied; a block whose token is dropped stays held for good.
///
/// A token of a number stands for the block only while a pass holds it: each call that takes one asks for that.
#[derive(Drop)]
pub struct Block {
    pub(crate) number: u32,
}

impl Model for Block {
    ghost use Rattle.std.specs.Prelude.{ℕ};

    ghost Value = { ℕ };

    ghost view = { λ block. block.number };
}

impl Block {
    /// The number of the block.
    pub fn number(&self) -> u32
        ensures { result ≡ self.now }
    {
        self.number
    }
}

/// The token of one process of a pool. Between two calls it may go to another thread.
///
/// Clauses see the number of the process, what it has seen of the pool's one history, its own entries there, the
/// blocks that it holds with the data words that it knows of them, the numbers of its private pool, how many
/// transfers it began and how many steps it made.
#[derive(Drop)]
pub struct Pass {
    pub(crate) process: Process,
    pub(crate) shape: Shape,
    /// How many blocks it holds.
    pub(crate) holding: u32,
    /// Nothing uses these words. They keep passes of different threads, one behind the other in memory, in other cache lines.
    pub(crate) apart: [u64; 16],
}

impl Model for Pass {
    ghost use Rattle.block_pool.specs.Passing.{Passed, PassFits, pass_of};

    ghost Value = { Passed };

    ghost view = { λ pass. pass_of pass.process.seat };

    ghost invariant = { λ pass. PassFits pass.shape pass.process pass.holding };
}

impl Pass {
    /// With so many spares, neither more nor fewer, no transfer is due.
    const RESTING_SPARES: u32 = 2;

    /// The number of its process.
    pub fn number(&self) -> u32
        ensures { result ≡ self.now.number }
    {
        self.process.transfer.number
    }

    /// How many transfers it has begun.
    pub fn age(&self) -> u64
        ensures { result ≡ self.now.age }
    {
        self.process.transfer.age
    }

    /// How many blocks it holds.
    pub fn holding(&self) -> u32
        ensures { result ≡ length self.now.held }
    {
        self.holding
    }

    /// Whether an allocate or a free that the pass made now would begin with no transfer: none is pending, and none is due. It
    /// takes two loads.
    #[inline]
    pub fn is_quiet(&self) -> bool
        ensures { result ≡ is_idle (after_choice self.now.plan).pending }
    {
        let plan = &self.process.pool.plan;
        plan.pending() == Pending::Idle && plan.spares() == Pass::RESTING_SPARES
    }

    /// Whether it may make an allocate or a free now: no transfer is due, or it has begun fewer than a pass may.
    #[inline]
    pub fn has_age(&self) -> bool
        ensures { IsTrue result ↔ HasAge self.now }
    {
        self.process.transfer.age < self.shape.most_age()
            || self.process.pool.plan.due() == Pending::Idle
    }

    /// The token of a block that the pass holds, by its number.
    ///
    /// It stands for the block only as long as the pass holds it. A second token of the same block is of no use after
    /// the first has been freed: [`Pool::free`](crate::Pool::free), `read` and `write` ask that the pass holds the block.
    pub fn block(&self, number: u32) -> Block
        requires { Contains self.now.held number }
        ensures { result ≡ number }
    {
        Block { number }
    }

    /// What holds of every pass: what it has seen is legal and has its own entries, by which it holds its blocks; it knows
    /// data words of these alone; it keeps at most five batches; and an account of its calls, reached by the schedule,
    /// says how much it keeps and holds together, and why it keeps few.
    ///
    /// It does nothing.
    pub fn stands_well(&self)
        ensures { StandsWell self.now }
    {
        let _ = &self.shape;
    }
}
