// The numbers of a pool.
ghost use Rattle.std.specs.Prelude.{◌≡◌, ◌≤◌, ◌↔◌, IsTrue, IfOk, IfErr};
ghost use Rattle.word_layout.specs.Sizes.{IsLength, IsQuantum, transfer_steps};
ghost use Rattle.word_layout.specs.Faults.{IsFirstFault};

mod places;

use crate::fault::ShapeFault;
use crate::tagged::Tagged;
use std::marker::Model;

/// The numbers of a pool, all within their limits, and what follows from them: where in its table the slots, the
/// next words and the data words begin, and the number of a process's last transfer. Contracts see the numbers
/// alone, as `Sizes`.
#[derive(Clone, Copy, Debug, PartialEq, Eq, Hash)]
pub struct Shape {
    processes: u32,
    batches: u32,
    words: u32,
    quantum: u32,
    length: u32,
    first_slot: u32,
    first_next: u32,
    first_data: u32,
    last_age: u64,
}

impl Model for Shape {
    ghost use Rattle.word_layout.specs.Sizes.{Sizes};

    ghost Value = { Sizes };

    ghost use Rattle.word_layout.specs.Names.{slots_start, nexts_start, data_start};
    ghost use Rattle.word_layout.specs.Packing.{most_age};
    ghost use Rattle.word_layout.specs.Kept.{sizes_of, KeepsItsPlaces};

    ghost view = { sizes_of };

    ghost invariant = { KeepsItsPlaces };

    ghost inverse = { λ sizes. record {
      processes = sizes.processes;
      batches = sizes.batches;
      words = sizes.words;
      quantum = sizes.quantum;
      length = sizes.length;
      first_slot = slots_start sizes;
      first_next = nexts_start sizes;
      first_data = data_start sizes;
      last_age = most_age sizes;
    } };

    ghost inverse_ok = { λ shape keeps i. record {
      processes = shape.processes;
      batches = shape.batches;
      words = shape.words;
      quantum = shape.quantum;
      length = shape.length;
      first_slot = keeps.first_slot i;
      first_next = keeps.first_next i;
      first_data = keeps.first_data i;
      last_age = keeps.last_age i;
    } };
}

impl Shape {
    ghost use Rattle.std.specs.Prelude.{ℕ, ◌-◌, ◌^◌, ◌<◌, List};
    ghost use Rattle.word_layout.specs.Sizes.{Sizes, IsShape, sizes, blocks, limits_of, transfer_bound};
    ghost use Rattle.word_layout.specs.Packing.{most_age, tag_limit};
    ghost use Rattle.pool_model.specs.declared.entry.Entry.{Entry};
    ghost use Rattle.pool_model.specs.Limits.{greatest_slack, window};
    ghost use Rattle.pool_model.specs.History.{slack};

    /// The most processes of a pool.
    const MOST_PROCESSES: u32 = 32;

    /// The most blocks of a pool.
    pub const MOST_BLOCKS: u32 = 1 << 22;

    /// The most data words of a block.
    const MOST_WORDS: u32 = 8;

    /// The quantum of a shape that names none.
    const QUANTUM: u32 = 8;

    /// A shape whose calls make at most 8 steps of a transfer.
    pub fn new(processes: u32, batches: u32, words: u32) -> Result<Shape, ShapeFault>
        ensures shape { IfOk result IsShape }
        ensures processes { IfOk result (λ shape. shape.processes ≡ processes) }
        ensures batches { IfOk result (λ shape. shape.batches ≡ batches) }
        ensures words { IfOk result (λ shape. shape.words ≡ words) }
        ensures quantum { IfOk result (λ shape. shape.quantum ≡ 8) }
        ensures fault { IfErr result (IsFirstFault processes batches words 8) }
    {
        Shape::with_quantum(processes, batches, words, Shape::QUANTUM)
    }

    /// A shape whose calls make at most `quantum` steps of a transfer: 1, 2, 4, 8 or 16. The fewer, the
    /// longer are the batches.
    pub fn with_quantum(
        processes: u32,
        batches: u32,
        words: u32,
        quantum: u32,
    ) -> Result<Shape, ShapeFault>
        ensures shape { IfOk result IsShape }
        ensures processes { IfOk result (λ shape. shape.processes ≡ processes) }
        ensures batches { IfOk result (λ shape. shape.batches ≡ batches) }
        ensures words { IfOk result (λ shape. shape.words ≡ words) }
        ensures quantum { IfOk result (λ shape. shape.quantum ≡ quantum) }
        ensures fault { IfErr result (IsFirstFault processes batches words quantum) }
    {
        if processes == 0 {
            return Err(ShapeFault::NoProcess);
        }
        if processes > Shape::MOST_PROCESSES {
            return Err(ShapeFault::ManyProcesses);
        }
        if batches < 2 * processes {
            return Err(ShapeFault::FewBatches);
        }
        if !is_quantum(quantum) {
            return Err(ShapeFault::BadQuantum);
        }
        let length = least_length(processes, quantum);
        let blocks = u64::from(batches) * u64::from(length);
        if blocks > u64::from(Shape::MOST_BLOCKS) {
            return Err(ShapeFault::ManyBlocks);
        }
        if words > Shape::MOST_WORDS {
            return Err(ShapeFault::WideBlock);
        }
        Ok(Shape::laid_out(processes, batches, words, quantum, length))
    }

    /// The shape of these numbers, with what follows from them.
    #[tactic(auto, unfolding(crate::specs::Sizes::blocks, crate::specs::Packing::most_age))]
    fn laid_out(processes: u32, batches: u32, words: u32, quantum: u32, length: u32) -> Shape
        requires { IsShape (sizes processes batches words quantum length) }
        ensures { result ≡ sizes processes batches words quantum length }
    {
        let first_slot = 1 + processes + (2 * processes + 1) * (2 * processes + 2);
        let first_next = first_slot + batches;
        Shape {
            processes,
            batches,
            words,
            quantum,
            length,
            first_slot,
            first_next,
            first_data: first_next + batches * length,
            last_age: (Tagged::TAG_LIMIT - 3) / u64::from(processes),
        }
    }

    /// How many processes share the pool, 1 to 32.
    #[inline]
    pub fn processes(&self) -> u32
        ensures value { result ≡ self.now.processes }
        ensures shape { IsShape self.now }
    {
        self.processes
    }

    /// How many batches the blocks form, at least two a process.
    #[inline]
    pub fn batches(&self) -> u32
        ensures value { result ≡ self.now.batches }
        ensures shape { IsShape self.now }
    {
        self.batches
    }

    /// How many data words a block has, 0 to 8.
    #[inline]
    pub fn words(&self) -> u32
        ensures value { result ≡ self.now.words }
        ensures shape { IsShape self.now }
    {
        self.words
    }

    /// How many steps of a transfer one call makes at most: 1, 2, 4, 8 or 16.
    #[inline]
    pub fn quantum(&self) -> u32
        ensures value { result ≡ self.now.quantum }
        ensures shape { IsShape self.now }
    {
        self.quantum
    }

    /// How many blocks a batch has.
    #[inline]
    pub fn length(&self) -> u32
        ensures value { result ≡ self.now.length }
        ensures shape { IsShape self.now }
    {
        self.length
    }

    /// How many blocks the pool has, at most 2^22.
    #[tactic(auto, unfolding(crate::specs::Sizes::blocks))]
    #[inline]
    pub fn blocks(&self) -> u32
        ensures value { result ≡ blocks self.now }
        ensures shape { IsShape self.now }
    {
        self.batches * self.length
    }

    /// How many blocks may be unheld at most at some moment shortly before a refusal: the slack of that moment
    /// is never more.
    pub fn slack(&self) -> u32
        ensures value { result ≡ greatest_slack (limits_of self.now) }
        ensures greatest { (history : List Entry) (place : ℕ) → slack (limits_of self.now) history place ≤ result }
    {
        5 * self.processes * self.length
    }

    /// How many of a caller's last calls a refusal looks back on: among the moments of so many calls is one at
    /// which no more blocks than the slack were unheld.
    pub fn window(&self) -> u32
        ensures { result ≡ window (limits_of self.now) }
    {
        2 * self.length
    }

    /// How many transfers a process may begin in the life of the pool: the greatest number for which all
    /// transfers of all processes have tags, `(2^40 - 3) / processes`. No shape has fewer than 2^35 - 1.
    #[tactic(auto, using(crate::proofs::Ages::many_ages, crate::proofs::Ages::age_is_tag))]
    #[inline]
    pub fn most_age(&self) -> u64
        ensures value { result ≡ most_age self.now }
        ensures many { 2 ^ 35 - 1 ≤ result }
        ensures tag { result < tag_limit }
    {
        self.last_age
    }

    /// How many steps a transfer takes at most.
    pub fn transfer_bound(&self) -> u32
        ensures { result ≡ transfer_bound self.now }
    {
        transfer_steps(self.processes)
    }
}

/// How many blocks a batch has: just enough that its calls have room for a transfer.
#[tactic(auto, using(crate::proofs::Lengths::quotient_is_length))]
fn least_length(processes: u32, quantum: u32) -> u32
    requires few_processes { processes ≤ 32 }
    requires some_step { 1 ≤ quantum }
    ensures { IsLength processes quantum result }
{
    transfer_steps(processes).div_ceil(quantum)
}

/// How many steps a transfer among so many processes takes at most.
fn transfer_steps(processes: u32) -> u32
    requires { processes ≤ 32 }
    ensures { result ≡ transfer_steps processes }
{
    16 * processes + 15
}

/// Whether a call may have this quantum.
fn is_quantum(quantum: u32) -> bool
    ensures { IsTrue result ↔ IsQuantum quantum }
{
    matches!(quantum, 1 | 2 | 4 | 8 | 16)
}
