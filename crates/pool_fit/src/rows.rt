// What a pool of one quantum needs.
ghost use Rattle.std.specs.Prelude.{◌≡◌, ℕ, ◌*◌, ◌^◌, ◌<◌, ◌≤◌, IfNone, IfSome};
ghost use Rattle.word_layout.specs.Sizes.{IsShape};
ghost use Rattle.pool_sizing.specs.Enough.{AreEnough, AreLeastEnough};
ghost use Rattle.pool_fit.specs.Rows.{IsLeastPoolIfAny, IsPoolOf, IsQuantumRow};

use pool_sizing::{enough_batches, memory};
use word_layout::Shape;

/// What a pool of one quantum needs that refuses nothing.
#[derive(Clone, Copy, Debug, PartialEq, Eq, Hash)]
pub struct QuantumRow {
    /// How many steps of a transfer a call makes at most: with one more, all its counted steps.
    pub quantum: u32,
    /// How many blocks a batch has.
    pub length: u32,
    /// The pool with the fewest batches; `None` where no pool has enough blocks.
    pub pool: Option<EnoughPool>,
}

/// A pool with just enough batches.
#[derive(Clone, Copy, Debug, PartialEq, Eq, Hash)]
pub struct EnoughPool {
    pub batches: u32,
    pub blocks: u32,
    /// The bytes of the pool's words and marks, and of the memory that its blocks stand for.
    pub bytes: u64,
}

/// The pool with the fewest batches that refuses nothing, where at most `live` blocks are held together. It has no data
/// words. `None` where no pool has enough blocks.
fn least_pool(processes: u32, quantum: u32, live: u128) -> Option<Shape>
    ensures least { IfSome result (λ pool. AreLeastEnough processes quantum live pool.batches) }
    ensures shape { IfSome result IsShape }
    ensures processes { IfSome result (λ pool. pool.processes ≡ processes) }
    ensures words { IfSome result (λ pool. pool.words ≡ 0) }
    ensures quantum { IfSome result (λ pool. pool.quantum ≡ quantum) }
    ensures none { IfNone result ((batches : ℕ) → AreEnough processes quantum live batches → ⊥) }
{
    let Ok(live) = u32::try_from(live) else {
        return None;
    };
    let Some(batches) = enough_batches(processes, quantum, live) else {
        return None;
    };
    match Shape::with_quantum(processes, batches, 0, quantum) {
        Ok(pool) => Some(pool),
        Err(_) => None,
    }
}

/// A pool of this shape, of blocks that each stand for `size` bytes of memory.
fn enough_pool(shape: &Shape, size: u32) -> EnoughPool
    ensures { IsPoolOf shape.now size result }
{
    EnoughPool {
        batches: shape.batches(),
        blocks: shape.blocks(),
        bytes: memory(shape) + u64::from(size) * u64::from(shape.blocks()),
    }
}

/// The pool with the fewest batches that refuses nothing, where there is one.
fn enough_pool_if_any(processes: u32, quantum: u32, size: u32, live: u128) -> Option<EnoughPool>
    ensures { IsLeastPoolIfAny processes quantum size live result }
{
    match least_pool(processes, quantum, live) {
        Some(shape) => Some(enough_pool(&shape, size)),
        None => None,
    }
}

/// What a pool of the smallest one's processes and quantum needs, of blocks of `size` bytes, of which at most `live` are held
/// together.
pub fn quantum_row(smallest: &Shape, size: u32, live: u128) -> QuantumRow
    ensures { IsQuantumRow smallest.now.processes smallest.now.quantum size live result }
{
    QuantumRow {
        quantum: smallest.quantum(),
        length: smallest.length(),
        pool: enough_pool_if_any(smallest.processes(), smallest.quantum(), size, live),
    }
}
