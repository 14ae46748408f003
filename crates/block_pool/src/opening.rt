// A pool is opened.
ghost use Rattle.std.specs.Prelude.{◌≡◌, ◌<◌, IfOk};
ghost use Rattle.pool_seats.specs.Opening.{IsOpeningSeat, AllOpeningSeats};
ghost use Rattle.block_pool.specs.Opening.{opened_pass, AreOpenedPasses};

use crate::pass::Pass;
use crate::pool::Pool;
use crate::process::Process;
use pool_machine::ProcessView;
use pool_model::NoMemory;
use pool_seats::open_seats;
use pool_table::PoolSeat;
use std::alloc::Global;
use word_layout::Shape;

impl Pool {
    /// A pool of this shape, and the passes of all its processes in the order of their numbers. Each of them holds
    /// nothing, has seen nothing of the history, and has begun no transfer. All memory of the pool is taken here.
    ///
    /// `Err` for want of memory only; then nothing is left.
    pub fn open(alloc: Global, shape: &Shape) -> Result<(Pool, Vec<Pass>), NoMemory>
        ensures shape { IfOk result (λ opened. opened.0.sizes ≡ shape.now) }
        ensures passes { IfOk result (λ opened. AreOpenedPasses opened.0 opened.1.items) }
    {
        let (table, seats) = open_seats(alloc, shape)?;
        let pool = Pool {
            shape: *shape,
            table,
        };
        let passes = open_passes(alloc, &pool, seats)?;
        Ok((pool, passes))
    }
}

/// The passes of all processes at the opening, of their seats.
fn open_passes(alloc: Global, pool: &Pool, seats: Vec<PoolSeat>) -> Result<Vec<Pass>, NoMemory>
    requires seats { AllOpeningSeats pool.now.sizes pool.now.table seats.items }
    ensures { IfOk result (λ passes. AreOpenedPasses pool.now passes.items) }
{
    let processes = pool.shape().processes();
    let mut passes = Vec::with_capacity(alloc, processes as usize)?;
    for seat in seats {
        let number = passes.len() as u32;
        passes.push(open_pass(pool.shape(), number, seat))?;
    }
    Ok(passes)
}

/// The pass of a process at the opening.
fn open_pass(shape: &Shape, number: u32, seat: PoolSeat) -> Pass
    requires process { number < shape.now.processes }
    requires seat { IsOpeningSeat shape.now seat.table number seat }
    ensures { result ≡ opened_pass seat.table shape.now number }
{
    let ProcessView { transfer, pool, .. } = ProcessView::open(shape, number);
    Pass {
        process: Process {
            seat,
            transfer,
            pool,
        },
        shape: *shape,
        holding: 0,
        apart: [0; 16],
    }
}
