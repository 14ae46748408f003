// A pool is closed.
ghost use Rattle.std.specs.Prelude.{◌≡◌, length};
ghost use Rattle.word_layout.specs.Sizes.{limits_of};
ghost use Rattle.pool_model.specs.History.{held};
ghost use Rattle.pool_model.specs.Legal.{IsLegal};
ghost use Rattle.block_pool.specs.Closing.{AreAllPasses, IsClosed};
ghost use Rattle.block_pool.specs.Joining.{HasJoined};

use crate::pass::Pass;
use crate::pool::Pool;
use crate::process::Process;
use pool_table::{PoolSeat, join_seats};
use std::marker::Model;
use step_counter::{Quiet, Steps};
use word_layout::Shape;

/// What is left of a pool that was closed with all its passes.
///
/// Clauses see its shape, how many moves each process had made, and the one history: it is legal, begins with what each
/// pass had seen, and has the entries of each process.
#[derive(Drop)]
pub struct Settled {
    shape: Shape,
    seat: PoolSeat,
    held: u32,
}

impl Model for Settled {
    ghost use Rattle.block_pool.specs.Closing.{Settlement, SettledFits, settlement_of};

    ghost Value = { Settlement };

    ghost view = { λ settled. settlement_of settled.shape settled.seat.view };

    ghost invariant = { λ settled. SettledFits (settlement_of settled.shape settled.seat.view) settled.held };
}

impl Settled {
    /// How many processes the pool had.
    pub fn processes(&self) -> u32
        ensures { result ≡ self.now.sizes.processes }
    {
        self.shape.processes()
    }

    /// How many blocks were held at the end.
    pub fn held(&self) -> u32
        ensures held { result ≡ length (held self.now.history) }
        ensures legal { IsLegal (limits_of self.now.sizes) self.now.history }
    {
        self.held
    }
}

impl Pool {
    /// Closes the pool, with all its passes in whatever order: one legal history has the entries of each, and begins
    /// with what each has seen. It takes no memory.
    pub fn finish(self, passes: Vec<Pass>) -> Settled
        requires { AreAllPasses self passes.items }
        ensures { IsClosed self passes.items result }
    {
        let (seat, held) = join_passes(&self, passes);
        Settled {
            shape: self.shape,
            seat,
            held,
        }
    }
}

/// The seat of the first pass, once it has taken in those of the others, and how many blocks they hold together.
fn join_passes(pool: &Pool, passes: Vec<Pass>) -> (PoolSeat, u32)
    requires { AreAllPasses pool.now passes.items }
    ensures { HasJoined pool.now passes.items result.0.view result.1 }
{
    prove!(pool.shape.processes() >= 1);
    let mut further = passes.into_iter();
    let Some(first) = further.next() else {
        unreachable!("a pool has a process");
    };
    let mut held = first.holding;
    let mut kept = first.process.seat;
    let mut steps = Steps::new(Quiet::new());
    for pass in further {
        held += pass.holding;
        join_seats(&pool.table, &mut kept, pass.process.seat, &mut steps);
    }
    (kept, held)
}
