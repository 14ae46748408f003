// A search of a pass: an allocate that can afford more steps.
ghost use Rattle.std.specs.Prelude.{◌≡◌, ℕ, ◌+◌, ◌*◌, ◌<◌, ◌≤◌, ◌^◌};
ghost use Rattle.word_layout.specs.Sizes.{limits_of, transfer_bound};
ghost use Rattle.word_layout.specs.Packing.{most_age};
ghost use Rattle.pool_model.specs.Legal.{IsLegal};
ghost use Rattle.transfer_schedule.specs.declared.pending.Pending.TheVariants.{Idle};
ghost use Rattle.block_pool.specs.Passing.{IsOf};
ghost use Rattle.block_pool.specs.Calls.{SamePass, Counted, Entered, WasFree, entry_of};
ghost use Rattle.block_pool.specs.Searching.{Searched, WasRefusedNow};
ghost use Rattle.block_pool.specs.declared.pool.Answer.TheVariants.{Got, Dry};

use crate::pass::{Block, Pass};
use crate::pool::{Answer, Pool};
use step_counter::{Ledger, Steps};

impl Pool {
    /// Gets a block that nobody holds, with more steps and a sharper refusal than [`Pool::allocate`]. It takes no memory
    /// and waits for nobody.
    ///
    /// It runs the pass's pending transfer to its end, begins the one that is due then and runs it to its end as well, and
    /// makes the own step of an allocate. That is at most `32p + 31` steps for `p` processes, whatever others do. `Dry` comes
    /// exactly where the pass then has no block. Such a refusal had its moment within the call: after the pass's previous
    /// entry few blocks were unheld at a place of what it has seen. All else is as with an allocate, but that the pass's
    /// age must be below the most of its shape, whatever is due.
    pub fn search<L: Ledger>(&self, pass: &mut Pass, steps: &mut Steps<L>) -> Answer
        requires pass { IsOf self.now pass.old }
        requires young { pass.old.age < most_age pass.old.sizes }
        requires room { steps.old + 2 * transfer_bound pass.old.sizes + 1 < 2 ^ 64 }
        ensures pass { SamePass pass.old pass.new }
        ensures steps { Counted (2 * transfer_bound pass.old.sizes) steps.old steps.new pass.old pass.new }
        ensures entry { Entered (entry_of pass.old.number result) pass.old pass.new }
        ensures legal { IsLegal (limits_of pass.old.sizes) pass.new.seen }
        ensures free { (block : ℕ) → result ≡ Got block → WasFree block pass.old pass.new }
        ensures known { pass.new.known ≡ pass.old.known }
        ensures plan { Searched result pass.old pass.new }
        ensures rests { pass.new.plan.pending ≡ Idle }
        ensures moment { result ≡ Dry → WasRefusedNow pass.old pass.new }
        ensures age { pass.new.age ≤ pass.old.age + 1 }
    {
        match pass.process.search(&pass.shape, &self.table, steps) {
            Some(number) => {
                pass.holding += 1;
                Answer::Got(Block { number })
            }
            None => Answer::Dry,
        }
    }
}
