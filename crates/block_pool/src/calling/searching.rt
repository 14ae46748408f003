// A search: its transfers, each run to its end, and the whole call.
ghost use Rattle.std.specs.Prelude.{◌≡◌, ◌≢◌, ℕ, ◌+◌, ◌*◌, ◌<◌, ◌≤◌, ◌^◌, ◌↔◌, None, true, false};
ghost use Rattle.word_layout.specs.Sizes.{transfer_bound};
ghost use Rattle.word_layout.specs.Packing.{most_age};
ghost use Rattle.word_layout.specs.Names.{table_words};
ghost use Rattle.word_table.specs.Seats.{SameSeat};
ghost use Rattle.transfer_schedule.specs.declared.pending.Pending.TheVariants.{Idle};
ghost use Rattle.pool_machine.specs.declared.call.Call.TheVariants.{Search};
ghost use Rattle.pool_table.specs.Minds.{number_of};
ghost use Rattle.pool_table.specs.Steps.{MayStep, OneStep};
ghost use Rattle.pool_table.specs.declared.about.About.TheVariants.{InCall};
ghost use Rattle.block_pool.specs.Passing.{BetweenCalls, pass_of};
ghost use Rattle.block_pool.specs.Running.{CanGo, beginning, IsOwning};
ghost use Rattle.block_pool.specs.Moves.{MovedOn, AgesWithin};
ghost use Rattle.block_pool.specs.Calls.{HasNoBlock, entry_for, IsReady};
ghost use Rattle.block_pool.specs.Searching.{IsSeeking, CanChoose, HasRun, SoughtOne, PlanEnds, SearchCalled, WasRefusedNow};

use super::moving::move_pool;
use crate::process::Process;
use pool_machine::Call;
use pool_table::{About, PoolTable, act};
use step_counter::{Ledger, Steps};
use transfer_schedule::Pending;
use word_layout::Shape;

impl Process {
    /// Makes one step of the pending transfer. `chosen` says whether the search began it. Answers whether it was the
    /// last.
    fn seek<L: Ledger>(
        &mut self,
        chosen: bool,
        shape: &Shape,
        table: &PoolTable,
        steps: &mut Steps<L>,
    ) -> bool
        requires may { MayStep shape.now (InCall Search) table.now self.old.seat steps.old }
        requires seeking { IsSeeking shape.now chosen self.old }
        ensures one { OneStep self.old.seat self.new.seat steps.old steps.new }
        ensures sought { SoughtOne shape.now self.old result self.new }
    {
        let _ = chosen;
        let next = self.transfer.next;
        let about = About::InCall { call: Call::Search };
        let action = self.transfer.action_at(next, shape);
        let word = act(&about, action, shape, table, &mut self.seat, steps);
        self.transfer.meet_at(next, shape, word);
        if move_pool(&mut self.pool, next, 0, word) {
            return true;
        }
        self.pool.plan.ran(1);
        false
    }

    /// Runs the pending transfer to its end. Answers how many steps that took.
    fn run_to_end<L: Ledger>(
        &mut self,
        chosen: bool,
        shape: &Shape,
        table: &PoolTable,
        steps: &mut Steps<L>,
    ) -> u64
        requires seat { self.old.seat.table ≡ table.now }
        requires words { table.now.words ≡ table_words shape.now }
        requires room { steps.old + self.old.pool.plan.bound < 2 ^ 64 }
        requires seeking { IsSeeking shape.now chosen self.old }
        ensures seat { SameSeat self.old.seat self.new.seat }
        ensures steps { steps.new ≡ steps.old + result }
        ensures moved { MovedOn self.old.seat.view result self.new.seat.view }
        ensures run { HasRun shape.now chosen self.new }
        ensures plan { PlanEnds self.old.pool.plan result self.new.pool.plan }
        ensures age { (most : ℕ) → AgesWithin most self.old.transfer → self.new.transfer.age ≤ most }
    {
        let mut made = 0;
        loop {
            made += 1;
            if self.seek(chosen, shape, table, steps) {
                return made;
            }
        }
    }

    /// Runs the transfer to its end that a search meets, if any.
    fn run_met<L: Ledger>(&mut self, shape: &Shape, table: &PoolTable, steps: &mut Steps<L>) -> u64
        requires ready { IsReady shape.now table.now self.old }
        requires room { steps.old + self.old.pool.plan.bound < 2 ^ 64 }
        requires young { self.old.transfer.age < most_age shape.now }
        ensures seat { SameSeat self.old.seat self.new.seat }
        ensures steps { steps.new ≡ steps.old + result }
        ensures moved { MovedOn self.old.seat.view result self.new.seat.view }
        ensures chooses { CanChoose shape.now self.new }
        ensures plan { PlanEnds self.old.pool.plan result self.new.pool.plan }
        ensures age { self.new.transfer.age ≤ self.old.transfer.age }
    {
        if self.pool.plan.pending() == Pending::Idle {
            return 0;
        }
        self.run_to_end(false, shape, table, steps)
    }

    /// Runs the transfer to its end that a search has begun, if any.
    fn run_begun<L: Ledger>(
        &mut self,
        shape: &Shape,
        table: &PoolTable,
        steps: &mut Steps<L>,
    ) -> u64
        requires seat { self.old.seat.table ≡ table.now }
        requires words { table.now.words ≡ table_words shape.now }
        requires room { steps.old + self.old.pool.plan.bound < 2 ^ 64 }
        requires begun { CanGo shape.now Search (beginning Search self.old) self.old.seat.view }
        ensures seat { SameSeat self.old.seat self.new.seat }
        ensures steps { steps.new ≡ steps.old + result }
        ensures moved { MovedOn self.old.seat.view result self.new.seat.view }
        ensures owning { IsOwning shape.now Search 0 self.new }
        ensures plan { PlanEnds self.old.pool.plan result self.new.pool.plan }
        ensures age { self.new.transfer.age ≤ self.old.transfer.age + 1 }
    {
        if self.pool.plan.pending() == Pending::Idle {
            return 0;
        }
        self.run_to_end(true, shape, table, steps)
    }

    /// A search: the pending transfer is run to its end, what is due then begins and is run to its end, and then the own
    /// step of an allocate. Answers the block that it got, if any.
    pub fn search<L: Ledger>(
        &mut self,
        shape: &Shape,
        table: &PoolTable,
        steps: &mut Steps<L>,
    ) -> Option<u32>
        requires ready { IsReady shape.now table.now self.old }
        requires room { steps.old + 2 * transfer_bound shape.now + 1 < 2 ^ 64 }
        requires young { self.old.transfer.age < most_age shape.now }
        ensures seat { SameSeat self.old.seat self.new.seat }
        ensures called { (called : SearchCalled shape.now
            (entry_for (number_of self.old.seat.view.mind) result) steps.old steps.new self.old self.new)
            × ((result ≡ None) ↔ HasNoBlock called.ran) }
        ensures now { result ≡ None → WasRefusedNow (pass_of self.old.seat) (pass_of self.new.seat) }
        ensures between { BetweenCalls shape.now self.new }
    {
        self.run_met(shape, table, steps);
        self.begin();
        self.run_begun(shape, table, steps);
        self.own_allocate(0, Call::Search, shape, table, steps)
    }
}
