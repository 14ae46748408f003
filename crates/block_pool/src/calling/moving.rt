// The steps that a call makes of the pending transfer.
ghost use Rattle.std.specs.Prelude.{◌≡◌, ◌≢◌, ◌+◌, ◌<◌, ◌≤◌, ◌^◌, true, Some};
ghost use Rattle.word_layout.specs.Names.{table_words};
ghost use Rattle.word_table.specs.Seats.{SameSeat};
ghost use Rattle.transfer_machine.specs.declared.stage.NextStep.TheVariants.{Rest, Try};
ghost use Rattle.pool_machine.specs.Pools.{CanCount, CanMeetPool};
ghost use Rattle.pool_machine.specs.Steps.{is_paced};
ghost use Rattle.pool_table.specs.Steps.{MayStep, OneStep};
ghost use Rattle.pool_table.specs.declared.about.About.TheVariants.{InCall};
ghost use Rattle.block_pool.specs.Running.{counted, beginning, CanGo, IsMoving, IsOwning};
ghost use Rattle.block_pool.specs.Moves.{PoolMoved, MovedOne, MovedOn, PlanRuns};

use crate::process::Process;
use pool_machine::{Call, PoolView};
use pool_table::{About, PoolTable, act};
use step_counter::{Ledger, Steps};
use transfer_machine::{NextStep, TryStep};
use transfer_schedule::Pending;
use word_layout::{Reply, Shape, Tagged};

/// A step of the pending transfer met this word; so many steps came before it in this call. The plan counts them all
/// with the last step of the transfer. Answers whether this was the last.
#[inline(always)]
pub(super) fn move_pool(pool: &mut PoolView, next: NextStep, made: u32, word: u64) -> bool
    requires busy { next ≢ Rest }
    requires few { made < pool.old.plan.quantum }
    requires small { made < 16 }
    requires count { CanCount (counted made pool.old) }
    requires meet { CanMeetPool word (counted made pool.old) next }
    ensures { PoolMoved next made word pool.old result pool.new }
{
    match next {
        NextStep::Announce => {
            pool.giving = 0;
            false
        }
        NextStep::LoadReply => {
            pool.plan.ran(made + 1);
            pool.end(Reply::read(Tagged::value(word)).1);
            true
        }
        _ => false,
    }
}

/// A step of the first try, or of the second.
#[inline(always)]
fn in_try(second: bool, step: TryStep) -> NextStep
    ensures { result ≡ Try second step }
{
    NextStep::Try { second, step }
}

impl Process {
    /// Makes one step of the pending transfer, after so many in this call. Answers whether it was the last.
    #[inline(always)]
    fn step_at<L: Ledger>(
        &mut self,
        next: NextStep,
        made: u32,
        call: Call,
        shape: &Shape,
        table: &PoolTable,
        steps: &mut Steps<L>,
    ) -> bool
        requires next { next ≡ self.old.transfer.next }
        requires may { MayStep shape.now (InCall call) table.now self.old.seat steps.old }
        requires quantum { self.old.pool.plan.quantum ≡ shape.now.quantum }
        requires paced { is_paced (Some call) ≡ true }
        requires moving { IsMoving shape.now call made self.old }
        ensures one { OneStep self.old.seat self.new.seat steps.old steps.new }
        ensures moved { MovedOne shape.now call made self.old result self.new }
    {
        prove!(shape.quantum() <= 16);
        let action = self.transfer.action_at(next, shape);
        let word = act(
            &About::InCall { call },
            action,
            shape,
            table,
            &mut self.seat,
            steps,
        );
        self.transfer.meet_at(next, shape, word);
        move_pool(&mut self.pool, next, made, word)
    }

    /// The same, each next step with code of its own.
    #[inline(always)]
    fn step<L: Ledger>(
        &mut self,
        made: u32,
        call: Call,
        shape: &Shape,
        table: &PoolTable,
        steps: &mut Steps<L>,
    ) -> bool
        requires may { MayStep shape.now (InCall call) table.now self.old.seat steps.old }
        requires quantum { self.old.pool.plan.quantum ≡ shape.now.quantum }
        requires paced { is_paced (Some call) ≡ true }
        requires moving { IsMoving shape.now call made self.old }
        ensures one { OneStep self.old.seat self.new.seat steps.old steps.new }
        ensures moved { MovedOne shape.now call made self.old result self.new }
    {
        match self.transfer.next {
            NextStep::Rest => self.step_at(NextStep::Rest, made, call, shape, table, steps),
            NextStep::Announce => self.step_at(NextStep::Announce, made, call, shape, table, steps),
            NextStep::Try { second, step } => {
                self.step_in_try(second, step, made, call, shape, table, steps)
            }
            NextStep::LoadFinalState => {
                self.step_at(NextStep::LoadFinalState, made, call, shape, table, steps)
            }
            NextStep::LoadReply => self.step_at(
                NextStep::LoadReply,
                made,
                call,
                shape,
                table,
                steps,
            ),
        }
    }

    /// The same of a step of a try.
    #[inline(always)]
    fn step_in_try<L: Ledger>(
        &mut self,
        second: bool,
        step: TryStep,
        made: u32,
        call: Call,
        shape: &Shape,
        table: &PoolTable,
        steps: &mut Steps<L>,
    ) -> bool
        requires next { self.old.transfer.next ≡ Try second step }
        requires may { MayStep shape.now (InCall call) table.now self.old.seat steps.old }
        requires quantum { self.old.pool.plan.quantum ≡ shape.now.quantum }
        requires paced { is_paced (Some call) ≡ true }
        requires moving { IsMoving shape.now call made self.old }
        ensures one { OneStep self.old.seat self.new.seat steps.old steps.new }
        ensures moved { MovedOne shape.now call made self.old result self.new }
    {
        match step {
            TryStep::LoadState => {
                let next = in_try(second, TryStep::LoadState);
                self.step_at(next, made, call, shape, table, steps)
            }
            TryStep::LoadRecordWord { index } => {
                let next = in_try(second, TryStep::LoadRecordWord { index });
                self.step_at(next, made, call, shape, table, steps)
            }
            TryStep::LoadCoveredSlot { offset } => {
                let next = in_try(second, TryStep::LoadCoveredSlot { offset });
                self.step_at(next, made, call, shape, table, steps)
            }
            TryStep::ExchangeSlot { offset } => {
                let next = in_try(second, TryStep::ExchangeSlot { offset });
                self.step_at(next, made, call, shape, table, steps)
            }
            TryStep::LoadAnnouncement { process } => {
                let next = in_try(second, TryStep::LoadAnnouncement { process });
                self.step_at(next, made, call, shape, table, steps)
            }
            TryStep::LoadPoppedSlot { process } => {
                let next = in_try(second, TryStep::LoadPoppedSlot { process });
                self.step_at(next, made, call, shape, table, steps)
            }
            TryStep::StoreRecordWord { index } => {
                let next = in_try(second, TryStep::StoreRecordWord { index });
                self.step_at(next, made, call, shape, table, steps)
            }
            TryStep::ExchangeState => {
                let next = in_try(second, TryStep::ExchangeState);
                self.step_at(next, made, call, shape, table, steps)
            }
        }
    }

    /// Makes the steps of the pending transfer until the most are made or the transfer has ended. Answers how many.
    fn move_on<L: Ledger>(
        &mut self,
        most: u32,
        call: Call,
        shape: &Shape,
        table: &PoolTable,
        steps: &mut Steps<L>,
    ) -> u32
        requires most { most ≡ shape.now.quantum }
        requires seat { self.old.seat.table ≡ table.now }
        requires words { table.now.words ≡ table_words shape.now }
        requires steps { steps.old + most < 2 ^ 64 }
        requires quantum { self.old.pool.plan.quantum ≡ shape.now.quantum }
        requires pending { self.old.pool.plan.pending ≢ Pending.Idle }
        requires paced { is_paced (Some call) ≡ true }
        requires moving { IsMoving shape.now call 0 self.old }
        ensures seat { SameSeat self.old.seat self.new.seat }
        ensures steps { steps.new ≡ steps.old + result }
        ensures few { result ≤ most }
        ensures moved { MovedOn self.old.seat.view result self.new.seat.view }
        ensures owning { IsOwning shape.now call result self.new }
        ensures plan { PlanRuns most self.old.pool.plan result self.new.pool.plan }
        ensures age { self.new.transfer.age ≤ self.old.transfer.age + 1 }
    {
        prove!(shape.quantum() <= 16);
        for made in 0..most {
            if self.step(made, call, shape, table, steps) {
                return made + 1;
            }
        }
        self.pool.plan.ran(most);
        most
    }

    /// The same where a transfer is pending, and none else. The call has begun.
    #[inline(always)]
    pub fn run_pending<L: Ledger>(
        &mut self,
        call: Call,
        shape: &Shape,
        table: &PoolTable,
        steps: &mut Steps<L>,
    ) -> u32
        requires seat { self.old.seat.table ≡ table.now }
        requires words { table.now.words ≡ table_words shape.now }
        requires steps { steps.old + shape.now.quantum < 2 ^ 64 }
        requires quantum { self.old.pool.plan.quantum ≡ shape.now.quantum }
        requires paced { is_paced (Some call) ≡ true }
        requires begun { CanGo shape.now call (beginning call self.old) self.old.seat.view }
        ensures seat { SameSeat self.old.seat self.new.seat }
        ensures steps { steps.new ≡ steps.old + result }
        ensures few { result ≤ shape.now.quantum }
        ensures moved { MovedOn self.old.seat.view result self.new.seat.view }
        ensures owning { IsOwning shape.now call result self.new }
        ensures plan { PlanRuns shape.now.quantum self.old.pool.plan result self.new.pool.plan }
        ensures age { self.new.transfer.age ≤ self.old.transfer.age + 1 }
    {
        if self.pool.plan.pending() == Pending::Idle {
            return 0;
        }
        self.move_on(shape.quantum(), call, shape, table, steps)
    }
}
