// The own step of each call.
ghost use Rattle.std.specs.Prelude.{◌≡◌, true, Some};
ghost use Rattle.transfer_schedule.specs.Numbers.{after_gave_one, source_of};
ghost use Rattle.pool_machine.specs.OwnSteps.{allocate_action};
ghost use Rattle.call_invariant.specs.Phases.{is_getting};
ghost use Rattle.pool_machine.specs.declared.call.Call.TheVariants.{Free, Read, Write};
ghost use Rattle.pool_table.specs.Steps.{MayStep, OneStep, Stepped};
ghost use Rattle.pool_table.specs.declared.about.About.TheVariants.{InCall};
ghost use Rattle.block_pool.specs.Running.{IsOwning};
ghost use Rattle.block_pool.specs.Owning.{AllocateMade, OwnMade};

use crate::process::Process;
use pool_machine::{Call, first_block, follower, put_block, take_head};
use pool_table::{About, PoolTable, act};
use step_counter::{Ledger, Steps};
use transfer_machine::Action;
use transfer_schedule::{Plan, Source};
use word_layout::{Shape, WordName};

/// What an allocate that gets this block does.
#[inline(always)]
fn allocate_action(block: Option<u32>) -> Action
    ensures { result ≡ allocate_action block }
{
    match block {
        None => Action::Load {
            name: WordName::State,
        },
        Some(block) => Action::Load {
            name: WordName::Next { block },
        },
    }
}

/// Where the block of an allocate comes from.
#[inline(always)]
fn source_of(plan: &Plan) -> Source
    ensures { result ≡ source_of plan.now }
{
    let mut after = *plan;
    after.took_one()
}

impl Process {
    /// The own step of an allocate or of a search: loads the next word of its block, which names the new head of the current list.
    /// With no block it loads the state.
    #[inline(always)]
    pub fn own_allocate<L: Ledger>(
        &mut self,
        made: u32,
        call: Call,
        shape: &Shape,
        table: &PoolTable,
        steps: &mut Steps<L>,
    ) -> Option<u32>
        requires getting { is_getting (Some call) ≡ true }
        requires may { MayStep shape.now (InCall call) table.now self.old.seat steps.old }
        requires owning { IsOwning shape.now call made self.old }
        ensures one { OneStep self.old.seat self.new.seat steps.old steps.new }
        ensures made { AllocateMade call result self.old self.new }
    {
        match source_of(&self.pool.plan) {
            Source::Current => {
                self.own_allocate_from(Source::Current, made, call, shape, table, steps)
            }
            Source::Spare => {
                self.own_allocate_from(Source::Spare, made, call, shape, table, steps)
            }
            Source::Nothing => {
                self.own_allocate_from(Source::Nothing, made, call, shape, table, steps)
            }
        }
    }

    /// The same with the source of the block, each source with code of its own.
    #[inline(always)]
    fn own_allocate_from<L: Ledger>(
        &mut self,
        source: Source,
        made: u32,
        call: Call,
        shape: &Shape,
        table: &PoolTable,
        steps: &mut Steps<L>,
    ) -> Option<u32>
        requires source { source ≡ source_of self.old.pool.plan }
        requires getting { is_getting (Some call) ≡ true }
        requires may { MayStep shape.now (InCall call) table.now self.old.seat steps.old }
        requires owning { IsOwning shape.now call made self.old }
        ensures one { OneStep self.old.seat self.new.seat steps.old steps.new }
        ensures made { AllocateMade call result self.old self.new }
    {
        let _ = made;
        self.pool.plan.took_one();
        let block = first_block(&self.pool, shape, source);
        let about = About::InCall { call };
        let action = allocate_action(block);
        let word = act(&about, action, shape, table, &mut self.seat, steps);
        take_head(&mut self.pool, shape, source, word);
        block
    }

    /// The own step of a free: stores the block's next word, so that the block is before the current list.
    #[inline(always)]
    pub fn own_free<L: Ledger>(
        &mut self,
        made: u32,
        block: u32,
        shape: &Shape,
        table: &PoolTable,
        steps: &mut Steps<L>,
    )
        requires may { MayStep shape.now (InCall (Free block)) table.now self.old.seat steps.old }
        requires owning { IsOwning shape.now (Free block) made self.old }
        ensures one { OneStep self.old.seat self.new.seat steps.old steps.new }
        ensures made { OwnMade (Free block) self.old self.new }
        ensures plan { self.new.pool.plan ≡ after_gave_one self.old.pool.plan }
    {
        let _ = made;
        prove!(shape.blocks() <= Shape::MOST_BLOCKS);
        let target = self.pool.plan.gave_one();
        let about = About::InCall {
            call: Call::Free { block },
        };
        let action = Action::Store {
            name: WordName::Next { block },
            word: follower(&self.pool, target),
        };
        act(&about, action, shape, table, &mut self.seat, steps);
        put_block(&mut self.pool, block, target);
    }

    /// The step of a read: loads the data word.
    #[inline(always)]
    pub fn own_read<L: Ledger>(
        &mut self,
        block: u32,
        index: u32,
        shape: &Shape,
        table: &PoolTable,
        steps: &mut Steps<L>,
    ) -> u64
        requires may { MayStep shape.now (InCall (Read block index)) table.now self.old.seat steps.old }
        requires owning { IsOwning shape.now (Read block index) 0 self.old }
        ensures one { OneStep self.old.seat self.new.seat steps.old steps.new }
        ensures transfer { self.new.transfer ≡ self.old.transfer }
        ensures pool { self.new.pool ≡ self.old.pool }
        ensures step { Stepped (InCall (Read block index)) self.old.seat.view result self.new.seat.view }
    {
        let about = About::InCall {
            call: Call::Read { block, index },
        };
        let action = Action::Load {
            name: WordName::Data { block, index },
        };
        act(&about, action, shape, table, &mut self.seat, steps)
    }

    /// The step of a write: stores the data word.
    #[inline(always)]
    pub fn own_write<L: Ledger>(
        &mut self,
        block: u32,
        index: u32,
        value: u64,
        shape: &Shape,
        table: &PoolTable,
        steps: &mut Steps<L>,
    )
        requires may { MayStep shape.now (InCall (Write block index value)) table.now self.old.seat steps.old }
        requires owning { IsOwning shape.now (Write block index value) 0 self.old }
        ensures one { OneStep self.old.seat self.new.seat steps.old steps.new }
        ensures made { OwnMade (Write block index value) self.old self.new }
    {
        let about = About::InCall {
            call: Call::Write {
                block,
                index,
                value,
            },
        };
        let action = Action::Store {
            name: WordName::Data { block, index },
            word: value,
        };
        act(&about, action, shape, table, &mut self.seat, steps);
    }
}
