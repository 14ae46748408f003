// The own step of a call.
ghost use Rattle.std.specs.Prelude.{◌≡◌, ◌<◌, IfSome};
ghost use Rattle.word_layout.specs.Sizes.{blocks, most_blocks};
ghost use Rattle.word_layout.specs.Names.{InRange};
ghost use Rattle.transfer_schedule.specs.Numbers.{source_of, target_of};
ghost use Rattle.transfer_machine.specs.Words.{name_of};
ghost use Rattle.pool_machine.specs.OwnSteps.{block_from, next_block, follower, own_action, own_answer, own_kind};
ghost use Rattle.pool_machine.specs.OwnSteps.{head_taken, block_put, allocated, freed, call_left, own_met};
ghost use Rattle.pool_machine.specs.Ready.{CanAllocate, CanFree, CanFollow, CanOwn, CanMeetOwn};

use crate::answer::OwnAnswer;
use crate::begin::newest;
use crate::call::{Call, CallStage, CallView};
use crate::view::{PoolView, ProcessView};
use pool_model::Entry;
use transfer_machine::{Action, Kind};
use transfer_schedule::{Plan, Source, Target};
use word_layout::{Shape, WordName};

/// Where the block of an allocate comes from.
pub fn source_of(plan: &Plan) -> Source
    ensures { result ≡ source_of plan.now }
{
    let mut after = *plan;
    after.took_one()
}

/// Where the block of a free goes.
pub fn target_of(plan: &Plan) -> Target
    ensures { result ≡ target_of plan.now }
{
    let mut after = *plan;
    after.gave_one()
}

/// The first block of the current list, or of the newest spare, by where an allocate's block comes from.
#[inline]
pub fn first_block(pool: &PoolView, shape: &Shape, source: Source) -> Option<u32>
    requires { CanAllocate shape.now pool.now source }
    ensures block { result ≡ block_from pool.now source }
    ensures within { IfSome result (λ block. block < blocks shape.now) }
{
    match source {
        Source::Current => Some(pool.head - 1),
        Source::Spare => Some(newest(pool)),
        Source::Nothing => None,
    }
}

/// The block that an allocate gets: the first of the current list, or of the newest spare where that list is
/// empty.
pub fn next_block(pool: &PoolView, shape: &Shape) -> Option<u32>
    requires { CanAllocate shape.now pool.now (source_of pool.now.plan) }
    ensures block { result ≡ next_block pool.now }
    ensures within { IfSome result (λ block. block < blocks shape.now) }
{
    first_block(pool, shape, source_of(&pool.plan))
}

/// What the own step of the present call does, and to which word. The call is an argument, so that a caller
/// can have code for each.
#[inline(always)]
pub fn own_action(view: &ProcessView, call: Option<Call>, shape: &Shape) -> Action
    requires call { call ≡ view.now.calls.call }
    requires can { CanOwn shape.now view.now }
    ensures action { result ≡ own_action view.now }
    ensures within { InRange shape.now (name_of result) }
{
    match call {
        None => load(WordName::State),
        Some(Call::Allocate | Call::Search) => match next_block(&view.pool, shape) {
            None => load(WordName::State),
            Some(block) => load(WordName::Next { block }),
        },
        Some(Call::Free { block }) => {
            let target = target_of(&view.pool.plan);
            store(WordName::Next { block }, follower(&view.pool, target))
        }
        Some(Call::Read { block, index }) => load(WordName::Data { block, index }),
        Some(
            Call::Write {
                block,
                index,
                value,
            },
        ) => store(WordName::Data { block, index }, value),
    }
}

/// Loads the word.
fn load(name: WordName) -> Action
    ensures { result ≡ Action.Load name }
{
    Action::Load { name }
}

/// Stores this word.
fn store(name: WordName, word: u64) -> Action
    ensures { result ≡ Action.Store name word }
{
    Action::Store { name, word }
}

/// The next word of a freed block: the current list follows it, or nothing where that list is full.
#[inline]
pub fn follower(pool: &PoolView, target: Target) -> u64
    ensures { result ≡ follower pool.now target }
{
    match target {
        Target::Current => u64::from(pool.head),
        Target::Fresh => 0,
    }
}

/// What the view becomes once the own step of its call met this word. The call has ended then.
#[inline(always)]
pub fn own_meet(view: &mut ProcessView, call: Option<Call>, shape: &Shape, word: u64)
    requires call { call ≡ view.old.calls.call }
    requires act { CanOwn shape.now view.old }
    requires meet { CanMeetOwn view.old word }
    ensures { view.new ≡ own_met view.old word }
{
    prove!(shape.blocks() <= Shape::MOST_BLOCKS);
    match call {
        Some(Call::Allocate | Call::Search) => allocate(&mut view.pool, shape, word),
        Some(Call::Free { block }) => free(&mut view.pool, block),
        Some(Call::Read { .. } | Call::Write { .. }) | None => {}
    }
    leave(&mut view.calls);
}

/// Takes a block off the plan and off its list.
fn allocate(pool: &mut PoolView, shape: &Shape, word: u64)
    requires act { CanAllocate shape.now pool.old (source_of pool.old.plan) }
    requires meet { CanFollow word (source_of pool.old.plan) }
    ensures { pool.new ≡ allocated word pool.old (source_of pool.old.plan) }
{
    let source = pool.plan.took_one();
    take_head(pool, shape, source, word);
}

/// Takes the first block off the current list, which becomes that of the newest spare where it is empty. The
/// block's next word names the new head.
#[inline]
pub fn take_head(pool: &mut PoolView, shape: &Shape, source: Source, word: u64)
    requires act { CanAllocate shape.now pool.old source }
    requires meet { CanFollow word source }
    ensures { pool.new ≡ head_taken word pool.old source }
{
    match source {
        Source::Current => pool.head = word as u32,
        Source::Spare => {
            pool.heads.pop();
            pool.head = word as u32;
        }
        Source::Nothing => {}
    }
}

/// Puts a block on the plan and before the current list.
fn free(pool: &mut PoolView, block: u32)
    requires block { block < most_blocks }
    requires room { CanFree pool.old (target_of pool.old.plan) }
    ensures { pool.new ≡ freed block pool.old (target_of pool.old.plan) }
{
    let target = pool.plan.gave_one();
    put_block(pool, block, target);
}

/// Puts a block before the current list. A full list becomes the newest spare first.
#[inline]
pub fn put_block(pool: &mut PoolView, block: u32, target: Target)
    requires block { block < most_blocks }
    requires room { CanFree pool.old target }
    ensures { pool.new ≡ block_put block pool.old target }
{
    match target {
        Target::Current => {}
        Target::Fresh => pool.heads.push(pool.head - 1),
    }
    pool.head = block + 1;
}

/// Ends the call.
fn leave(calls: &mut CallView)
    ensures { calls.new ≡ call_left calls.old }
{
    calls.stage = CallStage::Between;
    calls.call = None;
    calls.steps = 0;
    calls.chosen = false;
}

/// How the own step of the present call answers where it met this word.
#[inline(always)]
pub fn own_answer(view: &ProcessView, call: Option<Call>, shape: &Shape, word: u64) -> OwnAnswer
    requires call { call ≡ view.now.calls.call }
    requires can { CanOwn shape.now view.now }
    ensures { result ≡ own_answer view.now word }
{
    let by = view.transfer.number;
    match call {
        Some(Call::Allocate | Call::Search) => OwnAnswer::Recorded(
            match next_block(&view.pool, shape) {
                None => Entry::Dry { by },
                Some(block) => Entry::Got { by, block },
            },
        ),
        Some(Call::Free { block }) => OwnAnswer::Recorded(Entry::Back { by, block }),
        Some(Call::Read { .. }) | None => OwnAnswer::Loaded(word),
        Some(Call::Write { .. }) => OwnAnswer::Stored,
    }
}

/// The kind of the own step of the present call.
pub fn own_kind(view: &ProcessView, shape: &Shape) -> Kind
    requires { CanOwn shape.now view.now }
    ensures { result ≡ own_kind view.now }
{
    match view.calls.call {
        None => Kind::K19,
        Some(Call::Allocate | Call::Search) => match next_block(&view.pool, shape) {
            None => Kind::K14,
            Some(_) => Kind::K12,
        },
        Some(Call::Free { .. }) => Kind::K13,
        Some(Call::Read { .. }) => Kind::K15,
        Some(Call::Write { .. }) => Kind::K16,
    }
}
