// Whether a call can begin, or make its next step.
ghost use Rattle.std.specs.Prelude.{◌≡◌, ◌≢◌, ◌↔◌, IsTrue};
ghost use Rattle.transfer_schedule.specs.Numbers.{source_of, target_of};
ghost use Rattle.transfer_machine.specs.Machine.{CanAct};
ghost use Rattle.pool_machine.specs.Pools.{CanEnd};
ghost use Rattle.pool_machine.specs.Ready.{PlanFits, CanBegin, HasStepLeft, CanGoOn, CanMove, CanMeetMoving, CanActCall, CanMeetCall};
ghost use Rattle.pool_machine.specs.Ready.{CanStepCall};
ghost use Rattle.pool_machine.specs.Ready.{CanAllocate, CanFree, CanFollow, CanOwn, CanMeetOwn};

use crate::begin::newest;
use crate::call::{Call, CallStage};
use crate::own::{source_of, target_of};
use crate::step::{call_action, is_paced};
use crate::view::{PoolView, ProcessView};
use transfer_machine::NextStep;
use transfer_schedule::{Pending, Source, Target};
use word_layout::{Reply, Shape, Tagged};

/// Whether the transfer that is due with a call can begin, as far as its numbers go. [`crate::may_call`] asks for
/// the age.
pub fn can_begin(view: &ProcessView) -> bool
    ensures { IsTrue result ↔ CanBegin view.now }
{
    let spares = view.pool.plan.spares();
    (view.pool.plan.pending() != Pending::Idle || view.transfer.next == NextStep::Rest)
        && view.pool.heads.len() == spares as usize
        && (spares != 3 || newest(&view.pool) < Shape::MOST_BLOCKS)
}

/// Whether a call can make its next step on these words.
#[tactic(auto, unfolding(word_layout::specs::Names::word_at))]
pub fn can_step_call(words: &[u64], view: &ProcessView, shape: &Shape) -> bool
    requires { PlanFits shape.now view.now.pool.plan }
    ensures { IsTrue result ↔ CanStepCall shape.now words.now view.now }
{
    if words.len() != shape.table_words() as usize || !can_act_call(view, shape) {
        return false;
    }
    let place = shape.place(call_action(view, shape).name());
    can_meet_call(view, shape, words[place as usize])
}

/// Whether what the next step of a call names is in range.
fn can_act_call(view: &ProcessView, shape: &Shape) -> bool
    requires { PlanFits shape.now view.now.pool.plan }
    ensures { IsTrue result ↔ CanActCall shape.now view.now }
{
    match view.calls.stage {
        CallStage::Between | CallStage::Choosing => true,
        CallStage::Moving => can_move(view, shape),
        CallStage::Own => can_own(view, shape),
    }
}

/// Whether what the next step makes of the view stays in range where it meets this word.
fn can_meet_call(view: &ProcessView, shape: &Shape, word: u64) -> bool
    requires { CanActCall shape.now view.now }
    ensures { IsTrue result ↔ CanMeetCall shape.now view.now word }
{
    match view.calls.stage {
        CallStage::Between | CallStage::Choosing => true,
        CallStage::Moving => can_meet_moving(view, shape, word),
        CallStage::Own => can_meet_own(view, word),
    }
}

/// Whether a call can make one more step of its transfer.
fn can_move(view: &ProcessView, shape: &Shape) -> bool
    requires { PlanFits shape.now view.now.pool.plan }
    ensures { IsTrue result ↔ CanMove shape.now view.now }
{
    can_go_on(view, shape) && has_step_left(view, shape)
}

/// Whether its transfer can make one more step.
fn can_go_on(view: &ProcessView, shape: &Shape) -> bool
    requires { PlanFits shape.now view.now.pool.plan }
    ensures { IsTrue result ↔ CanGoOn shape.now view.now }
{
    view.transfer.next != NextStep::Rest
        && view.transfer.can_act(shape)
        && view.pool.plan.pending() != Pending::Idle
        && view.pool.plan.done() < shape.transfer_bound()
        && 1 <= shape.quantum()
}

/// Whether a call that makes at most a quantum of them has made fewer.
fn has_step_left(view: &ProcessView, shape: &Shape) -> bool
    ensures { IsTrue result ↔ HasStepLeft shape.now view.now }
{
    if is_paced(view.calls.call) {
        view.calls.steps < shape.quantum()
    } else {
        true
    }
}

/// Whether a step of the transfer stays in range where it meets this word.
fn can_meet_moving(view: &ProcessView, shape: &Shape, word: u64) -> bool
    requires { CanAct shape.now view.now.transfer }
    ensures { IsTrue result ↔ CanMeetMoving shape.now view.now word }
{
    view.transfer.can_meet(shape, word)
        && (view.transfer.next != NextStep::LoadReply
            || can_end(&view.pool, Reply::read(Tagged::value(word)).1))
}

/// Whether the pending transfer may end with this reply.
fn can_end(pool: &PoolView, reply: Reply) -> bool
    ensures { IsTrue result ↔ CanEnd reply pool.now }
{
    match reply {
        Reply::Nothing => pool.plan.pending() != Pending::Giving,
        Reply::Took(_) => pool.heads.len() < 3,
        Reply::Gave => true,
    }
}

/// Whether what the own step of the present call names is in range.
fn can_own(view: &ProcessView, shape: &Shape) -> bool
    ensures { IsTrue result ↔ CanOwn shape.now view.now }
{
    match view.calls.call {
        None => true,
        Some(Call::Allocate | Call::Search) => can_allocate(&view.pool, shape),
        Some(Call::Free { block }) => block < shape.blocks() && can_free(&view.pool),
        Some(Call::Read { block, index } | Call::Write { block, index, .. }) => {
            block < shape.blocks() && index < shape.words()
        }
    }
}

/// Whether the block of an allocate is one of the pool's.
fn can_allocate(pool: &PoolView, shape: &Shape) -> bool
    ensures { IsTrue result ↔ CanAllocate shape.now pool.now (source_of pool.now.plan) }
{
    match source_of(&pool.plan) {
        Source::Current => pool.head >= 1 && pool.head <= shape.blocks(),
        Source::Spare => pool.heads.len() >= 1 && newest(pool) < shape.blocks(),
        Source::Nothing => true,
    }
}

/// Whether a full current list has a head, and there is room for one more spare.
fn can_free(pool: &PoolView) -> bool
    ensures { IsTrue result ↔ CanFree pool.now (target_of pool.now.plan) }
{
    match target_of(&pool.plan) {
        Target::Current => true,
        Target::Fresh => pool.head >= 1 && pool.heads.len() < 3,
    }
}

/// Whether the own step of the present call stays in range where it meets this word.
fn can_meet_own(view: &ProcessView, word: u64) -> bool
    ensures { IsTrue result ↔ CanMeetOwn view.now word }
{
    match view.calls.call {
        Some(Call::Allocate | Call::Search) => can_follow(&view.pool, word),
        Some(Call::Free { .. } | Call::Read { .. } | Call::Write { .. }) | None => true,
    }
}

/// Whether the next word of an allocated block can name a block.
fn can_follow(pool: &PoolView, word: u64) -> bool
    ensures { IsTrue result ↔ CanFollow word (source_of pool.now.plan) }
{
    match source_of(&pool.plan) {
        Source::Current | Source::Spare => word < 1 << 32,
        Source::Nothing => true,
    }
}
