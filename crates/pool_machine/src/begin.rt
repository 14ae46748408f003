// The beginning of a call.
ghost use Rattle.std.specs.Prelude.{◌≡◌, ◌<◌, ◌≤◌, false, length};
ghost use Rattle.word_layout.specs.Packing.{FitsWish};
ghost use Rattle.transfer_schedule.specs.declared.pending.Pending.TheVariants.{Idle};
ghost use Rattle.transfer_machine.specs.declared.stage.NextStep.TheVariants.{Rest};
ghost use Rattle.pool_machine.specs.Pools.{MayBegin};
ghost use Rattle.pool_machine.specs.Beginning.{newest, due, before_call, first_stage, entered_with, search_chosen, call_begun, alone_begun};
ghost use Rattle.pool_machine.specs.Ready.{CanBegin};

use crate::call::{Call, CallStage, CallView, Way};
use crate::view::{PoolView, ProcessView};
use transfer_schedule::Pending;
use word_layout::Wish;

/// The head of the newest spare.
#[inline]
pub fn newest(pool: &PoolView) -> u32
    requires { 1 ≤ length pool.now.heads }
    ensures { result ≡ newest pool.now }
{
    pool.heads.get(pool.heads.len() - 1)
}

/// The transfer that is due as a call begins, by the plan. A give is one of the newest spare.
fn due(pool: &PoolView) -> Option<Wish>
    requires { length pool.now.heads ≡ pool.now.plan.spares }
    ensures { result ≡ due pool.now }
{
    match pool.plan.due() {
        Pending::Idle => None,
        Pending::Taking => Some(Wish::Take),
        Pending::Giving => Some(Wish::Give(newest(pool))),
    }
}

/// Begins the transfer that is due as a call begins.
pub fn before_call(view: &mut ProcessView)
    requires can { CanBegin view.old }
    ensures { view.new ≡ before_call view.old }
{
    if let Some(wish) = due(&view.pool) {
        view.begin(wish);
    }
}

/// Begins a call. An allocate or a free begins the transfer that is due; where one is pending then, also one
/// that waited, the call first makes steps of it. A read or a write is at its own step at once. A search first runs
/// a pending transfer to its end, and begins what is due once nothing is pending.
pub fn begin_call(view: &mut ProcessView, call: Call)
    requires can { CanBegin view.old }
    ensures { view.new ≡ call_begun call view.old }
{
    match call {
        Call::Allocate | Call::Free { .. } => {
            before_call(view);
            let stage = first_stage(view);
            enter(view, call, stage, true);
        }
        Call::Read { .. } | Call::Write { .. } => enter(view, call, CallStage::Own, true),
        Call::Search => {
            if view.pool.plan.pending() == Pending::Idle {
                choose(view);
            } else {
                enter(view, Call::Search, CallStage::Moving, false);
            }
        }
    }
}

/// A search with nothing pending chooses: it begins the transfer that is due, if any, and begins no other after it.
pub fn choose(view: &mut ProcessView)
    requires can { CanBegin view.old }
    ensures { view.new ≡ search_chosen view.old }
{
    before_call(view);
    let stage = first_stage(view);
    enter(view, Call::Search, stage, true);
}

/// Where an allocate or a free stands as it begins.
fn first_stage(view: &ProcessView) -> CallStage
    ensures { result ≡ first_stage view.now }
{
    if view.pool.plan.pending() == Pending::Idle {
        CallStage::Own
    } else {
        CallStage::Moving
    }
}

/// Begins a transfer alone, outside any call: a take with at most one spare, or a give of the newest spare,
/// which leaves the spares at once. Its first step is the announcement; the process makes no calls from then
/// on.
pub fn begin_transfer(view: &mut ProcessView, wish: Wish)
    requires rest { view.old.transfer.next ≡ Rest }
    requires idle { view.old.pool.plan.pending ≡ Idle }
    requires fits { FitsWish wish }
    requires may { MayBegin wish view.old.pool }
    ensures { view.new ≡ alone_begun wish view.old }
{
    view.begin(wish);
    view.calls.way = Way::Alone;
}

/// Notes the call and its stage, and whether it begins no transfer later.
fn enter(view: &mut ProcessView, call: Call, stage: CallStage, chosen: bool)
    ensures { view.new ≡ entered_with chosen call stage view.old }
{
    view.calls = CallView {
        stage,
        call: Some(call),
        steps: 0,
        chosen,
        way: Way::Calls,
    };
}
