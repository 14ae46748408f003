// One turn of one process, on the fields of a run.
ghost use Rattle.std.specs.Prelude.{◌≡◌, ◌<◌, true, None, length, replicate, IfOk, slice_index_or, slice_set};
ghost use Rattle.word_layout.specs.Names.{table_words};
ghost use Rattle.word_layout.specs.Packing.{FitsWish};
ghost use Rattle.word_layout.specs.Sizes.{blocks};
ghost use Rattle.transfer_schedule.specs.declared.pending.Pending.TheVariants.{Idle};
ghost use Rattle.transfer_machine.specs.declared.stage.NextStep.TheVariants.{Rest};
ghost use Rattle.pool_machine.specs.Pools.{opening_view, MayBegin};
ghost use Rattle.pool_machine.specs.Ready.{CanBegin};
ghost use Rattle.interleaving_core.specs.Invariant.{IsAmong, IsAmongHolding};
ghost use Rattle.interleaving_core.specs.Moves.{moving_view, calling_view, may_go_alone, may_go, may_wish, is_holder, holds_for, holders_after};
ghost use Rattle.interleaving_core.specs.Runs.{opening_views};
ghost use Rattle.interleaving_core.specs.Turned.{Stepped, Turned};

use crate::step::make_step;
use pool_machine::{
    Call, CallStage, Event, Happened, PoolView, ProcessView, begin_call, begin_transfer, choose,
    may_call, may_move, newest,
};
use pool_model::{Entry, NoMemory};
use std::alloc::Global;
use transfer_machine::NextStep;
use transfer_schedule::Pending;
use word_layout::{Shape, Wish};

/// The views of all processes at the opening.
pub fn opening_views(alloc: Global, shape: &Shape) -> Result<Vec<ProcessView>, NoMemory>
    ensures { IfOk result (λ views. views.items ≡ opening_views shape.now shape.now.processes) }
{
    let mut views = Vec::with_capacity(alloc, shape.processes() as usize)?;
    for process in 0..shape.processes() {
        views.push(ProcessView::open(shape, process))?;
    }
    Ok(views)
}

/// At the opening nobody holds a block.
pub fn no_holders(alloc: Global, shape: &Shape) -> Result<Vec<Option<u32>>, NoMemory>
    ensures { IfOk result (λ holders. holders.items ≡ replicate (blocks shape.now) None) }
{
    Ok(vec![in alloc; None; shape.blocks() as usize]?)
}

/// Whether the process of an event holds the block that its call names.
pub fn held_by(holders: &[Option<u32>], event: &Event) -> bool
    ensures { result ≡ holds_for holders.now event.now.by event.now.call }
{
    match event.call {
        Call::Allocate | Call::Search => true,
        Call::Free { block } => is_holder(holders, event.by, block),
        Call::Read { block, .. } => is_holder(holders, event.by, block),
        Call::Write { block, .. } => is_holder(holders, event.by, block),
    }
}

/// Whether a process holds a block.
fn is_holder(holders: &[Option<u32>], by: u32, block: u32) -> bool
    ensures { result ≡ is_holder by (slice_index_or holders.now block None) }
{
    if block as usize >= holders.len() {
        return false;
    }
    holders[block as usize] == Some(by)
}

/// Whether a process goes on with its call, or may begin that of the event. `holds` says whether it holds the block
/// that the call names.
pub fn may_go(view: &ProcessView, shape: &Shape, event: &Event, holds: bool) -> bool
    ensures { result ≡ may_go shape.now holds event.now.call view.now }
{
    view.calls.stage != CallStage::Between || may_call(view, shape, event.call, holds)
}

/// Whether a process moves alone: it goes on with its transfer, or may begin one with this wish.
pub fn may_go_alone(view: &ProcessView, shape: &Shape, wish: Wish) -> bool
    ensures { result ≡ may_go_alone shape.now wish view.now }
{
    may_move(view)
        && (view.transfer.next != NextStep::Rest
            || view.transfer.age < shape.most_age() && may_wish(&view.pool, wish))
}

/// Whether a pool may begin a transfer with this wish.
fn may_wish(pool: &PoolView, wish: Wish) -> bool
    ensures { result ≡ may_wish wish pool.now }
{
    match wish {
        Wish::Take => pool.plan.may_begin(Pending::Taking),
        Wish::Give(head) => {
            pool.heads.len() > 0 && pool.plan.may_begin(Pending::Giving) && newest(pool) == head
        }
    }
}

/// One step of process `by`, which moves alone. Where it is at rest it first begins a transfer with this wish.
pub fn move_process(
    words: &mut Vec<u64>,
    views: &mut Vec<ProcessView>,
    shape: &Shape,
    by: u32,
    wish: Wish,
) -> Happened
    requires low { by < length views.old.items }
    requires moves { may_go_alone shape.now wish (slice_index_or views.old.items by (opening_view shape.now by)) ≡ true }
    requires whole { length words.old.items ≡ table_words shape.now }
    requires invariant { IsAmong shape.now words.old.items (slice_index_or views.old.items by (opening_view shape.now by)) }
    ensures { Turned shape.now by (moving_view wish (slice_index_or views.old.items by (opening_view shape.now by))) words.old.items views.old.items words.new.items views.new.items result }
{
    let view = &mut views[by as usize];
    move_view(words, view, shape, wish)
}

/// One step of a process that moves alone. Where it is at rest it first begins a transfer with this wish.
fn move_view(words: &mut [u64], view: &mut ProcessView, shape: &Shape, wish: Wish) -> Happened
    requires moves { may_go_alone shape.now wish view.old ≡ true }
    requires whole { length words.old ≡ table_words shape.now }
    requires invariant { IsAmong shape.now words.old view.old }
    ensures { Stepped shape.now (moving_view wish view.old) words.old words.new view.new result }
{
    prove!(shape.processes() >= 1);
    begin_at_rest(view, shape, wish);
    make_step(words, view, shape)
}

/// Begins a transfer alone where the process is at rest.
fn begin_at_rest(view: &mut ProcessView, shape: &Shape, wish: Wish)
    requires moves { may_go_alone shape.now wish view.old ≡ true }
    requires idle { view.old.transfer.next ≡ Rest → view.old.pool.plan.pending ≡ Idle }
    requires fits { view.old.transfer.next ≡ Rest → may_wish wish view.old.pool ≡ true → FitsWish wish × MayBegin wish view.old.pool }
    ensures { view.new ≡ moving_view wish view.old }
{
    if view.transfer.next == NextStep::Rest {
        begin_transfer(view, wish);
    }
}

/// One step of the call of a process. Where it is between two calls it first begins that of the event.
pub fn call_process(
    words: &mut Vec<u64>,
    views: &mut Vec<ProcessView>,
    shape: &Shape,
    event: &Event,
    holds: bool,
) -> Happened
    requires low { event.now.by < length views.old.items }
    requires goes { may_go shape.now holds event.now.call (slice_index_or views.old.items event.now.by (opening_view shape.now event.now.by)) ≡ true }
    requires whole { length words.old.items ≡ table_words shape.now }
    requires invariant { IsAmongHolding shape.now words.old.items (slice_index_or views.old.items event.now.by (opening_view shape.now event.now.by)) holds event.now.call }
    ensures { Turned shape.now event.now.by (calling_view event.now.call (slice_index_or views.old.items event.now.by (opening_view shape.now event.now.by))) words.old.items views.old.items words.new.items views.new.items result }
{
    let view = &mut views[event.by as usize];
    call_view(words, view, shape, event.call, holds)
}

/// One step of the call of a process. Where it is between two calls it first begins this one.
fn call_view(
    words: &mut [u64],
    view: &mut ProcessView,
    shape: &Shape,
    call: Call,
    holds: bool,
) -> Happened
    requires goes { may_go shape.now holds call view.old ≡ true }
    requires whole { length words.old ≡ table_words shape.now }
    requires invariant { IsAmongHolding shape.now words.old view.old holds call }
    ensures { Stepped shape.now (calling_view call view.old) words.old words.new view.new result }
{
    prove!(shape.processes() >= 1);
    begin_between(view, call);
    make_step(words, view, shape)
}

/// Begins a call where the process is in none; a search that is to choose begins the transfer that is due, if any.
fn begin_between(view: &mut ProcessView, call: Call)
    requires can { CanBegin view.old }
    ensures { view.new ≡ calling_view call view.old }
{
    match view.calls.stage {
        CallStage::Between => begin_call(view, call),
        CallStage::Choosing => choose(view),
        CallStage::Moving | CallStage::Own => {}
    }
}

/// Notes who holds a block after an entry.
pub fn note(holders: &mut Vec<Option<u32>>, happened: Happened)
    ensures { holders.new.items ≡ holders_after happened holders.old.items }
{
    if let Happened::Ended { entry, .. } = happened {
        match entry {
            Entry::Got { by, block } => set_holder(holders, block, Some(by)),
            Entry::Back { block, .. } => set_holder(holders, block, None),
            Entry::Dry { .. } => {}
        }
    }
}

/// Notes who holds this block.
fn set_holder(holders: &mut Vec<Option<u32>>, block: u32, holder: Option<u32>)
    ensures { holders.new.items ≡ slice_set holders.old.items block holder }
{
    if (block as usize) < holders.len() {
        holders[block as usize] = holder;
    }
}
