// When a process may begin a call, or a transfer alone.
ghost use Rattle.std.specs.Prelude.{◌≡◌, ◌↔◌, IsTrue};
ghost use Rattle.pool_machine.specs.Conditions.{IsYoungFor, MayCall, MayMove, NamesFit, is_young_for, may_call, may_move, names_fit};

use crate::call::Call;
use crate::view::ProcessView;
use transfer_schedule::Pending;
use word_layout::Shape;

/// Whether a process may begin this call. `holds` says whether it holds the block that the call names.
pub fn may_call(view: &ProcessView, shape: &Shape, call: Call, holds: bool) -> bool
    ensures test { result ≡ may_call shape.now holds call view.now }
    ensures fact { IsTrue result ↔ MayCall shape.now holds call view.now }
{
    view.calls.way.may_use_calls()
        && is_young_for(view, shape, call)
        && names_fit(shape, call, holds)
}

/// Whether a process may begin a transfer alone, outside any call.
pub fn may_move(view: &ProcessView) -> bool
    ensures test { result ≡ may_move view.now }
    ensures fact { IsTrue result ↔ MayMove view.now }
{
    view.calls.way.may_use_transfers()
}

/// Whether the age leaves room for what the call begins: an allocate or a free begins the transfer that is due, a search
/// may begin one after the transfer that it meets, a read or a write begins none.
fn is_young_for(view: &ProcessView, shape: &Shape, call: Call) -> bool
    ensures test { result ≡ is_young_for shape.now call view.now }
    ensures fact { IsTrue result ↔ IsYoungFor shape.now call view.now }
{
    match call {
        Call::Allocate | Call::Free { .. } => {
            view.pool.plan.due() == Pending::Idle || view.transfer.age < shape.most_age()
        }
        Call::Search => view.transfer.age < shape.most_age(),
        Call::Read { .. } | Call::Write { .. } => true,
    }
}

/// Whether what a call names fits: its block is held, and its index is one of the block's data words.
fn names_fit(shape: &Shape, call: Call, holds: bool) -> bool
    ensures test { result ≡ names_fit shape.now holds call }
    ensures fact { IsTrue result ↔ NamesFit shape.now holds call }
{
    match call {
        Call::Allocate | Call::Search => true,
        Call::Free { .. } => holds,
        Call::Read { index, .. } | Call::Write { index, .. } => holds && index < shape.words(),
    }
}
