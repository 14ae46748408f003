//! What a pool promises, and which passes are all those of a pool. Each law is the contract of a call that does nothing.
ghost use Rattle.block_pool.specs.Closing.{OrderedAreAll, OpenedAreInOrder, CallsKeepOrder};
ghost use Rattle.block_pool.specs.Promises.{HeldOnce, AnsweredRight, RefusalsHadCause, EnoughIsEnough, CountedAreShort, PassesWithholdFew};

use crate::closing::Settled;

/// At every place of a closed pool's history each held block is one of the pool and is held once, by one process. A block
/// that was got was held by nobody right before, and one that was given back was held by its process.
#[tactic(auto, using(crate::proofs::Promises::held_once, crate::proofs::Promises::answered_right))]
pub fn no_block_is_held_twice(settled: &Settled)
    ensures held { HeldOnce settled.now }
    ensures answered { AnsweredRight settled.now }
{
    let _held = settled.held();
}

/// For each refused call of a closed pool's history there was a place, within its caller's last `2l` calls, where at most
/// `5pl` blocks weren't held, and its caller held `2l` blocks at least. So while more than `5pl` blocks aren't held, none
/// is refused.
#[tactic(auto, using(crate::proofs::Promises::refusals_had_cause, crate::proofs::Promises::enough_is_enough))]
pub fn refusals_had_cause(settled: &Settled)
    ensures refused { RefusalsHadCause settled.now }
    ensures enough { EnoughIsEnough settled.now }
{
    let _held = settled.held();
}

/// A call that is counted as those of a pool are, by their clause on steps, takes at most a quantum of steps and one, nine
/// at the usual quantum of eight; the counter and the moves of its pass rise alike.
#[tactic(auto, using(crate::proofs::Promises::counted_are_short))]
pub fn calls_are_short()
    ensures { CountedAreShort }
{}

/// All passes of a pool withhold at most `5pl` blocks together, the batches in transit included, wherever each stands
/// between two calls.
#[tactic(auto, using(crate::proofs::Promises::passes_withhold_few))]
pub fn passes_withhold_few()
    ensures { PassesWithholdFew }
{}

/// As many passes of a pool as it has processes, in the order of their numbers, are all of them. So they stand at the
/// opening, and each call leaves its pass in its place.
pub fn ordered_passes_are_all()
    ensures all { OrderedAreAll }
    ensures opened { OpenedAreInOrder }
    ensures calls { CallsKeepOrder }
{}
