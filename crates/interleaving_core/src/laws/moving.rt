//! The machine moves: what a process may begin it begins, and a call that has begun is answered.
ghost use Rattle.interleaving_core.specs.MovingLaws.{AllocatesBegin, FreesBegin, ReadsBegin, WritesBegin, TakesBegin, GivesBegin, CallsAreAnswered};

/// A process between two calls, which has begun no transfer alone and is young, begins an allocate, and a free, a
/// read and a write of each block that it holds.
#[tactic(auto, using(crate::proofs::MovingBegins::allocates_begin, crate::proofs::MovingBegins::frees_begin, crate::proofs::MovingBegins::reads_begin, crate::proofs::MovingBegins::writes_begin))]
pub fn calls_begin()
    ensures allocates { AllocatesBegin }
    ensures frees { FreesBegin }
    ensures reads { ReadsBegin }
    ensures writes { WritesBegin }
{}

/// A process at rest, which has begun no call and is young, begins a take with at most one spare, and a give of its
/// newest spare where it has one.
pub fn transfers_begin()
    ensures takes { TakesBegin }
    ensures gives { GivesBegin }
{}

/// A call that has begun is answered by the time that its process has had a turn more than the call makes steps of
/// transfers at most, whatever turns the other processes have meanwhile.
pub fn calls_are_answered()
    ensures { CallsAreAnswered }
{}
