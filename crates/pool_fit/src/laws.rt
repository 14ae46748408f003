//! What holds of the pools of a table. Each law is the contract of a call that does nothing.
ghost use Rattle.pool_fit.specs.Laws.{LeastPoolsRefuseNothing};

/// A pool of a table, or one with more batches of the same length, refuses nothing, whatever its processes do: in all legal histories
/// in which the entries of each process are the calls for its trace's script.
pub fn least_pools_refuse_nothing()
    ensures { LeastPoolsRefuseNothing }
{}
